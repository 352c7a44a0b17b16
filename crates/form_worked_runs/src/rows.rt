// Pages and talks: each line of a talk that begins with `> ` is a command, and those behind it are its
// reply.
use crate::setting::{BASE, talks};
use std::test::Fail;

/// A form as people meet it, filled in and sent.
pub const JOIN: (&str, &str) = (
    "<form action=\"/join\" method=\"post\">\n\
        <p><label>Name <input name=\"n\" required maxlength=\"20\"></label></p>\n\
        <p><label>Born <input type=\"date\" name=\"d\" min=\"1900-01-01\"></label></p>\n\
        <p><select name=\"c\" required><option value=\"\">Choose</option><option>Oslo</option></select></p>\n\
        <p><input type=\"radio\" name=\"p\" value=\"a\" checked> A <input type=\"radio\" name=\"p\" value=\"b\"> B</p>\n\
        <p><input type=\"checkbox\" name=\"t\" required> Terms</p>\n\
        <p><button name=\"go\" value=\"1\">Join</button></p>\n\
        </form>",
    "page 18\n\
        > click @18\n\
        stopped\n\
        invalid @4 valueMissing\n\
        invalid @9 valueMissing\n\
        invalid @16 valueMissing\n\
        ok\n\
        > user @4 \"Ann Lee\"\n\
        @4 value=\"Ann Lee\" checked=no candidate=yes flags=-\n\
        ok\n\
        > user @7 \"1990-02-03\"\n\
        @7 value=\"1990-02-03\" checked=no candidate=yes flags=-\n\
        ok\n\
        > pick @11\n\
        @9 value=\"Oslo\" checked=no candidate=yes flags=-\n\
        @10 value=\"\" selected=no\n\
        @11 value=\"Oslo\" selected=yes\n\
        ok\n\
        > check @14\n\
        @13 value=\"a\" checked=no candidate=yes flags=-\n\
        @14 value=\"b\" checked=yes candidate=yes flags=-\n\
        ok\n\
        > check @16\n\
        @16 value=\"on\" checked=yes candidate=yes flags=-\n\
        ok\n\
        > click @18\n\
        request POST https://example.com/join\n\
        type application/x-www-form-urlencoded\n\
        data 43\n\
        n=Ann+Lee&d=1990-02-03&c=Oslo&p=b&t=on&go=1\n\
        end\n\
        ok\n",
);

/// An empty form that is sent.
pub const EMPTY: (&str, &str) = (
    "<form></form>",
    "page 1\n\
        > submit @1\n\
        request GET https://example.com/a?#f\n\
        ok\n",
);

const ROWS: [(&str, &str); 26] = [
    // a required text
    (
        "<form action=\"/s\"><input name=\"q\" required></form>",
        "page 2\n\
            > enter @2\n\
            stopped\n\
            invalid @2 valueMissing\n\
            ok\n\
            > user @2 \"a b\"\n\
            @2 value=\"a b\" checked=no candidate=yes flags=-\n\
            ok\n\
            > enter @2\n\
            request GET https://example.com/s?q=a+b\n\
            ok\n",
    ),
    JOIN,
    EMPTY,
    // weeks, and a value that is normalised
    (
        "<input type=\"week\" value=\"2020-W53\"><input type=\"datetime-local\">",
        "page 2\n\
            > show @1\n\
            @1 value=\"2020-W53\" checked=no candidate=yes flags=-\n\
            ok\n\
            > set @1 \"2021-W53\"\n\
            @1 value=\"\" checked=no candidate=yes flags=-\n\
            ok\n\
            > set @2 \"2024-05-06 07:08:00.000\"\n\
            @2 value=\"2024-05-06T07:08\" checked=no candidate=yes flags=-\n\
            ok\n",
    ),
    // dates
    (
        "<input type=\"date\">",
        "page 1\n\
            > set @1 \"1900-02-29\"\n\
            ok\n\
            > set @1 \"2000-02-29\"\n\
            @1 value=\"2000-02-29\" checked=no candidate=yes flags=-\n\
            ok\n\
            > set @1 \"9999-12-31\"\n\
            @1 value=\"9999-12-31\" checked=no candidate=yes flags=-\n\
            ok\n\
            > set @1 \"10000-01-01\"\n\
            @1 value=\"\" checked=no candidate=yes flags=-\n\
            ok\n",
    ),
    // numbers
    (
        "<input type=\"number\">",
        "page 1\n\
            > set @1 \"1.\"\n\
            ok\n\
            > set @1 \".5\"\n\
            @1 value=\".5\" checked=no candidate=yes flags=stepMismatch\n\
            ok\n\
            > set @1 \"+1\"\n\
            @1 value=\"\" checked=no candidate=yes flags=-\n\
            ok\n\
            > set @1 \"1e17\"\n\
            @1 value=\"1e17\" checked=no candidate=yes flags=-\n\
            ok\n\
            > set @1 \"1e18\"\n\
            @1 value=\"\" checked=no candidate=yes flags=-\n\
            ok\n\
            > set @1 \"100000000000000000000e-20\"\n\
            @1 value=\"100000000000000000000e-20\" checked=no candidate=yes flags=-\n\
            ok\n\
            > set @1 \"1e-13\"\n\
            @1 value=\"\" checked=no candidate=yes flags=-\n\
            ok\n",
    ),
    // a tie of range, and one that is cut
    (
        "<input type=\"range\" min=\"0\" max=\"10\" step=\"2\">",
        "page 1\n\
            > show @1\n\
            @1 value=\"6\" checked=no candidate=yes flags=-\n\
            ok\n\
            > set @1 \"4\"\n\
            @1 value=\"4\" checked=no candidate=yes flags=-\n\
            ok\n\
            > set @1 \"5\"\n\
            @1 value=\"6\" checked=no candidate=yes flags=-\n\
            ok\n\
            > attr @1 max \"5\"\n\
            @1 value=\"4\" checked=no candidate=yes flags=-\n\
            ok\n\
            > set @1 \"5\"\n\
            ok\n",
    ),
    // the step base of range from its value attribute
    (
        "<input type=\"range\" value=\"3.3\">",
        "page 1\n\
            > set @1 \"0\"\n\
            @1 value=\"0.3\" checked=no candidate=yes flags=-\n\
            ok\n",
    ),
    // a range that goes round midnight, and steps of days
    (
        "<input type=\"time\" min=\"22:00\" max=\"06:00\"><input type=\"date\" min=\"2024-01-01\" step=\"7\">",
        "page 2\n\
            > set @1 \"12:00\"\n\
            @1 value=\"12:00\" checked=no candidate=yes flags=rangeUnderflow,rangeOverflow\n\
            ok\n\
            > set @1 \"23:00\"\n\
            @1 value=\"23:00\" checked=no candidate=yes flags=-\n\
            ok\n\
            > set @2 \"2024-01-09\"\n\
            @2 value=\"2024-01-09\" checked=no candidate=yes flags=stepMismatch\n\
            ok\n\
            > set @2 \"2024-01-08\"\n\
            @2 value=\"2024-01-08\" checked=no candidate=yes flags=-\n\
            ok\n",
    ),
    // lengths in UTF-16, and who edited
    (
        "<input maxlength=\"1\">",
        "page 1\n\
            > user @1 \"😀\"\n\
            @1 value=\"😀\" checked=no candidate=yes flags=tooLong\n\
            ok\n\
            > set @1 \"😀\"\n\
            @1 value=\"😀\" checked=no candidate=yes flags=-\n\
            ok\n",
    ),
    // a type change that restores nothing
    (
        "<input>",
        "page 1\n\
            > user @1 \"2024-02-30\"\n\
            @1 value=\"2024-02-30\" checked=no candidate=yes flags=-\n\
            ok\n\
            > attr @1 type \"date\"\n\
            @1 value=\"\" checked=no candidate=yes flags=-\n\
            ok\n\
            > attr @1 type \"text\"\n\
            ok\n\
            > attr @1 value \"z\"\n\
            ok\n",
    ),
    // a change of the mode of the value
    (
        "<input value=\"v0\">",
        "page 1\n\
            > set @1 \"v\"\n\
            @1 value=\"v\" checked=no candidate=yes flags=-\n\
            ok\n\
            > attr @1 type \"hidden\"\n\
            @1 value=\"v\" checked=no candidate=no flags=-\n\
            ok\n\
            > attr @1 type \"text\"\n\
            @1 value=\"v\" checked=no candidate=yes flags=-\n\
            ok\n\
            > attr @1 value \"w\"\n\
            @1 value=\"w\" checked=no candidate=yes flags=-\n\
            ok\n",
    ),
    // two groups joined by an ID: the one that moved stays checked
    (
        "<form id=\"a\"><input type=\"radio\" name=\"g\" checked></form><form id=\"b\"></form><input type=\"radio\" name=\"g\" form=\"c\" checked>",
        "page 4\n\
            > attr @1 id \"c\"\n\
            @2 value=\"on\" checked=no candidate=yes flags=-\n\
            ok\n\
            > show @4\n\
            @4 value=\"on\" checked=yes candidate=yes flags=-\n\
            ok\n",
    ),
    // a required group
    (
        "<form><input type=\"radio\" name=\"g\"><input type=\"radio\" name=\"g\" required></form>",
        "page 3\n\
            > show @2\n\
            @2 value=\"on\" checked=no candidate=yes flags=valueMissing\n\
            ok\n\
            > check @2\n\
            @2 value=\"on\" checked=yes candidate=yes flags=-\n\
            @3 value=\"on\" checked=no candidate=yes flags=-\n\
            ok\n\
            > attr @3 name \"h\"\n\
            @3 value=\"on\" checked=no candidate=yes flags=valueMissing\n\
            ok\n",
    ),
    // a first legend
    (
        "<form><fieldset disabled><legend><input name=\"a\" value=\"1\"></legend><input name=\"b\" value=\"2\"></fieldset></form>",
        "page 5\n\
            > submit @1\n\
            request GET https://example.com/a?a=1#f\n\
            ok\n",
    ),
    // an image button
    (
        "<form action=\"/m\"><input type=\"image\" name=\"go\"></form>",
        "page 2\n\
            > clickat @2 4 5\n\
            request GET https://example.com/m?go.x=4&go.y=5\n\
            ok\n",
    ),
    // no request
    (
        "<form action=\"mailto:a@b.c\"></form><form method=\"dialog\"></form><form action=\"http://[\"></form><form action=\"ftp://h/f\" method=\"post\"></form>",
        "page 4\n\
            > submit @1\n\
            none scheme\n\
            ok\n\
            > submit @2\n\
            none dialog\n\
            ok\n\
            > submit @3\n\
            none action\n\
            ok\n\
            > submit @4\n\
            request GET ftp://h/f\n\
            ok\n",
    ),
    // validation skipped
    (
        "<form><input name=\"q\" required><button name=\"s\" value=\"1\" formnovalidate></button></form>",
        "page 3\n\
            > requestsubmit @1\n\
            stopped\n\
            invalid @2 valueMissing\n\
            ok\n\
            > requestsubmit @1 @3\n\
            request GET https://example.com/a?q=&s=1#f\n\
            ok\n\
            > submit @1\n\
            request GET https://example.com/a?q=#f\n\
            ok\n",
    ),
    // implicit submission, blocked by a second field
    (
        "<form><input name=\"a\"><input name=\"b\"></form>",
        "page 3\n\
            > enter @2\n\
            ok\n\
            > attr @3 type \"checkbox\"\n\
            @3 value=\"on\" checked=no candidate=yes flags=-\n\
            ok\n\
            > enter @2\n\
            request GET https://example.com/a?a=#f\n\
            ok\n",
    ),
    // refusals
    (
        "<input><p></p>",
        "page 2\n\
            > user @9 \"x\"\n\
            refused no-element\n\
            > user @2 \"x\"\n\
            refused wrong-kind\n\
            > attr @1 disabled \"\"\n\
            @1 value=\"\" checked=no candidate=no flags=-\n\
            ok\n\
            > user @1 \"x\"\n\
            refused immutable\n\
            > attr @1 type \"eMail\"\n\
            refused email\n\
            > jump\n\
            refused syntax\n\
            > show @1\n\
            @1 value=\"\" checked=no candidate=no flags=-\n\
            ok\n",
    ),
    // bad input, and reset
    (
        "<form><input type=\"number\" value=\"7\"></form>",
        "page 2\n\
            > user @2 \"x\"\n\
            @2 value=\"\" checked=no candidate=yes flags=badInput\n\
            ok\n\
            > reset @1\n\
            @2 value=\"7\" checked=no candidate=yes flags=-\n\
            ok\n",
    ),
    // a pattern, a URL and a custom message
    (
        "<input pattern=\"[0-9]{3}\"><input type=\"url\">",
        "page 2\n\
            > set @1 \"1234\"\n\
            @1 value=\"1234\" checked=no candidate=yes flags=patternMismatch\n\
            ok\n\
            > set @1 \"123\"\n\
            @1 value=\"123\" checked=no candidate=yes flags=-\n\
            ok\n\
            > set @2 \" x \"\n\
            @2 value=\"x\" checked=no candidate=yes flags=typeMismatch\n\
            ok\n\
            > custom @2 \"no\"\n\
            @2 value=\"x\" checked=no candidate=yes flags=typeMismatch,customError\n\
            ok\n",
    ),
    // a multipart body with an empty file
    (
        "<form method=\"post\" enctype=\"multipart/form-data\"><textarea name=\"a\">x\n\
            y</textarea><input type=\"file\" name=\"f\"></form>",
        "page 3\n\
            > boundary \"B\"\n\
            ok\n\
            > submit @1\n\
            request POST https://example.com/a?x#f\n\
            type multipart/form-data; boundary=B\n\
            data 166\n\
            --B\r\n\
            Content-Disposition: form-data; name=\"a\"\r\n\
            \r\n\
            x\r\n\
            y\r\n\
            --B\r\n\
            Content-Disposition: form-data; name=\"f\"; filename=\"\"\r\n\
            Content-Type: application/octet-stream\r\n\
            \r\n\
            \r\n\
            --B--\r\n\
            \n\
            end\n\
            ok\n",
    ),
    // a boundary that stands in a part
    (
        "<form method=\"post\" enctype=\"multipart/form-data\"><input name=\"t\" value=\"--B\"></form>",
        "page 2\n\
            > boundary \"B\" \"C\"\n\
            ok\n\
            > submit @1\n\
            request POST https://example.com/a?x#f\n\
            type multipart/form-data; boundary=C\n\
            data 61\n\
            --C\r\n\
            Content-Disposition: form-data; name=\"t\"\r\n\
            \r\n\
            --B\r\n\
            --C--\r\n\
            \n\
            end\n\
            ok\n\
            > set @2 \"--B--C\"\n\
            @2 value=\"--B--C\" checked=no candidate=yes flags=-\n\
            ok\n\
            > submit @1\n\
            none clash\n\
            ok\n",
    ),
    // plain text
    (
        "<form method=\"post\" enctype=\"text/plain\"><input name=\"a\" value=\"x y\"><input type=\"checkbox\" name=\"b\" checked></form>",
        "page 3\n\
            > submit @1\n\
            request POST https://example.com/a?x#f\n\
            type text/plain\n\
            data 13\n\
            a=x y\r\n\
            b=on\r\n\
            \n\
            end\n\
            ok\n",
    ),
    // what spells a command, and what does not
    (
        "<form><input></form>",
        "page 2\n\
            > \n\
            > # user @2 \"x\"\n\
            > set @2 \"a\\u{0}b\"\r\n\
            @2 value=\"a\\u{0}b\" checked=no candidate=yes flags=-\n\
            ok\n\
            >  # user @2 \"x\"\n\
            refused syntax\n\
            > set  @2 \"x\"\n\
            refused syntax\n\
            > set @02 \"x\"\n\
            refused syntax\n\
            > show @0\n\
            refused syntax\n\
            > set @2 \"\\u{D800}\"\n\
            refused syntax\n\
            > show @2 \n\
            refused syntax\n\
            > show @1\n\
            refused wrong-kind\n\
            > requestsubmit @2\n\
            refused wrong-kind\n\
            > requestsubmit @1 @2\n\
            refused wrong-kind\n\
            > requestsubmit @1 @3\n\
            refused no-element\n\
            > show @2\n\
            @2 value=\"a\\u{0}b\" checked=no candidate=yes flags=-\n\
            ok\n",
    ),
];

#[test]
fn rows(rt: HostRuntime) -> Result<(), Fail> {
    for (page, talk) in ROWS {
        talks(&rt, rt.alloc(), BASE, page, talk)?;
    }
    Ok(())
}
