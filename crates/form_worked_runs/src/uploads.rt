// Talks over pages with files.
use crate::setting::talks;
use std::test::Fail;

/// A form with one file.
pub const UPLOAD: &str =
    "<form method=\"post\" enctype=\"multipart/form-data\"><input type=\"file\" name=\"f\"></form>";

/// A form with files.
pub const UPLOADS: &str =
    "<form method=\"post\" enctype=\"multipart/form-data\"><input type=\"file\" name=\"f\" multiple></form>";

/// A file is chosen and sent.
pub const SENT: &str = "page 2\n\
    > boundary \"B\"\n\
    ok\n\
    > choose @2 1\n\
    @2 value=\"C:\\\\fakepath\\\\hi.txt\" checked=no candidate=yes flags=-\n\
    ok\n\
    > submit @1\n\
    request POST https://example.com/a?x#f\n\
    type multipart/form-data; boundary=B\n\
    data 119\n\
    --B\r\n\
    Content-Disposition: form-data; name=\"f\"; filename=\"hi.txt\"\r\n\
    Content-Type: application/octet-stream\r\n\
    \r\n\
    hi\r\n\
    --B--\r\n\
    \n\
    end\n\
    ok\n";

/// Two files are chosen and sent; the first boundary stands in one of them.
pub const BOTH: &str = "page 2\n\
    > boundary \"B\" \"C\"\n\
    ok\n\
    > choose @2 2 1\n\
    @2 value=\"C:\\\\fakepath\\\\b\" checked=no candidate=yes flags=-\n\
    ok\n\
    > submit @1\n\
    request POST https://example.com/a?x#f\n\
    type multipart/form-data; boundary=C\n\
    data 227\n\
    --C\r\n\
    Content-Disposition: form-data; name=\"f\"; filename=\"b\"\r\n\
    Content-Type: application/octet-stream\r\n\
    \r\n\
    --B\r\n\
    --C\r\n\
    Content-Disposition: form-data; name=\"f\"; filename=\"hi.txt\"\r\n\
    Content-Type: application/octet-stream\r\n\
    \r\n\
    hi\r\n\
    --C--\r\n\
    \n\
    end\n\
    ok\n";

/// The words with the file of the first.
pub const HI: &str = "https://example.com/a?x#f\ndocs/hi.txt=hi";

/// The words with the files of the second; a boundary stands in the second file.
pub const HI_AND_TAKEN: &str = "https://example.com/a?x#f\ndocs/hi.txt=hi\nb=--B";

// The words, one a line, with the bytes of the files; a page and a talk.
const TALKS: [(&str, &str, &str); 9] = [
    (HI, UPLOAD, SENT),
    (HI_AND_TAKEN, UPLOADS, BOTH),
    // a file that is withdrawn
    (
        HI,
        UPLOAD,
        "page 2\n\
            > boundary \"B\"\n\
            ok\n\
            > choose @2 1\n\
            @2 value=\"C:\\\\fakepath\\\\hi.txt\" checked=no candidate=yes flags=-\n\
            ok\n\
            > withdraw 1\n\
            @2 value=\"\" checked=no candidate=yes flags=-\n\
            ok\n\
            > choose @2 1\n\
            refused no-file\n\
            > withdraw 1\n\
            refused no-file\n\
            > submit @1\n\
            request POST https://example.com/a?x#f\n\
            type multipart/form-data; boundary=B\n\
            data 111\n\
            --B\r\n\
            Content-Disposition: form-data; name=\"f\"; filename=\"\"\r\n\
            Content-Type: application/octet-stream\r\n\
            \r\n\
            \r\n\
            --B--\r\n\
            \n\
            end\n\
            ok\n",
    ),
    // every boundary stands in a file, which then goes; one file twice, and none
    (
        HI_AND_TAKEN,
        UPLOADS,
        "page 2\n\
            > boundary \"B\"\n\
            ok\n\
            > choose @2 2 1\n\
            @2 value=\"C:\\\\fakepath\\\\b\" checked=no candidate=yes flags=-\n\
            ok\n\
            > submit @1\n\
            none clash\n\
            ok\n\
            > withdraw 2\n\
            @2 value=\"C:\\\\fakepath\\\\hi.txt\" checked=no candidate=yes flags=-\n\
            ok\n\
            > submit @1\n\
            request POST https://example.com/a?x#f\n\
            type multipart/form-data; boundary=B\n\
            data 119\n\
            --B\r\n\
            Content-Disposition: form-data; name=\"f\"; filename=\"hi.txt\"\r\n\
            Content-Type: application/octet-stream\r\n\
            \r\n\
            hi\r\n\
            --B--\r\n\
            \n\
            end\n\
            ok\n\
            > choose @2\n\
            @2 value=\"\" checked=no candidate=yes flags=-\n\
            ok\n\
            > choose @2 1 1\n\
            @2 value=\"C:\\\\fakepath\\\\hi.txt\" checked=no candidate=yes flags=-\n\
            ok\n\
            > submit @1\n\
            request POST https://example.com/a?x#f\n\
            type multipart/form-data; boundary=B\n\
            data 231\n\
            --B\r\n\
            Content-Disposition: form-data; name=\"f\"; filename=\"hi.txt\"\r\n\
            Content-Type: application/octet-stream\r\n\
            \r\n\
            hi\r\n\
            --B\r\n\
            Content-Disposition: form-data; name=\"f\"; filename=\"hi.txt\"\r\n\
            Content-Type: application/octet-stream\r\n\
            \r\n\
            hi\r\n\
            --B--\r\n\
            \n\
            end\n\
            ok\n",
    ),
    // where a file is sent as its name it is not read
    (
        "https://example.com/a?x#f\n/x/a b.txt",
        "<form method=\"post\" action=\"/u\"><input type=\"file\" name=\"f\"></form>\
            <form><input type=\"file\" name=\"g\"></form>\
            <form method=\"post\" enctype=\"text/plain\" action=\"/t\"><input type=\"file\" name=\"h\"></form>",
        "page 6\n\
            > choose @2 1\n\
            @2 value=\"C:\\\\fakepath\\\\a b.txt\" checked=no candidate=yes flags=-\n\
            ok\n\
            > submit @1\n\
            request POST https://example.com/u\n\
            type application/x-www-form-urlencoded\n\
            data 9\n\
            f=a+b.txt\n\
            end\n\
            ok\n\
            > choose @4 1\n\
            @4 value=\"C:\\\\fakepath\\\\a b.txt\" checked=no candidate=yes flags=-\n\
            ok\n\
            > submit @3\n\
            request GET https://example.com/a?g=a+b.txt#f\n\
            ok\n\
            > choose @6 1\n\
            @6 value=\"C:\\\\fakepath\\\\a b.txt\" checked=no candidate=yes flags=-\n\
            ok\n\
            > submit @5\n\
            request POST https://example.com/t\n\
            type text/plain\n\
            data 11\n\
            h=a b.txt\r\n\
            \n\
            end\n\
            ok\n",
    ),
    // what is refused, and in which order
    (
        "https://example.com/a?x#f\na=hi\nb=",
        "<form><input type=\"file\" name=\"f\" required><input type=\"file\" name=\"g\" disabled><input name=\"t\"></form>",
        "page 4\n\
            > enter @2\n\
            refused wrong-kind\n\
            > requestsubmit @1\n\
            stopped\n\
            invalid @2 valueMissing\n\
            ok\n\
            > choose @2 1 2\n\
            refused limit\n\
            > choose @2 3\n\
            refused no-file\n\
            > choose @2 1 3\n\
            refused no-file\n\
            > choose @3 1\n\
            refused immutable\n\
            > choose @3 3\n\
            refused immutable\n\
            > choose @4 1\n\
            refused wrong-kind\n\
            > choose @9 1\n\
            refused no-element\n\
            > user @2 \"\"\n\
            refused wrong-kind\n\
            > set @2 \"x\"\n\
            refused wrong-kind\n\
            > withdraw 3\n\
            refused no-file\n\
            > show @2\n\
            @2 value=\"\" checked=no candidate=yes flags=valueMissing\n\
            ok\n",
    ),
    // what empties the files
    (
        "https://example.com/a?x#f\na=hi",
        "<form><input type=\"file\" name=\"f\" required></form>",
        "page 2\n\
            > choose @2 1\n\
            @2 value=\"C:\\\\fakepath\\\\a\" checked=no candidate=yes flags=-\n\
            ok\n\
            > set @2 \"\"\n\
            @2 value=\"\" checked=no candidate=yes flags=valueMissing\n\
            ok\n\
            > choose @2 1\n\
            @2 value=\"C:\\\\fakepath\\\\a\" checked=no candidate=yes flags=-\n\
            ok\n\
            > reset @1\n\
            @2 value=\"\" checked=no candidate=yes flags=valueMissing\n\
            ok\n\
            > choose @2 1\n\
            @2 value=\"C:\\\\fakepath\\\\a\" checked=no candidate=yes flags=-\n\
            ok\n\
            > attr @2 type \"hidden\"\n\
            @2 value=\"\" checked=no candidate=no flags=-\n\
            ok\n\
            > attr @2 type \"file\"\n\
            @2 value=\"\" checked=no candidate=yes flags=valueMissing\n\
            ok\n\
            > withdraw 1\n\
            ok\n",
    ),
    // one file in two inputs
    (
        "https://example.com/a?x#f\na/b.c=hi",
        "<input type=\"file\"><input type=\"file\" multiple>",
        "page 2\n\
            > choose @1 1\n\
            @1 value=\"C:\\\\fakepath\\\\b.c\" checked=no candidate=yes flags=-\n\
            ok\n\
            > choose @2 1 1\n\
            @2 value=\"C:\\\\fakepath\\\\b.c\" checked=no candidate=yes flags=-\n\
            ok\n\
            > withdraw 1\n\
            @1 value=\"\" checked=no candidate=yes flags=-\n\
            @2 value=\"\" checked=no candidate=yes flags=-\n\
            ok\n",
    ),
    // an empty file whose name is escaped
    (
        "https://example.com/a?x#f\nq\"r=",
        UPLOAD,
        "page 2\n\
            > boundary \"B\"\n\
            ok\n\
            > choose @2 1\n\
            @2 value=\"C:\\\\fakepath\\\\q\\\"r\" checked=no candidate=yes flags=-\n\
            ok\n\
            > submit @1\n\
            request POST https://example.com/a?x#f\n\
            type multipart/form-data; boundary=B\n\
            data 116\n\
            --B\r\n\
            Content-Disposition: form-data; name=\"f\"; filename=\"q%22r\"\r\n\
            Content-Type: application/octet-stream\r\n\
            \r\n\
            \r\n\
            --B--\r\n\
            \n\
            end\n\
            ok\n",
    ),
];

#[test]
fn uploads(rt: HostRuntime) -> Result<(), Fail> {
    for (words, page, talk) in TALKS {
        talks(&rt, rt.alloc(), words, page, talk)?;
    }
    Ok(())
}
