// What spells a command, and what does not. In the tables a semicolon and a line feed stand between two rows.
use crate::setting::reply_to;
use std::alloc::{AllocError, Global};
use std::test::Fail;

const SYNTAX: &str = "refused syntax\n";

// A line for each command and form of it, and its reply. An image button is clicked at (0, 0), and is the
// default button.
const COMMANDS: &str = "user @2 \"t\"|@2 value=\"t\" checked=no candidate=yes flags=-\nok\n;
set @2 \"t\"|@2 value=\"t\" checked=no candidate=yes flags=-\nok\n;
attr @2 id \"t\"|ok\n;
unattr @2 id|ok\n;
text @4 \"t\"|@4 value=\"t\" checked=no candidate=yes flags=-\nok\n;
check @5|@5 value=\"on\" checked=yes candidate=yes flags=-\nok\n;
uncheck @5|ok\n;
setchecked @5 yes|@5 value=\"on\" checked=yes candidate=yes flags=-\nok\n;
setchecked @5 no|ok\n;
pick @7|ok\n;
setselected @7 yes|ok\n;
custom @2 \"t\"|@2 value=\"\" checked=no candidate=yes flags=customError\nok\n;
choose @2|refused wrong-kind\n;
choose @2 1 2|refused wrong-kind\n;
withdraw 1|refused no-file\n;
reset @1|ok\n;
click @3|request GET https://example.com/a?x=0&y=0#f\nok\n;
clickat @3 4 5|request GET https://example.com/a?x=4&y=5#f\nok\n;
enter @2|request GET https://example.com/a?x=0&y=0#f\nok\n;
submit @1|request GET https://example.com/a?#f\nok\n;
requestsubmit @1|request GET https://example.com/a?#f\nok\n;
requestsubmit @1 @3|request GET https://example.com/a?x=0&y=0#f\nok\n;
show @2|@2 value=\"\" checked=no candidate=yes flags=-\nok\n;
boundary \"B\"|ok\n;
boundary \"B\" \"C\"|ok\n";

// A text, and what stands in the place of the first such text of a line, so that it spells nothing.
const CHANGES: &str = " |  ;
 |;
 |\t;
 |\r;
 |\u{a0};
 | ,;
@|;
@|@0;
@|@+;
@|@ ;
@|@@;
@|@-;
\"|;
\"|';
\"|\"\\x;
\"|\"\";
yes|Yes;
no|\"no\"";

// What stands before and behind a line, so that it spells nothing.
const AROUND: &str = " |;
\t|;
\r|;
\u{feff}|;
x|;
\"|;
| ;
|\t;
|\r\r;
|.;
|\0;
| #;
| \"\";
| @0";

// The lines into which a line is changed, which spell nothing.
fn changed(alloc: Global, line: &str) -> Result<Vec<String>, AllocError> {
    let mut lines = Vec::new(alloc);
    for row in CHANGES.split(";\n") {
        let (old, new) = row.split_once('|').unwrap_or((row, ""));
        if let Some((front, back)) = line.split_once(old) {
            lines.push(format!(in alloc; "{front}{new}{back}")?)?;
        }
    }
    for row in AROUND.split(";\n") {
        let (before, behind) = row.split_once('|').unwrap_or((row, ""));
        lines.push(format!(in alloc; "{before}{line}{behind}")?)?;
    }
    Ok(lines)
}

// The reply to a command, and behind it the first line into which it is changed that is taken.
fn reply_to_command(alloc: Global, line: &str) -> Result<String, AllocError> {
    let mut reply = reply_to(alloc, line)?;
    for changed in changed(alloc, line)?.iter() {
        if reply_to(alloc, changed.as_str())?.as_str() != SYNTAX {
            reply.push_str(changed.as_str())?;
            return Ok(reply);
        }
    }
    Ok(reply)
}

#[test]
fn commands_and_what_is_none(rt: HostRuntime) -> Result<(), Fail> {
    assert_eq!(rt; first_wrong(rt.alloc(), "command", COMMANDS)?.as_str(), "");
    Ok(())
}

// Literals of texts, and how the value is then printed; none where the literal spells none. A text area's
// value has line feeds alone.
const TEXTS: &str = "\"\"|\"\";
\"a b\"|\"a b\";
\" a  b \"|\" a  b \";
\"#\"|\"#\";
\"'\"|\"'\";
\"\\\\\"|\"\\\\\";
\"\\\"\"|\"\\\"\";
\"\\t\"|\"\\t\";
\"\t\"|\"\\t\";
\"a\\nb\"|\"a\\nb\";
\"a\\rb\\r\\nc\"|\"a\\nb\\nc\";
\"a\rb\"|\"a\\nb\";
\"\\u{41}\"|\"A\";
\"\\u{000041}\"|\"A\";
\"\\u{0}\"|\"\\u{0}\";
\"\\u{1F}\"|\"\\u{1f}\";
\"\\u{7f}\"|\"\\u{7f}\";
\"\\u{80}\"|\"\u{80}\";
\"\\u{22}\"|\"\\\"\";
\"\\u{d7ff}\"|\"\u{d7ff}\";
\"\\u{E000}\"|\"\u{e000}\";
\"\\u{1F600}\"|\"\u{1f600}\";
\"\\u{10FFFF}\"|\"\u{10ffff}\";
\"\\u{D800}\"|none;
\"\\u{dfff}\"|none;
\"\\u{110000}\"|none;
\"\\u{}\"|none;
\"\\u{0000041}\"|none;
\"\\u{41\"|none;
\"\\u{4G}\"|none;
\"\\u{ 41}\"|none;
\"\\u{+41}\"|none;
\"\\u41\"|none;
\"\\U{41}\"|none;
\"\\x41\"|none;
\"\\0\"|none;
\"\\'\"|none;
\"\\N\"|none;
\"\\ \"|none;
\"a\"b\"|none;
\"a|none;
a\"|none;
\"a\\\"|none;
\"|none";

// How the value of a text area is printed that is set to `!` and then to the literal.
fn printed(alloc: Global, literal: &str) -> Result<String, AllocError> {
    let lines = format!(in alloc; "set @4 \"!\"\nset @4 {literal}")?;
    let reply = reply_to(alloc, lines.as_str())?;
    String::from_str(alloc, value_in(reply.as_str()).unwrap_or("another reply"))
}

// The second value in the reply.
fn value_in(reply: &str) -> Option<&str> {
    let reply = reply.strip_prefix("@4 value=\"!\" checked=no candidate=yes flags=-\nok\n")?;
    if reply == SYNTAX {
        return Some("none");
    }
    let reply = reply.strip_prefix("@4 value=")?;
    reply.strip_suffix(" checked=no candidate=yes flags=-\nok\n")
}

#[test]
fn texts(rt: HostRuntime) -> Result<(), Fail> {
    assert_eq!(rt; first_wrong(rt.alloc(), "literal", TEXTS)?.as_str(), "");
    Ok(())
}

// Lines, and their replies: lines that are no command or none that is known.
const NO_COMMANDS: &str = "|;
\r|;
#|;
#show @2|;
# \r|;
 |refused syntax\n;
\t|refused syntax\n;
\r\r|refused syntax\n;
 # show @2|refused syntax\n;
\u{feff}# show @2|refused syntax\n;
jump|refused syntax\n;
SHOW @2|refused syntax\n;
shows @2|refused syntax\n";

// The same, of line ends.
const LINE_ENDS: &str = "show @1|refused wrong-kind\n;
show @1\r|refused wrong-kind\n;
show @1\r\n\r\n#\r\nshow @1|refused wrong-kind\nrefused wrong-kind\n;
show @1\rshow @1|refused syntax\n";

// The same, of keys.
const KEYS: &str = "show @4294967295|refused no-element\n;
show @4294967296|refused syntax\n;
show @18446744073709551617|refused syntax\n;
show @0|refused syntax\n;
show @|refused syntax\n;
show @1a|refused syntax\n;
show 1|refused syntax\n;
requestsubmit @1 @0|refused syntax\n;
requestsubmit @1 @4294967295|refused no-element\n";

// The same, of numbers.
const NUMBERS: &str = "withdraw 0|refused syntax\n;
withdraw 01|refused syntax\n;
withdraw +1|refused syntax\n;
withdraw @1|refused syntax\n;
withdraw 1 2|refused syntax\n;
withdraw 4294967295|refused no-file\n;
withdraw 4294967296|refused syntax\n;
choose @2 0|refused syntax\n;
choose @2 1 02|refused syntax\n;
choose @2 4294967296|refused syntax\n;
clickat @3 0 0|request GET https://example.com/a?x=0&y=0#f\nok\n;
clickat @3 4294967295 10|request GET https://example.com/a?x=4294967295&y=10#f\nok\n;
clickat @3 4294967296 0|refused syntax\n;
clickat @3 0 00|refused syntax\n;
clickat @3 -1 0|refused syntax\n;
clickat @3 1|refused syntax\n;
clickat @3 1 2 3|refused syntax\n";

// The same, of names.
const NAMES: &str = "attr @2 VaLuE \"v\"|@2 value=\"v\" checked=no candidate=yes flags=-\nok\n;
attr @2 a-b_9 \"\"|ok\n;
attr @2 9a \"\"|refused syntax\n;
attr @2 -a \"\"|refused syntax\n;
attr @2 a:b \"\"|refused syntax\n;
attr @2 \u{e9} \"\"|refused syntax\n;
attr @2 a|refused syntax\n;
unattr @2 a \"\"|refused syntax\n;
setchecked @5 true|refused syntax\n";

#[test]
fn lines(rt: HostRuntime) -> Result<(), Fail> {
    for rows in [NO_COMMANDS, LINE_ENDS, KEYS, NUMBERS, NAMES] {
        assert_eq!(rt; first_wrong(rt.alloc(), "line", rows)?.as_str(), "");
    }
    Ok(())
}

// What stands before so many `a`, their number, what stands behind them, and the reply. A name has 64 bytes
// at most, a boundary 70, and a line 1,048,576; there may be 8 boundaries.
const SIZES: &str = "attr @2 |64| \"\"|ok\n;
attr @2 |65| \"\"|refused syntax\n;
unattr @2 |64||ok\n;
unattr @2 |65||refused syntax\n;
boundary \"|70|\"|ok\n;
boundary \"|71|\"|refused syntax\n;
boundary \"B\" \"|70|\"|ok\n;
boundary \"B\" \"|71|\"|refused syntax\n;
boundary \"a-_Z\" \"b\" \"c\" \"d\" \"e\" \"f\" \"g\" \"|1|\"|ok\n;
boundary \"a\" \"b\" \"c\" \"d\" \"e\" \"f\" \"g\" \"h\" \"|1|\"|refused syntax\n;
boundary \"\" \"|1|\"|refused syntax\n;
boundary \"a b\" \"|1|\"|refused syntax\n;
boundary \"a.b\" \"|1|\"|refused syntax\n;
boundary \"\\u{42}\" \"|1|\"|ok\n;
custom @2 \"|1048564|\"|@2 value=\"\" checked=no candidate=yes flags=customError\nok\n;
custom @2 \"|1048564|\"\r|@2 value=\"\" checked=no candidate=yes flags=customError\nok\n;
custom @2 \"|1048565|\"|refused syntax\n;
custom @2 \"|1048565|\"\r|refused syntax\n;
#|1048576||;
|1048577||refused syntax\n";

fn reply_to_many(alloc: Global, given: &str) -> Result<String, AllocError> {
    let (front, rest) = given.split_once('|').unwrap_or((given, ""));
    let (count, back) = rest.split_once('|').unwrap_or((rest, ""));
    let many = "a".repeat(alloc, count.parse::<usize>().unwrap_or(0))?;
    let line = format!(in alloc; "{front}{}{back}", many.as_str())?;
    reply_to(alloc, line.as_str())
}

#[test]
fn sizes(rt: HostRuntime) -> Result<(), Fail> {
    assert_eq!(rt; first_wrong(rt.alloc(), "many", SIZES)?.as_str(), "");
    Ok(())
}

fn answer(alloc: Global, question: &str, given: &str) -> Result<String, AllocError> {
    match question {
        "command" => reply_to_command(alloc, given),
        "literal" => printed(alloc, given),
        "line" => reply_to(alloc, given),
        "many" => reply_to_many(alloc, given),
        _ => String::from_str(alloc, "no question"),
    }
}

// The first row that does not hold, and what is answered; an empty text where all hold.
fn first_wrong(alloc: Global, question: &str, rows: &str) -> Result<String, AllocError> {
    for row in rows.split(";\n") {
        let (given, want) = row.rsplit_once('|').unwrap_or((row, "no reply"));
        let answer = answer(alloc, question, given)?;
        if answer.as_str() != want {
            return format!(in alloc; "{row}: {}", answer.as_str());
        }
    }
    Ok(String::new(alloc))
}
