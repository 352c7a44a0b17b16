// What texts are read into: their elements, or their first fault.
use form_markup::{
    MOST_ATTRIBUTES, MOST_DEPTH, MOST_ELEMENTS, MOST_VALUE, PageFault, read, read_in,
};
use form_tree::{Raw, Tag};
use std::alloc::{AllocError, Global};
use std::test::Fail;

fn word(tag: Tag) -> &'static str {
    match tag {
        Tag::Form => "form",
        Tag::Fieldset => "fieldset",
        Tag::Legend => "legend",
        Tag::Input => "input",
        Tag::Select => "select",
        Tag::Optgroup => "optgroup",
        Tag::Choice => "option",
        Tag::Textarea => "textarea",
        Tag::Button => "button",
        Tag::Datalist => "datalist",
        Tag::Other => "other",
    }
}

// An element: its parent's place or `-`, its tag, its attributes and its text.
fn print_raw(alloc: Global, raw: &Raw) -> Result<String, AllocError> {
    let mut out = match raw.parent {
        Some(parent) => format!(in alloc; "{parent} {}", word(raw.tag))?,
        None => format!(in alloc; "- {}", word(raw.tag))?,
    };
    for (name, value) in raw.attrs.as_slice() {
        let attr = format!(in alloc; " {}=\"{}\"", name.as_str(), value.as_str())?;
        out.push_str(&attr)?;
    }
    let text = format!(in alloc; " '{}';", raw.text.as_str())?;
    out.push_str(&text)?;
    Ok(out)
}

fn print_raws(alloc: Global, raws: &[Raw]) -> Result<String, AllocError> {
    let mut out = String::new(alloc);
    for raw in raws {
        let printed = print_raw(alloc, raw)?;
        out.push_str(&printed)?;
    }
    Ok(out)
}

fn print_fault(alloc: Global, fault: PageFault) -> Result<String, AllocError> {
    match fault {
        PageFault::Lexical(place) => format!(in alloc; "lexical {place}"),
        PageFault::Limit(place) => format!(in alloc; "limit {place}"),
        PageFault::Element(place) => format!(in alloc; "element {place}"),
        PageFault::Email(place) => format!(in alloc; "email {place}"),
        PageFault::Nesting(place) => format!(in alloc; "nesting {place}"),
        PageFault::Memory => Err(AllocError),
    }
}

fn print_read(alloc: Global, text: &str, around: &[Tag]) -> Result<String, AllocError> {
    match read_in(alloc, text, around) {
        Ok(raws) => print_raws(alloc, &raws),
        Err(fault) => print_fault(alloc, fault),
    }
}

fn gives_in(alloc: Global, text: &str, around: &[Tag], want: &str) -> bool {
    match print_read(alloc, text, around) {
        Ok(printed) => printed.as_str() == want,
        Err(_) => false,
    }
}

fn gives(alloc: Global, text: &str, want: &str) -> bool {
    gives_in(alloc, text, &[], want)
}

// A row as it is meant: the pictures of TAB and LF stand for these.
pub fn meant(alloc: Global, row: &str) -> Result<String, AllocError> {
    let mut out = String::new(alloc);
    for c in row.chars() {
        out.push(match c {
            '␉' => '\t',
            '␊' => '\n',
            c => c,
        })?;
    }
    Ok(out)
}

// Whether the text of a row is read as the row says behind the TAB.
fn holds(alloc: Global, row: &str) -> bool {
    let Some((text, want)) = row.split_once('\t') else {
        return false;
    };
    match (meant(alloc, text), meant(alloc, want)) {
        (Ok(text), Ok(want)) => gives(alloc, &text, &want),
        _ => false,
    }
}

// The first row that does not hold.
fn wrong(alloc: Global, rows: &str) -> Option<&str> {
    for row in rows.lines() {
        if !holds(alloc, row) {
            return Some(row);
        }
    }
    None
}

const ELEMENTS: &str = "\
    \t\n\
    a b␊\t\n\
    <p>a &amp; b</p>\t- other 'a & b';\n\
    <form ACTION=/s><!-- c --><input name=q></form>\t- form action=\"/s\" '';0 input name=\"q\" '';\n\
    x<P>a<b>c</B>d<br>e</p>y<hr>\t- other 'ade';0 other 'c';0 other '';- other '';\n\
    <!doctype html><!DOCTYPE \u{0}><p></p>\t- other '';\n\
    <!----><!-- -\u{0}- -- > --><p></p>\t- other '';\n\
    <fieldset><legend></legend><button></button></fieldset>\t- fieldset '';0 legend '';0 button '';\n\
    <select><hr><option>a</option><optgroup><option>b</option></optgroup></select>\t- select '';0 other '';0 option 'a';0 optgroup '';3 option 'b';\n\
    <datalist><option></option></datalist>\t- datalist '';0 option '';\n\
    <form></form><form></form>\t- form '';- form '';\n\
    ";

#[test]
fn elements(rt: HostRuntime) {
    assert_eq!(rt; wrong(rt.alloc(), ELEMENTS), None);
}

const ATTRIBUTES: &str = "\
    <p a=\"1\" A='2' b>x</p>\t- other a=\"1\" b=\"\" 'x';\n\
    <p␉a␊=\u{c}b  c= 'y \"'␉d =\">\" ></p>\t- other a=\"b\" c=\"y \"\" d=\">\" '';\n\
    <br/><br /><br a/>\t- other '';- other '';- other a=\"\" '';\n\
    <br a=b/>\t- other a=\"b/\" '';\n\
    <INPUT NAME=Q-9>\t- input name=\"Q-9\" '';\n\
    <p \u{c9}X=\u{c9} a\rb=c\rd></p>\t- other \u{c9}x=\"\u{c9}\" a\rb=\"c\rd\" '';\n\
    <p a=&lt;&x b='&#65;&' c=\"&&amp;\"></p>\t- other a=\"<&x\" b=\"A&\" c=\"&&\" '';\n\
    <p a b a=c></p>\t- other a=\"\" b=\"\" '';\n\
    <input type=emails>\t- input type=\"emails\" '';\n\
    <p type=email></p>\t- other type=\"email\" '';\n\
    <input type=text type=email>\t- input type=\"text\" '';\n\
    ";

#[test]
fn attributes(rt: HostRuntime) {
    assert_eq!(rt; wrong(rt.alloc(), ATTRIBUTES), None);
}

const REFERENCES: &str = "\
    <p>&lt;&gt;&quot;&apos;&nbsp;&amp;</p>\t- other '<>\"'\u{a0}&';\n\
    <p>&#65;&#x4a;&#X4A;&#000065;</p>\t- other 'AJJA';\n\
    <p>&#1;&#13;&#127;&#160;&#xD7FF;&#xE000;&#x10FFFF;</p>\t- other '\u{1}\r\u{7f}\u{a0}\u{d7ff}\u{e000}\u{10ffff}';\n\
    <p>&;& &a &a b; &amp &am&p;</p>\tlexical 24\n\
    <p>&;& &a &a b; &amp &-;</p>\t- other '&;& &a &a b; &amp &-;';\n\
    <p>&copy;</p>\tlexical 3\n\
    <p>&AMP;</p>\tlexical 3\n\
    <p>&1;</p>\tlexical 3\n\
    <p>&#;</p>\tlexical 3\n\
    <p>&#x;</p>\tlexical 3\n\
    <p>&#65</p>\tlexical 3\n\
    <p>&#x41g;</p>\tlexical 3\n\
    <p>&#0;</p>\tlexical 3\n\
    <p>&#128;</p>\tlexical 3\n\
    <p>&#159;</p>\tlexical 3\n\
    <p>&#xD800;</p>\tlexical 3\n\
    <p>&#xDFFF;</p>\tlexical 3\n\
    <p>&#x110000;</p>\tlexical 3\n\
    <p>&#99999999999999999999999;</p>\tlexical 3\n\
    <p a='x&copy;'></p>\tlexical 0\n\
    ";

#[test]
fn references(rt: HostRuntime) {
    assert_eq!(rt; wrong(rt.alloc(), REFERENCES), None);
}

const TEXTAREAS: &str = "\
    <textarea>␊a<b</textarea>\t- textarea 'a<b';\n\
    <textarea>␊␊x</textarea>\t- textarea '␊x';\n\
    <TextArea>␊</TEXTAREA␉>\t- textarea '';\n\
    <textarea> ␊</textarea>\t- textarea ' ␊';\n\
    <textarea>&#10;x</textarea>\t- textarea '␊x';\n\
    <textarea></textareas></textarea-></text</textarea>\t- textarea '</textareas></textarea-></text';\n\
    <textarea><!-- <p> --></p><br/></textarea>\t- textarea '<!-- <p> --></p><br/>';\n\
    <textarea>&lt;&x&<</textarea>\t- textarea '<&x&<';\n\
    <textarea>&copy;</textarea>\tlexical 10\n\
    <textarea>x\u{0}</textarea>\tlexical 11\n\
    <textarea></textarea/>\tlexical 10\n\
    <textarea></textarea a>\tlexical 10\n\
    <textarea></textarea\tnesting 20\n\
    <textarea></textarea \tlexical 10\n\
    <p>␊x</p>\t- other '␊x';\n\
    ";

#[test]
fn textareas(rt: HostRuntime) {
    assert_eq!(rt; wrong(rt.alloc(), TEXTAREAS), None);
}

const LEXICAL_FAULTS: &str = "\
    <form><input name=\"q\tlexical 6\n\
    <\tlexical 0\n\
    x<\tlexical 1\n\
    \u{e9}<1>\tlexical 2\n\
    \u{0}\tlexical 0\n\
    <p>x\u{0}</p>\tlexical 4\n\
    <p></p>\u{0}\tlexical 7\n\
    </>\tlexical 0\n\
    </ p>\tlexical 0\n\
    <p></p x>\tlexical 3\n\
    <!>\tlexical 0\n\
    <!-x-->\tlexical 0\n\
    <!-->-->\tlexical 0\n\
    <!--->-->\tlexical 0\n\
    <!-- ->\tlexical 0\n\
    <!doctyp>\tlexical 0\n\
    <!doctype html\tlexical 0\n\
    <p/>\tlexical 0\n\
    <br / >\tlexical 0\n\
    <br/ >\tlexical 0\n\
    <p a=>\tlexical 0\n\
    <p a=\"b>\tlexical 0\n\
    <p a='b\u{0}'>\tlexical 0\n\
    <p a=\"b\"c>\tlexical 0\n\
    <p a=b\"c>\tlexical 0\n\
    <p a=b=c>\tlexical 0\n\
    <p a=b`>\tlexical 0\n\
    <p a&b>\tlexical 0\n\
    <p =a>\tlexical 0\n\
    <p a\tlexical 0\n\
    <p\r>\tlexical 0\n\
    <p_>\tlexical 0\n\
    ";

#[test]
fn lexical_faults(rt: HostRuntime) {
    assert_eq!(rt; wrong(rt.alloc(), LEXICAL_FAULTS), None);
}

const OTHER_FAULTS: &str = "\
    <form>\tnesting 6\n\
    <input type=\"EMAIL\">\temail 0\n\
    <p><input type=eMail>\temail 3\n\
    <iframe>\telement 0\n\
    <p><Template>\telement 3\n\
    <br><x-y>\telement 4\n\
    <h-/>\tlexical 0\n\
    <select><iframe>\telement 8\n\
    <select><input type=email>\temail 8\n\
    <p></q>\u{0}\tnesting 3\n\
    </p>\tnesting 0\n\
    </br>\tnesting 0\n\
    <p></p></p>\tnesting 7\n\
    <p><b></p></b>\tnesting 6\n\
    <p>x\tnesting 4\n\
    <form><p><form>\tnesting 9\n\
    <button><b><button>\tnesting 11\n\
    <select><p>\tnesting 8\n\
    <select><optgroup><hr>\tnesting 18\n\
    <select><optgroup><optgroup>\tnesting 18\n\
    <select><select>\tnesting 8\n\
    <datalist><option><b>\tnesting 18\n\
    <datalist><option><option>\tnesting 18\n\
    <option>\tnesting 0\n\
    <p><option>\tnesting 3\n\
    <form><option></option></form>\tnesting 6\n\
    <optgroup>\tnesting 0\n\
    <datalist><optgroup>\tnesting 10\n\
    ";

#[test]
fn other_faults(rt: HostRuntime) {
    assert_eq!(rt; wrong(rt.alloc(), OTHER_FAULTS), None);
}

// Each kind of fault where it can stand last: in the last piece, or at the text's end. A limit's rows
// stand in `limits`.
const LAST_FAULTS: &str = "\
    <p>a</p>\u{0}\tlexical 8\n\
    <p>a</p>&#0;\tlexical 8\n\
    <p>a</p><\tlexical 8\n\
    <p>a</p><br\tlexical 8\n\
    <p>a</p><!-- -\tlexical 8\n\
    <p>a</p><!doctype\tlexical 8\n\
    <p>a</p><title>\telement 8\n\
    <p>a</p><input type=email>\temail 8\n\
    <p>a</p></p>\tnesting 8\n\
    <p>a</p><option>\tnesting 8\n\
    <p>a</p><b>\tnesting 11\n\
    <p>a</p><textarea>&lt;\tnesting 22\n\
    ";

#[test]
fn last_faults(rt: HostRuntime) {
    assert_eq!(rt; wrong(rt.alloc(), LAST_FAULTS), None);
}

#[test]
fn inside_elements(rt: HostRuntime) {
    for (text, around, want) in [
        (
            "<option>a</option>",
            [Tag::Form, Tag::Select],
            "- option 'a';",
        ),
        ("<p></p>", [Tag::Form, Tag::Select], "nesting 0"),
        ("<p></p>", [Tag::Select, Tag::Optgroup], "nesting 0"),
        ("<b></b>", [Tag::Datalist, Tag::Choice], "nesting 0"),
        ("<form></form>", [Tag::Form, Tag::Other], "nesting 0"),
        ("<b></b></form>", [Tag::Form, Tag::Form], "nesting 7"),
        ("<option></option>", [Tag::Select, Tag::Other], "nesting 0"),
        (
            "<b><br></b>",
            [Tag::Other, Tag::Textarea],
            "- other '';0 other '';",
        ),
        ("<b>", [Tag::Other, Tag::Other], "nesting 3"),
    ] {
        assert!(rt; gives_in(rt.alloc(), text, &around, want), "{text}");
    }
}

// A text that has a part again and again.
fn repeated(
    alloc: Global,
    front: &str,
    part: &str,
    count: usize,
    back: &str,
) -> Result<String, AllocError> {
    let mut out = String::from_str(alloc, front)?;
    for _ in 0..count {
        out.push_str(part)?;
    }
    out.push_str(back)?;
    Ok(out)
}

// Whether the text is read into so many elements.
fn has_elements(alloc: Global, text: &str, count: usize) -> bool {
    match read(alloc, text) {
        Ok(raws) => raws.len() == count,
        Err(_) => false,
    }
}

#[test]
fn limits(rt: HostRuntime) -> Result<(), Fail> {
    let alloc = rt.alloc();
    let most = repeated(alloc, "", "<br>", MOST_ELEMENTS, "")?;
    assert!(rt; has_elements(alloc, &most, 65_536));
    let more = repeated(alloc, "", "<br>", MOST_ELEMENTS + 1, "\u{0}")?;
    assert!(rt; gives(alloc, &more, "limit 262144"));
    let deep = repeated(alloc, "", "<p>", MOST_DEPTH - 1, "<br>")?;
    assert!(rt; gives(alloc, &deep, "nesting 769"));
    let deeper = repeated(alloc, "", "<p>", MOST_DEPTH, "<iframe>")?;
    assert!(rt; gives(alloc, &deeper, "limit 768"));
    let attrs = repeated(alloc, "<br", " a=b", MOST_ATTRIBUTES, ">")?;
    assert!(rt; gives(alloc, &attrs, "- other a=\"b\" '';"));
    let many = repeated(alloc, "x<iframe", " a", MOST_ATTRIBUTES + 1, ">")?;
    assert!(rt; gives(alloc, &many, "limit 1"));
    let value = repeated(alloc, "<br a='", "&amp;", MOST_VALUE, "'>")?;
    assert!(rt; has_elements(alloc, &value, 1));
    let long = repeated(alloc, "<br b a='", "x", MOST_VALUE + 1, "'>")?;
    assert!(rt; gives(alloc, &long, "limit 0"));
    Ok(())
}

// An email fault and a fault of limits where a tag has all the attributes that it may have.
#[test]
fn full_tags(rt: HostRuntime) -> Result<(), Fail> {
    let alloc = rt.alloc();
    let full = repeated(alloc, "<input", " a=b", MOST_ATTRIBUTES - 1, " type=email>")?;
    assert!(rt; gives(alloc, &full, "email 0"));
    let past = repeated(alloc, "<input", " a=b", MOST_ATTRIBUTES, " type=email>")?;
    assert!(rt; gives(alloc, &past, "limit 0"));
    let second = repeated(
        alloc,
        "<input type=text",
        " a=b",
        MOST_ATTRIBUTES - 2,
        " type=email>",
    )?;
    assert!(rt; gives(alloc, &second, "- input type=\"text\" a=\"b\" '';"));
    Ok(())
}
