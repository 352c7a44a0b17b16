// The entry lists of pages.
ghost use Rattle.std.specs.Prelude.{◌≡◌, ◌<◌};

use crate::views::{key_of, opened};
use form_encode::{Entry, Given};
use form_entries::entries;
use form_judge::Steps;
use form_page::{Edit, Page};
use form_tree::{Key, State};
use std::alloc::{AllocError, Global};
use std::sync::ledger::{Blank, Ledger};

// Where an image button is clicked.
const PLACE: (u32, u32) = (4, 5);

fn push_entry(out: &mut String, alloc: Global, entry: &Entry) -> Result<(), AllocError> {
    out.push_str(entry.name.as_str())?;
    match &entry.value {
        Given::Text(text) => {
            out.push_str("=")?;
            out.push_str(text.as_str())?;
        }
        Given::File { number, name } => {
            let shown = format!(in alloc; "@{}:{}", number.unwrap_or(0), name.as_str())?;
            out.push_str(shown.as_str())?;
        }
    }
    out.push_str("&")
}

// The entries, each with `&` behind it; a text stands behind `=`, a file's number and name behind `@`.
fn shown(alloc: Global, list: &[Entry]) -> Result<String, AllocError> {
    let mut out = String::new(alloc);
    for entry in list {
        push_entry(&mut out, alloc, entry)?;
    }
    Ok(out)
}

// The keys of the form and of the submitter (0 for none), the entries, and the page, with a tab between
// each two.
const ENTRIES: &str = "\
    1 0\t\t<form></form>\n\
    1 0\ta=1&\t<form><fieldset disabled><legend><input name=\"a\" value=\"1\"></legend><input name=\"b\" value=\"2\"></fieldset></form>\n\
    1 0\ts=b&\t<form><select name=\"s\" multiple><option selected disabled>a</option><option selected>b</option></select></form>\n\
    1 2\tgo.x=4&go.y=5&\t<form><input type=\"image\" name=\"go\"></form>\n\
    1 2\tx=4&y=5&\t<form><input type=\"image\"></form>\n\
    1 2\tx=4&y=5&\t<form><input type=\"image\" name=\"\" value=\"v\"></form>\n\
    1 0\t\t<form><input type=\"image\" name=\"go\"></form>\n\
    1 3\ta=&go.x=4&go.y=5&b=&\t<form><input name=\"a\"><input type=\"image\" name=\"go\"><input name=\"b\"></form>\n\
    1 0\t_charset_=UTF-8&\t<form><input type=\"hidden\" name=\"_charset_\" value=\"a\"></form>\n\
    1 0\t_CharSet_=UTF-8&\t<form><input type=\"hidden\" name=\"_CharSet_\"></form>\n\
    1 0\t_charset_=a&\t<form><input name=\"_charset_\" value=\"a\"></form>\n\
    1 0\ta=b&\t<form><input type=\"hidden\" name=\"a\" value=\"b\"></form>\n\
    1 0\tf@0:&\t<form><input type=\"file\" name=\"f\"></form>\n\
    1 0\t\t<form><input type=\"file\"></form>\n\
    1 0\t\t<form><input type=\"checkbox\" name=\"a\"><input type=\"radio\" name=\"b\"></form>\n\
    1 0\ta=on&b=c&\t<form><input type=\"checkbox\" name=\"a\" checked><input type=\"radio\" name=\"b\" value=\"c\" checked></form>\n\
    1 0\t\t<form><button name=\"a\" value=\"b\"></button><input type=\"submit\" name=\"c\"><input type=\"reset\" name=\"d\"><input type=\"button\" name=\"e\"></form>\n\
    1 2\ta=b&\t<form><button name=\"a\" value=\"b\"></button><button name=\"c\"></button></form>\n\
    1 3\tc=&\t<form><button name=\"a\" value=\"b\"></button><button name=\"c\"></button></form>\n\
    1 2\t\t<form><button name=\"a\" disabled></button></form>\n\
    1 2\t\t<form><input type=\"image\" name=\"a\" disabled></form>\n\
    1 2\t\t<form><button></button></form>\n\
    1 2\ts=&\t<form><input type=\"submit\" name=\"s\"></form>\n\
    1 0\t\t<form><datalist><p><input name=\"a\"></p></datalist></form>\n\
    1 0\tb=&\t<form><datalist></datalist><input name=\"b\"></form>\n\
    1 0\t\t<form><input value=\"a\"><input name=\"\" value=\"a\"></form>\n\
    1 0\ta=&\t<form><input name=\"a\"><input name=\"b\" disabled></form>\n\
    1 0\ta=1&\t<form><input name=\"a\" value=\"1\" readonly></form>\n\
    2 0\tb=&a=&\t<input name=\"b\" form=\"f\"><form id=\"f\"><input name=\"a\"></form>\n\
    1 0\t\t<form></form><input name=\"a\">\n\
    1 0\ta=&\t<form><input name=\"a\"></form><form><input name=\"b\"></form>\n\
    3 0\tb=&\t<form><input name=\"a\"></form><form><input name=\"b\"></form>\n\
    1 0\ts=a&b=c&\t<form><select name=\"s\"><option>a</option></select><input name=\"b\" value=\"c\"></form>\n\
    1 0\ts=b c&t=d&\t<form><select name=\"s\"><option disabled>a</option><option> b  c </option></select><select name=\"t\"><option>d</option></select></form>\n\
    1 0\t\t<form><select name=\"s\"><optgroup disabled><option selected>a</option></optgroup></select></form>\n\
    1 0\ts=a&s=c&\t<form><select name=\"s\" multiple><optgroup><option selected>a</option></optgroup><option>b</option><option selected>c</option></select></form>\n\
    1 0\t\t<form><select><option>a</option></select></form>\n\
    1 0\t\t<form><select name=\"s\" size=\"2\"><option>a</option></select></form>\n\
    1 0\tt=x y&\t<form><textarea name=\"t\">x y</textarea></form>\n\
    1 0\ta=1&a=1&\t<form><input name=\"a\" value=\"1\"><input name=\"a\" value=\"1\"></form>\n\
    1 0\ta=&\t<form><p><label><input name=\"a\"></label></p><p></p></form>\n\
    ";

fn submitter_of(number: &str) -> Option<Key> {
    match number {
        "0" => None,
        number => Some(key_of(number)),
    }
}

fn is_listed(alloc: Global, page: &Page, keys: &str, want: &str) -> bool {
    let (form, submitter) = keys.split_once(' ').unwrap_or((keys, "0"));
    let Ok(list) = entries(alloc, page, key_of(form), submitter_of(submitter), PLACE) else {
        return false;
    };
    match shown(alloc, &list) {
        Ok(shown) => shown.as_str() == want,
        Err(_) => false,
    }
}

// Whether a row holds.
fn holds<L: Ledger>(alloc: Global, row: &str, steps: &mut Steps<L>) -> bool {
    let Some((keys, row)) = row.split_once('\t') else {
        return false;
    };
    let Some((want, text)) = row.split_once('\t') else {
        return false;
    };
    match opened(alloc, text, steps) {
        Some(page) => is_listed(alloc, &page, keys, want),
        None => false,
    }
}

// The number of the first row that does not hold, from 1; 0 where all hold.
fn first_wrong<L: Ledger>(blank: Blank, alloc: Global) -> u32
    requires name { blank.name ≡ L.name }
    requires parts { blank.parts ≡ L.parts }
    requires some { 0 < blank.parts }
{
    let mut steps = Steps::<L>::new(blank);
    let mut number = 0u32;
    for row in ENTRIES.lines() {
        number = number.saturating_add(1);
        if !holds(alloc, row, &mut steps) {
            return number;
        }
    }
    0
}

#[test]
fn entries_of_pages(rt: HostRuntime) {
    let wrong = first_wrong::<std::marker::Brand>(Blank::new(1), rt.alloc());
    assert_eq!(rt; wrong, 0);
}

const FILES_PAGE: &str = "<form><input type=\"file\" name=\"f\" multiple></form>";

// The numbers of the files that the input of that page has, with a space between each two, and the entries,
// with a tab between both.
const FILES: &str = "\
    \tf@0:&\n\
    1\tf@1:hi.txt&\n\
    2 1 2\tf@2:b&f@1:hi.txt&f@2:b&\n\
    ";

fn with_files<L: Ledger>(
    alloc: Global,
    page: &mut Page,
    numbers: &str,
    steps: &mut Steps<L>,
) -> Result<(), AllocError> {
    let mut state = State::empty(alloc);
    for number in numbers.split_whitespace() {
        state.files.push(key_of(number).0)?;
    }
    let input = Key(2);
    if page.tree().place(input).is_none() {
        return Ok(());
    }
    let edits = vec![in alloc; Edit::Put { key: input, state }]?;
    page.edit(edits, steps)?;
    Ok(())
}

fn does_send<L: Ledger>(alloc: Global, row: &str, steps: &mut Steps<L>) -> bool {
    let Some((numbers, want)) = row.split_once('\t') else {
        return false;
    };
    let Some(mut page) = opened(alloc, FILES_PAGE, steps) else {
        return false;
    };
    match with_files(alloc, &mut page, numbers, steps) {
        Ok(()) => is_listed(alloc, &page, "1 0", want),
        Err(_) => false,
    }
}

fn first_unsent<L: Ledger>(blank: Blank, alloc: Global) -> u32
    requires name { blank.name ≡ L.name }
    requires parts { blank.parts ≡ L.parts }
    requires some { 0 < blank.parts }
{
    let mut steps = Steps::<L>::new(blank);
    let mut number = 0u32;
    for row in FILES.lines() {
        number = number.saturating_add(1);
        if !does_send(alloc, row, &mut steps) {
            return number;
        }
    }
    0
}

#[test]
fn entries_of_files(rt: HostRuntime) {
    let wrong = first_unsent::<std::marker::Brand>(Blank::new(1), rt.alloc());
    assert_eq!(rt; wrong, 0);
}
