// Which elements are seen to change by raw changes of a page.
ghost use Rattle.std.specs.Prelude.{◌≡◌, ◌<◌, IfOk, IfSome, IsSome, true};
ghost use Rattle.form_tree.specs.Tree.{place_of};
ghost use Rattle.form_page.specs.Editing.{AreThere, edited_key};

use crate::views::{key_of, opened};
use form_judge::Steps;
use form_page::{Edit, Page};
use form_text::Text;
use form_tree::{Key, State};
use std::alloc::{AllocError, Global};
use std::sync::ledger::{Blank, Ledger};

// A change of the element of a key, or two with `;` between them; the keys of the elements that are
// then seen to change, each with a space behind it; and the page, with a tab between each two. A change
// is `+name` or `+name=value` for an attribute that is set, `-name` for one that is taken away, `'` and
// a text, `=` and the value of the element's state, `checked`, or `gone` for the file of that number.
const EDITS: &str = "\
    1 +value=b\t\t<input value=\"a\">\n\
    1 +value=b\t1 \t<input type=\"hidden\" value=\"a\">\n\
    1 +required\t1 \t<input>\n\
    1 -required\t1 \t<input required>\n\
    1 -required\t\t<input>\n\
    1 +title=t\t\t<input>\n\
    1 +disabled\t1 \t<input required>\n\
    1 +readonly\t1 \t<input required>\n\
    1 +disabled\t2 3 \t<fieldset><input required><input></fieldset>\n\
    1 +disabled\t4 \t<fieldset><legend><input></legend><input></fieldset>\n\
    2 -form\t\t<form id=\"f\"></form><input form=\"f\">\n\
    2 +name=b\t2 \t<input type=\"radio\" name=\"a\" required><input type=\"radio\" name=\"a\">\n\
    1 +required\t1 2 \t<input type=\"radio\" name=\"a\"><input type=\"radio\" name=\"a\">\n\
    2 checked\t1 2 \t<input type=\"radio\" name=\"a\" required><input type=\"radio\" name=\"a\">\n\
    2 checked\t2 \t<input type=\"radio\" name=\"a\" required><input type=\"radio\" name=\"b\">\n\
    3 +form=f\t3 \t<form id=\"f\"></form><input type=\"radio\" name=\"a\" required><input type=\"radio\" name=\"a\">\n\
    2 +disabled;1 +disabled\t1 2 \t<input><input>\n\
    1 +required;1 -required\t\t<input>\n\
    1 +value=b;1 +type=hidden\t1 \t<input value=\"a\">\n\
    1 +pattern=b+\t1 \t<input pattern=\"a+\" value=\"a\">\n\
    1 -pattern\t1 \t<input pattern=\"b\" value=\"a\">\n\
    1 +pattern=[\t1 \t<input pattern=\"b\" value=\"a\">\n\
    1 'b\t\t<textarea>a</textarea>\n\
    2 'b\t1 2 \t<select><option>a</option></select>\n\
    2 +value=b\t1 2 \t<select><option>a</option></select>\n\
    3 'c\t3 \t<select><option>a</option><option>b</option></select>\n\
    1 +min=1\t1 \t<input type=\"number\" step=\"2\" value=\"2\">\n\
    1 +max=06:00\t1 \t<input type=\"time\" min=\"22:00\" value=\"12:00\">\n\
    1 +type=url\t1 \t<input value=\"a\">\n\
    1 +type=search\t\t<input value=\"a\">\n\
    1 =b\t1 \t<input value=\"a\">\n\
    1 =b\t1 \t<input type=\"url\" value=\"http://a/\">\n\
    1 =a\t\t<input value=\"a\">\n\
    1 gone\t\t<input type=\"file\">\n\
    3 +id=g\t\t<form id=\"f\"></form><input form=\"f\"><p></p>\n\
    ";

fn attr_of(alloc: Global, key: Key, attr: &str) -> Result<Edit, AllocError> {
    let (name, value) = attr.split_once('=').unwrap_or((attr, ""));
    Ok(Edit::Attr {
        key,
        name: Text::from_str(alloc, name)?,
        value: Some(Text::from_str(alloc, value)?),
    })
}

fn value_of(alloc: Global, key: Key, value: &str) -> Result<Edit, AllocError> {
    let mut state = State::empty(alloc);
    state.value = Text::from_str(alloc, value)?;
    Ok(Edit::Put { key, state })
}

fn checked(alloc: Global, key: Key) -> Edit {
    let mut state = State::empty(alloc);
    state.checked = true;
    Edit::Put { key, state }
}

// The change of the element, or of the file, of that key.
fn change_of(alloc: Global, key: Key, change: &str) -> Result<Edit, AllocError> {
    if let Some(attr) = change.strip_prefix('+') {
        return attr_of(alloc, key, attr);
    }
    if let Some(name) = change.strip_prefix('-') {
        let name = Text::from_str(alloc, name)?;
        return Ok(Edit::Attr {
            key,
            name,
            value: None,
        });
    }
    if let Some(text) = change.strip_prefix('\'') {
        let text = Text::from_str(alloc, text)?;
        return Ok(Edit::Text { key, text });
    }
    if let Some(value) = change.strip_prefix('=') {
        return value_of(alloc, key, value);
    }
    if change == "checked" {
        return Ok(checked(alloc, key));
    }
    Ok(Edit::Gone { file: key.0 })
}

fn edit_of(alloc: Global, text: &str) -> Result<Edit, AllocError> {
    let (key, change) = text.split_once(' ').unwrap_or((text, ""));
    change_of(alloc, key_of(key), change)
}

fn key_of_edit(edit: &Edit) -> Option<Key>
    ensures { result ≡ edited_key edit.now }
{
    match edit {
        Edit::Attr { key, .. } => Some(*key),
        Edit::Text { key, .. } => Some(*key),
        Edit::Put { key, .. } => Some(*key),
        Edit::Gone { .. } => None,
    }
}

// Whether the element that is changed is there.
fn is_there(page: &Page, edit: &Edit) -> bool
    ensures { result ≡ true → IfSome (edited_key edit.now) (λ k. IsSome (place_of page.now.tree.nodes k)) }
{
    match key_of_edit(edit) {
        Some(key) => page.tree().place(key).is_some(),
        None => true,
    }
}

// The changes, of elements that are there; none where one is not.
fn edits_of(alloc: Global, page: &Page, changes: &str) -> Result<Vec<Edit>, AllocError>
    ensures { IfOk result (λ edits. AreThere page.now.tree.nodes edits.items) }
{
    let (one, other) = changes.split_once(';').unwrap_or((changes, ""));
    let one = edit_of(alloc, one)?;
    if !is_there(page, &one) {
        return Ok(Vec::new(alloc));
    }
    if other.is_empty() {
        return Ok(vec![in alloc; one]?);
    }
    let other = edit_of(alloc, other)?;
    if !is_there(page, &other) {
        return Ok(Vec::new(alloc));
    }
    Ok(vec![in alloc; one, other]?)
}

fn print_keys(alloc: Global, keys: &[Key]) -> Result<String, AllocError> {
    let mut out = String::new(alloc);
    for key in keys {
        let word = format!(in alloc; "{} ", key.0)?;
        out.push_str(&word)?;
    }
    Ok(out)
}

// The keys of the elements that are seen to change, each with a space behind it.
fn changed<L: Ledger>(
    alloc: Global,
    page: &mut Page,
    changes: &str,
    steps: &mut Steps<L>,
) -> Result<String, AllocError> {
    let edits = edits_of(alloc, page, changes)?;
    let keys = page.edit(edits, steps)?;
    print_keys(alloc, &keys)
}

fn does_change<L: Ledger>(
    alloc: Global,
    changes: &str,
    want: &str,
    text: &str,
    steps: &mut Steps<L>,
) -> bool {
    let Some(mut page) = opened(alloc, text, steps) else {
        return false;
    };
    match changed(alloc, &mut page, changes, steps) {
        Ok(keys) => keys.as_str() == want,
        Err(_) => false,
    }
}

// Whether a row holds.
fn holds<L: Ledger>(alloc: Global, row: &str, steps: &mut Steps<L>) -> bool {
    let Some((changes, row)) = row.split_once('\t') else {
        return false;
    };
    match row.split_once('\t') {
        Some((want, text)) => does_change(alloc, changes, want, text, steps),
        None => false,
    }
}

// The number of the first row that does not hold, from 1; 0 where all hold.
fn first_wrong<L: Ledger>(blank: Blank, alloc: Global) -> u32
    requires name { blank.name ≡ L.name }
    requires parts { blank.parts ≡ L.parts }
    requires some { 0 < blank.parts }
{
    let mut steps = Steps::<L>::new(blank);
    let mut number = 0u32;
    for row in EDITS.lines() {
        number = number.saturating_add(1);
        if !holds(alloc, row, &mut steps) {
            return number;
        }
    }
    0
}

#[test]
fn what_changes_of_pages(rt: HostRuntime) {
    let wrong = first_wrong::<std::marker::Brand>(Blank::new(1), rt.alloc());
    assert_eq!(rt; wrong, 0);
}
