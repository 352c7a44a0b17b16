// What is asked of a select and of its options, on pages.
ghost use Rattle.std.specs.Prelude.{◌≡◌, [], IfOk, vec_len};
ghost use Rattle.form_tree.specs.Tree.{IsTreeOfRaws};

use crate::pages::{is_option, is_select, key_of, mark, number, tree_of};
use form_select::{
    display_size, missing, option_disabled, option_value, placeholder, select_of, settle, settled,
};
use form_text::{Sequence, Text};
use form_tree::{Key, Raw, Tag, Tree};
use std::alloc::{AllocError, Global};
use std::test::Fail;

// Of a page its options: each with the number of its select (0 where it has none), whether it is disabled,
// and its value.
const OPTIONS: &str = "3|1 disabled|a
5|1 disabled|b
6|1 enabled|c d
7|1 enabled| x  y 
8|1 enabled|A B
9|1 enabled|
11|0 enabled|f";

const MANY: &str =
    "<select><optgroup disabled><option>a</option></optgroup><optgroup><option disabled>b</option><option> c  d </option></optgroup><option value=\" x  y \">e</option><option> A  B </option><option></option></select><datalist><option>f</option></datalist>";

// The number of an option's select, and whether the option is disabled.
fn standing(alloc: Global, tree: &Tree, key: Key) -> Result<String, AllocError> {
    if !is_option(tree, key) {
        return String::from_str(alloc, "no option");
    }
    let select = number(select_of(tree, key));
    let word = if option_disabled(tree, key) {
        "disabled"
    } else {
        "enabled"
    };
    format!(in alloc; "{select} {word}")
}

fn value(alloc: Global, tree: &Tree, key: Key) -> Result<String, AllocError> {
    if is_option(tree, key) {
        option_value(alloc, tree, key)
    } else {
        String::from_str(alloc, "no option")
    }
}

fn option(alloc: Global, tree: &Tree, key: Key) -> Result<String, AllocError> {
    let standing = standing(alloc, tree, key)?;
    let value = value(alloc, tree, key)?;
    format!(in alloc; "{}|{}", standing.as_str(), value.as_str())
}

// The first option that does not hold, and what is answered; an empty text where all hold.
fn first_wrong_option(alloc: Global, rows: &str) -> Result<String, AllocError> {
    let Some(tree) = tree_of(alloc, MANY) else {
        return String::from_str(alloc, "no page");
    };
    for row in rows.lines() {
        let (key, want) = row.split_once('|').unwrap_or((row, ""));
        let answer = option(alloc, &tree, key_of(key))?;
        if answer.as_str() != want {
            return format!(in alloc; "{row}: {}", answer.as_str());
        }
    }
    Ok(String::new(alloc))
}

#[test]
fn options_of_a_select_and_of_none(rt: HostRuntime) -> Result<(), Fail> {
    assert_eq!(rt; first_wrong_option(rt.alloc(), OPTIONS)?.as_str(), "");
    Ok(())
}

// The rows below are questions on selects, each with what it is asked of and the answer; a semicolon and a
// line feed stand between them. Here the attributes of a select, and its display size.
const SIZES: &str = "size|||1;
size|multiple||4;
size|size=\"x\"||1;
size|size=\"x\" multiple||4;
size|size=\"0\"||0;
size|size=\"0\" multiple||0;
size|size=\"1\" multiple||1;
size|size=\"2\"||2;
size|size=\"+3\"||3;
size|size=\"-1\"||1;
size|size=\"99999999999\"||4294967295";

// The attributes of a select, its first option (a second, `b`, stands behind it), and with no option, the
// first and the second selected the number of its placeholder label option (0 where it has none) and
// whether it is missing.
const CHOICES: &str = "choice||<option value=\"\">a</option>|0 false, 0 false, 0 false;
choice|required|<option value=\"\">a</option>|2 true, 2 true, 2 false;
choice|required|<option>a</option>|0 true, 0 false, 0 false;
choice|required|<option value=\"v\">a</option>|0 true, 0 false, 0 false;
choice|required size=\"1\"|<option value=\"\">a</option>|2 true, 2 true, 2 false;
choice|required size=\"2\"|<option value=\"\">a</option>|0 true, 0 false, 0 false;
choice|required size=\"0\"|<option value=\"\">a</option>|0 true, 0 false, 0 false;
choice|required size=\"1\" multiple|<option value=\"\">a</option>|0 true, 0 false, 0 false;
choice|required|<option></option>|2 true, 2 true, 2 false;
choice|required|<option> \n\t</option>|2 true, 2 true, 2 false;
choice|required|<option> - </option>|0 true, 0 false, 0 false;
choice|required disabled|<option value=\"\" disabled>a</option>|2 true, 2 true, 2 false";

// The attributes of a select with the options 3 (in a disabled optgroup), 5 (disabled), 6 and 7, which of
// them are selected, and those that stay so, each with a space behind it.
const SETTLED: &str = "settled|||6 ;
settled|size=\"1\"||6 ;
settled|size=\"2\"||;
settled|size=\"0\"||;
settled|multiple||;
settled||3|3 ;
settled||3 6|6 ;
settled|size=\"2\"|3 6 7|7 ;
settled|multiple|3 7|3 7 ";

// A display size, a list of options, and those that stay selected.
const LISTS: &str = "settle|1|3:disabled 4:|4 ;
settle|1|3:selected 4:disabled,selected 5:|4 ;
settle|1 multiple|3:selected 4:disabled,selected 5:|3 4 ;
settle|1|3:disabled|;
settle|4|3:disabled|";

// The tree of a page with these options selected.
fn marked(alloc: Global, page: &str, options: &str) -> Option<Tree> {
    let mut tree = tree_of(alloc, page)?;
    for option in options.split(' ') {
        mark(&mut tree, alloc, key_of(option));
    }
    Some(tree)
}

fn size(alloc: Global, attributes: &str) -> Result<String, AllocError> {
    let page = format!(in alloc; "<select {attributes}></select>")?;
    match tree_of(alloc, page.as_str()) {
        Some(tree) if is_select(&tree, Key(1)) => {
            format!(in alloc; "{}", display_size(&tree, Key(1)))
        }
        _ => String::from_str(alloc, "no select"),
    }
}

// A select's placeholder label option, and whether the select is missing.
fn choice(alloc: Global, page: &str, select: Key, selected: &str) -> Result<String, AllocError> {
    match marked(alloc, page, selected) {
        Some(tree) if is_select(&tree, select) => {
            let placeholder = number(placeholder(&tree, select));
            format!(in alloc; "{placeholder} {}", missing(&tree, select))
        }
        _ => String::from_str(alloc, "no select"),
    }
}

fn choices(alloc: Global, attributes: &str, first: &str) -> Result<String, AllocError> {
    let page = format!(in alloc; "<select {attributes}>{first}<option>b</option></select>")?;
    let page = page.as_str();
    let none = choice(alloc, page, Key(1), "")?;
    let one = choice(alloc, page, Key(1), "2")?;
    let other = choice(alloc, page, Key(1), "3")?;
    format!(in alloc; "{}, {}, {}", none.as_str(), one.as_str(), other.as_str())
}

fn shown(alloc: Global, keys: &[Key]) -> Result<String, AllocError> {
    let mut text = String::new(alloc);
    for key in keys {
        text.push_str(format!(in alloc; "{} ", key.0)?.as_str())?;
    }
    Ok(text)
}

// The options of a select that stay selected.
fn left(alloc: Global, page: &str, select: Key, selected: &str) -> Result<String, AllocError> {
    match marked(alloc, page, selected) {
        Some(tree) if is_select(&tree, select) => shown(alloc, &settled(alloc, &tree, select)?),
        _ => String::from_str(alloc, "no select"),
    }
}

fn left_of_four(alloc: Global, attributes: &str, selected: &str) -> Result<String, AllocError> {
    let page = format!(in alloc;
        "<select {attributes}><optgroup disabled><option>a</option></optgroup><optgroup><option disabled>b</option><option>c</option></optgroup><option>e</option></select>"
    )?;
    left(alloc, page.as_str(), Key(1), selected)
}

fn left_of_list(alloc: Global, size: &str, list: &str) -> Result<String, AllocError> {
    let (size, multiple) = match size.split_once(' ') {
        Some((size, _)) => (size, true),
        None => (size, false),
    };
    let mut options = Vec::new(alloc);
    for option in list.split(' ') {
        let (key, marks) = option.split_once(':').unwrap_or((option, ""));
        options.push((
            key_of(key),
            marks.contains("disabled"),
            marks.contains("selected"),
        ))?;
    }
    shown(
        alloc,
        &settle(alloc, multiple, size.parse::<u32>().unwrap_or(0), &options)?,
    )
}

fn answer(
    alloc: Global,
    question: &str,
    attributes: &str,
    rest: &str,
) -> Result<String, AllocError> {
    match question {
        "size" => size(alloc, attributes),
        "choice" => choices(alloc, attributes, rest),
        "settled" => left_of_four(alloc, attributes, rest),
        "settle" => left_of_list(alloc, attributes, rest),
        _ => String::from_str(alloc, "no question"),
    }
}

// The first row that does not hold, and what is answered; an empty text where all hold.
fn first_wrong(alloc: Global, rows: &str) -> Result<String, AllocError> {
    for row in rows.split(";\n") {
        let (question, rest) = row.split_once('|').unwrap_or((row, ""));
        let (attributes, rest) = rest.split_once('|').unwrap_or((rest, ""));
        let (rest, want) = rest.split_once('|').unwrap_or((rest, ""));
        let answer = answer(alloc, question, attributes, rest)?;
        if answer.as_str() != want {
            return format!(in alloc; "{row}: {}", answer.as_str());
        }
    }
    Ok(String::new(alloc))
}

#[test]
fn questions_on_selects(rt: HostRuntime) -> Result<(), Fail> {
    for rows in [SIZES, CHOICES, SETTLED, LISTS] {
        assert_eq!(rt; first_wrong(rt.alloc(), rows)?.as_str(), "");
    }
    Ok(())
}

const NESTED: &str = "<select required><optgroup><option value=\"\">a</option></optgroup></select>";

const JOIN: &str = "<form action=\"/join\" method=\"post\">
<p><label>Name <input name=\"n\" required maxlength=\"20\"></label></p>
<p><label>Born <input type=\"date\" name=\"d\" min=\"1900-01-01\"></label></p>
<p><select name=\"c\" required><option value=\"\">Choose</option><option>Oslo</option></select></p>
<p><input type=\"radio\" name=\"p\" value=\"a\" checked> A <input type=\"radio\" name=\"p\" value=\"b\"> B</p>
<p><input type=\"checkbox\" name=\"t\" required> Terms</p>
<p><button name=\"go\" value=\"1\">Join</button></p>
</form>";

fn count(alloc: Global, page: &str) -> usize {
    match tree_of(alloc, page) {
        Some(tree) => tree.len(),
        None => 0,
    }
}

// What is said of the two pages: a nested option is no placeholder, and the first option of a form that
// people fill in is one.
fn said_of_pages(alloc: Global) -> Result<String, AllocError> {
    let nested = choice(alloc, NESTED, Key(1), "3")?;
    let count = count(alloc, JOIN);
    let left = left(alloc, JOIN, Key(9), "")?;
    let first = choice(alloc, JOIN, Key(9), "10")?;
    format!(in alloc;
        "{}; {count}; {}; {}",
        nested.as_str(),
        left.as_str(),
        first.as_str()
    )
}

#[test]
fn placeholders_of_pages(rt: HostRuntime) -> Result<(), Fail> {
    assert_eq!(rt;
        said_of_pages(rt.alloc())?.as_str(),
        "0 false; 18; 10 ; 10 true"
    );
    Ok(())
}

// An element without attributes and text.
fn element(alloc: Global, parent: Option<usize>, tag: Tag) -> Raw
    ensures { result ≡ record { parent = parent; tag = tag; attrs = []; text = [] } }
{
    Raw {
        parent,
        tag,
        attrs: Sequence::new(alloc),
        text: Text::from_string(String::new(alloc)),
    }
}

// An optgroup that no select holds, and its option. No page has one.
fn lone_group(alloc: Global) -> Result<Vec<Raw>, AllocError>
    ensures few { IfOk result (λ raws. vec_len raws ≡ 2) }
    ensures tree { IfOk result (λ raws. IsTreeOfRaws raws.items) }
{
    let group = element(alloc, None, Tag::Optgroup);
    let option = element(alloc, Some(0), Tag::Choice);
    let raws = vec![in alloc; group, option]?;
    Ok(raws)
}

// The option's select and whether it is disabled, before its optgroup is disabled and behind that.
fn lone_option(alloc: Global) -> Result<String, AllocError> {
    let mut tree = Tree::from_raw(alloc, lone_group(alloc)?)?;
    let before = standing(alloc, &tree, Key(2))?;
    if tree.place(Key(1)).is_some() {
        tree.set_attr(Key(1), "disabled", Some(String::new(alloc)))?;
    }
    let behind = standing(alloc, &tree, Key(2))?;
    format!(in alloc; "{}, {}", before.as_str(), behind.as_str())
}

#[test]
fn an_option_without_a_select(rt: HostRuntime) -> Result<(), Fail> {
    assert_eq!(rt; lone_option(rt.alloc())?.as_str(), "0 enabled, 0 disabled");
    Ok(())
}
