// The owner of each element, and whether it is disabled, on pages.
use crate::pages::{key_of, number, tree_of};
use form_owner::{Move, Owners};
use form_tree::{Key, Tree};
use std::alloc::{AllocError, Global};
use std::test::Fail;

// An element, the number of its owner (0 where it has none) and whether it is disabled, and the page.
const ANSWERS: &str = "2|1 enabled|<form><input></form>
3|1 enabled|<form><p><input></p></form>
1|0 enabled|<input>
2|0 enabled|<form><p></p></form>
3|0 enabled|<form><select><option>a</option></select></form>
3|1 enabled|<form id=\"a\"></form><form><input form=\"a\"></form>
2|0 enabled|<form><input form=\"\"></form>
2|0 enabled|<form id=\"\"></form><input form=\"\">
2|0 enabled|<form><input form=\"x\"></form>
2|0 enabled|<form><input form=\"x\"><p id=\"x\"></p></form>
3|0 enabled|<p id=\"a\"></p><form id=\"a\"></form><input form=\"a\">
3|1 enabled|<form id=\"a\"></form><form id=\"a\"></form><input form=\"a\">
2|0 enabled|<form id=\"A\"></form><input form=\"a\">
2|1 enabled|<form><fieldset disabled><legend><input name=\"a\" value=\"1\"></legend><input name=\"b\" value=\"2\"></fieldset></form>
4|1 enabled|<form><fieldset disabled><legend><input name=\"a\" value=\"1\"></legend><input name=\"b\" value=\"2\"></fieldset></form>
5|1 disabled|<form><fieldset disabled><legend><input name=\"a\" value=\"1\"></legend><input name=\"b\" value=\"2\"></fieldset></form>
4|0 disabled|<fieldset disabled><legend></legend><legend><input></legend></fieldset>
4|0 disabled|<fieldset disabled><p><legend><input></legend></p></fieldset>
4|0 enabled|<fieldset disabled><input><legend><input></legend></fieldset>
4|0 enabled|<fieldset disabled><legend><fieldset><input></fieldset></legend></fieldset>
4|0 disabled|<fieldset disabled><legend><fieldset disabled><input></fieldset></legend></fieldset>
4|0 disabled|<fieldset disabled><fieldset><legend><input></legend></fieldset></fieldset>
1|0 disabled|<button disabled></button>
1|0 enabled|<fieldset disabled></fieldset>";

fn told(alloc: Global, owners: &Owners, key: Key) -> Result<String, AllocError> {
    let word = if owners.disabled(key) {
        "disabled"
    } else {
        "enabled"
    };
    format!(in alloc; "{} {word}", number(owners.owner(key)))
}

// What the owners of a page and their copy, which has to be equal, say of an element.
fn answer(alloc: Global, page: &str, key: Key) -> Result<String, AllocError> {
    let Some(tree) = tree_of(alloc, page) else {
        return String::from_str(alloc, "no page");
    };
    let owners = Owners::build(alloc, &tree)?;
    let copied = owners.copy()?;
    let answer = told(alloc, &owners, key)?;
    let same = told(alloc, &copied, key)?;
    if answer.as_str() == same.as_str() {
        Ok(answer)
    } else {
        String::from_str(alloc, "another copy")
    }
}

// The first row that does not hold, and what is answered; an empty text where all hold.
fn first_wrong(alloc: Global, rows: &str) -> Result<String, AllocError> {
    for row in rows.lines() {
        let (key, rest) = row.split_once('|').unwrap_or((row, ""));
        let (want, page) = rest.split_once('|').unwrap_or((rest, ""));
        let answer = answer(alloc, page, key_of(key))?;
        if answer.as_str() != want {
            return format!(in alloc; "{row}: {}", answer.as_str());
        }
    }
    Ok(String::new(alloc))
}

#[test]
fn owners_and_disabled_controls(rt: HostRuntime) -> Result<(), Fail> {
    assert_eq!(rt; first_wrong(rt.alloc(), ANSWERS)?.as_str(), "");
    Ok(())
}

const TWO_FORMS: &str =
    "<form id=\"a\"><input name=\"g\"></form><form id=\"b\"></form><input form=\"c\">";

// The owners of the two inputs.
fn of_inputs(alloc: Global, owners: &Owners) -> Result<String, AllocError> {
    format!(in alloc;
        "{} {}",
        number(owners.owner(Key(2))),
        number(owners.owner(Key(4)))
    )
}

// Each move as its key, the owner that was and the one that becomes.
fn listed(alloc: Global, moves: &[Move]) -> Result<String, AllocError> {
    let mut all = String::new(alloc);
    for one in moves {
        let text = format!(in alloc;
            "{} {} {};",
            one.key.0,
            number(one.was),
            number(one.becomes)
        )?;
        all.push_str(text.as_str())?;
    }
    Ok(all)
}

// The owners of the inputs, what an ID of the first form moves, and the owners of the inputs, and those
// of a copy, once it has that ID.
fn renamed(alloc: Global, tree: &mut Tree, id: &str) -> Result<String, AllocError> {
    let mut owners = Owners::build(alloc, tree)?;
    let before = of_inputs(alloc, &owners)?;
    if tree.place(Key(1)).is_none() {
        return String::from_str(alloc, "no form");
    }
    let moves = listed(alloc, &owners.moves(tree, Key(1), "id", Some(id))?)?;
    tree.set_attr(Key(1), "id", Some(String::from_str(alloc, id)?))?;
    owners.after_attr(tree, Key(1), "id")?;
    let behind = of_inputs(alloc, &owners)?;
    let copied = of_inputs(alloc, &owners.copy()?)?;
    format!(in alloc; "{before}|{moves}|{behind}|{copied}")
}

#[test]
fn owners_follow_an_attribute(rt: HostRuntime) -> Result<(), Fail> {
    let mut tree = tree_of(rt.alloc(), TWO_FORMS).ok_or("no page")?;
    let answer = renamed(rt.alloc(), &mut tree, "c")?;
    assert_eq!(rt; answer.as_str(), "1 0|4 0 1;|1 1|1 1");
    Ok(())
}
