// Radio button groups: what each change leaves of them.
ghost use Rattle.std.specs.Prelude.{◌≡◌, ◌≤◌, IfSome};
ghost use Rattle.form_tree.specs.Elements.{is_among};
ghost use Rattle.form_groups.specs.Groups.{IsGroup, group_of, keys_of};

use form_groups::Groups;
use form_tree::Key;
use std::alloc::{AllocError, Global};
use std::test::Fail;

// A change of a key of the group `g` of a form, with the marks that it has from then on; and then
// whether the group lacks a choice, the number of the chosen one (0 for none) and the members. The first
// two are those of `<form><input type="radio" name="g"><input type="radio" name="g" required></form>`.
const CHANGES: [&str; 10] = [
    "enter 2|enough 0 2",
    "enter 3 required|missing 0 23",
    "enter 5 checked|enough 5 235",
    "mark 2 checked|enough 2 235",
    "leave 5|enough 2 23",
    "mark 2|missing 0 23",
    "leave 3|enough 0 2",
    "enter 3 checked|enough 3 23",
    "leave 2|enough 3 3",
    "leave 3|enough 0 0",
];

// A group, by its owner's number (0 for none) and its name, a change of a key, and then the members of
// the groups `g` of no owner, `g` of the first form, `g` of the second and `G` of the first.
const APART: [&str; 8] = [
    "1|g|enter 3 required checked|0 3 0 0",
    "0|g|enter 4 required checked|4 3 0 0",
    "1|G|enter 5 required checked|4 3 0 5",
    "2|g|enter 6 required checked|4 3 6 5",
    "1|g|enter 4 required checked|4 34 6 5",
    "1|g|leave 3|4 4 6 5",
    "0|g|leave 4|0 4 6 5",
    "1|G|mark 5 required checked|0 4 6 5",
];

// Whether a key is a member of a group.
fn is_member(groups: &Groups, owner: Option<Key>, name: &str, key: Key) -> bool
    requires { IsGroup owner name.now }
    ensures { result ≡ is_among (keys_of (group_of groups.now owner name.now)) key }
{
    is_listed(groups.members(owner, name), key)
}

fn is_listed(keys: &[Key], key: Key) -> bool
    ensures { result ≡ is_among keys.now key }
{
    keys.iter().any(|known| key.0 == known.0)
}

// The key, and 0 where the text is no number.
fn key_of(number: &str) -> Key {
    Key(number.parse::<u32>().unwrap_or(0))
}

// An owner by its number, 0 for none.
fn owner_of(number: &str) -> Option<Key>
    ensures { IfSome result (λ k. 1 ≤ k.0) }
{
    let key = key_of(number);
    if key.0 == 0 { None } else { Some(key) }
}

// Makes the change that the words say; it is made where the key that enters is no member, or the one
// that leaves or is marked is one.
fn change(
    groups: &mut Groups,
    owner: Option<Key>,
    name: &str,
    words: &str,
) -> Result<bool, AllocError>
    requires { IsGroup owner name.now }
{
    let (step, rest) = words.split_once(' ').unwrap_or((words, ""));
    let (number, marks) = rest.split_once(' ').unwrap_or((rest, ""));
    let (required, checked) = (marks.contains("required"), marks.contains("checked"));
    let key = key_of(number);
    if !is_member(groups, owner, name, key) {
        if step == "enter" {
            groups.enter(owner, name, key, required, checked)?;
        }
        return Ok(step == "enter");
    }
    match step {
        "leave" => groups.leave(owner, name, key),
        "mark" => groups.mark(owner, name, key, required, checked),
        _ => return Ok(false),
    }
    Ok(true)
}

// The numbers of the members, each below 10, as the digits of one number.
fn members(groups: &Groups, owner: Option<Key>, name: &str) -> u32
    requires { IsGroup owner name.now }
{
    let mut digits: u32 = 0;
    for key in groups.members(owner, name) {
        digits = digits.wrapping_mul(10).wrapping_add(key.0);
    }
    digits
}

fn chosen(groups: &Groups, owner: Option<Key>, name: &str) -> u32
    requires { IsGroup owner name.now }
{
    match groups.chosen(owner, name) {
        Some(key) => key.0,
        None => 0,
    }
}

// Whether the group lacks a choice, the number of the chosen one and the members.
fn seen(
    alloc: Global,
    groups: &Groups,
    owner: Option<Key>,
    name: &str,
) -> Result<String, AllocError>
    requires { IsGroup owner name.now }
{
    let choice = if groups.missing(owner, name) {
        "missing"
    } else {
        "enough"
    };
    let chosen = chosen(groups, owner, name);
    let members = members(groups, owner, name);
    format!(in alloc; "{choice} {chosen} {members}")
}

#[test]
fn each_change_of_a_group(rt: HostRuntime) -> Result<(), Fail> {
    let mut groups = Groups::new(rt.alloc());
    let form = Some(Key(1));
    for row in CHANGES {
        let (words, want) = row.split_once('|').ok_or("no change")?;
        assert!(rt; change(&mut groups, form, "g", words)?, "{row}");
        assert_eq!(rt;
            (row, seen(rt.alloc(), &groups, form, "g")?.as_str()),
            (row, want)
        );
    }
    Ok(())
}

// The members of the four groups.
fn all_members(alloc: Global, groups: &Groups) -> Result<String, AllocError> {
    let free = members(groups, None, "g");
    let first = members(groups, Some(Key(1)), "g");
    let second = members(groups, Some(Key(2)), "g");
    let upper = members(groups, Some(Key(1)), "G");
    format!(in alloc; "{free} {first} {second} {upper}")
}

// Makes the change of the group of that name, where it is a name.
fn change_named(
    groups: &mut Groups,
    number: &str,
    name: &str,
    words: &str,
) -> Result<bool, AllocError> {
    if name.is_empty() {
        return Ok(false);
    }
    change(groups, owner_of(number), name, words)
}

#[test]
fn groups_stand_apart(rt: HostRuntime) -> Result<(), Fail> {
    let mut groups = Groups::new(rt.alloc());
    for row in APART {
        let (number, rest) = row.split_once('|').ok_or("no owner")?;
        let (name, rest) = rest.split_once('|').ok_or("no name")?;
        let (words, want) = rest.split_once('|').ok_or("no change")?;
        assert!(rt; change_named(&mut groups, number, name, words)?, "{row}");
        assert_eq!(rt;
            (row, all_members(rt.alloc(), &groups)?.as_str()),
            (row, want)
        );
    }
    assert_eq!(rt; chosen(&groups, None, "g"), 0);
    assert_eq!(rt; chosen(&groups, Some(Key(1)), "G"), 5);
    Ok(())
}
