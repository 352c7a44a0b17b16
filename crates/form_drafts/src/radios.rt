// The radio buttons after a change of checkedness, of a group or of an owner (HTML, "Radio Button
// state").
ghost use Rattle.std.specs.Prelude.{◌≡◌, ◌++◌, IfOk, OnOk, filter};
ghost use Rattle.form_tree.specs.Elements.{passes, same_owner};
ghost use Rattle.form_tree.specs.Ownership.{owner_of};
ghost use Rattle.form_tree.specs.RadioGroup.{is_checked, is_radio, name_of, same_name, share_group};
ghost use Rattle.form_tree.specs.Tree.{with_node};
ghost use Rattle.form_owner.specs.Owners.{moves_between};
ghost use Rattle.form_page.specs.Settling.{moved_inputs, off, with_radio, with_radios};
ghost use Rattle.form_drafts.specs.Drafts.{AreLikeBut, AreOwnedBy, HaveGroupsOf, HaveOwnersOf, keys_but, with_each};
ghost use Rattle.form_drafts.specs.Joined.{AreOthers, IsJoined, NoneMovedBut, is_other, named_alike};

use crate::draft::Draft;
use crate::elements::is_radio;
use crate::owners::{inputs_of, moved_of, owner_of};
use form_changes::with_checked;
use form_owner::Move;
use form_tree::{Key, Node};
use std::alloc::{AllocError, Global};
use std::collections::BTreeMap;

/// A radio button that is checked unchecks all others of its group, which is that of the page: no
/// group has changed.
pub fn take_radio(alloc: Global, draft: &mut Draft<'_>, key: Key) -> Result<(), AllocError>
    requires { HaveGroupsOf draft.old.nodes draft.old.page.tree.nodes }
    ensures { OnOk result (draft.new ≡ record draft.old { nodes = with_radio draft.old.nodes key }) }
{
    if !is_checked_at(draft, key) {
        return Ok(());
    }
    let others = others_of(alloc, draft.page().members(key), key)?;
    uncheck_all(draft, &others)
}

/// The same for a radio button that may have come to another group, where no owner has changed.
pub fn take_new_radio(alloc: Global, draft: &mut Draft<'_>, key: Key) -> Result<(), AllocError>
    requires { HaveOwnersOf draft.old.nodes draft.old.page.tree.nodes }
    ensures { OnOk result (draft.new ≡ record draft.old { nodes = with_radio draft.old.nodes key }) }
{
    let moved = BTreeMap::new(alloc);
    let joined = draft.renamed()?;
    take_owned_radio(alloc, draft, &moved, &joined, key)
}

/// The same for each input among the elements that moved, in tree order.
pub fn take_moved_radios(
    alloc: Global,
    draft: &mut Draft<'_>,
    moves: &[Move],
) -> Result<(), AllocError>
    requires { moves.now ≡ moves_between draft.old.page.tree.nodes draft.old.nodes }
    ensures { OnOk result (draft.new ≡ record draft.old {
      nodes = with_radios draft.old.nodes (moved_inputs draft.old.page.tree.nodes draft.old.nodes);
    }) }
{
    let tree = draft.page().tree();
    tree.len();
    let moved = moved_of(alloc, moves)?;
    let joined = joined(draft, moves)?;
    let keys = inputs_of(alloc, tree, moves)?;
    take_radios(alloc, draft, &moved, &joined, &keys)
}

// The elements that may have come to another group: those whose attributes have changed, and those that
// moved.
fn joined(draft: &Draft<'_>, moves: &[Move]) -> Result<Vec<Key>, AllocError>
    ensures { IfOk result (λ keys. IsJoined draft.now moves.now keys.items) }
{
    let mut keys = draft.renamed()?;
    for change in moves {
        keys.push(change.key)?;
    }
    Ok(keys)
}

// The same for each of these keys in order, by the owners that elements have come to.
fn take_radios(
    alloc: Global,
    draft: &mut Draft<'_>,
    moved: &BTreeMap<u32, Option<Key>>,
    joined: &[Key],
    keys: &[Key],
) -> Result<(), AllocError>
    requires owners { AreOwnedBy draft.old.nodes draft.old.page.tree.nodes moved.now }
    requires like { AreLikeBut draft.old.nodes draft.old.page.tree.nodes joined.now }
    requires moved { NoneMovedBut moved.now joined.now }
    ensures { OnOk result (draft.new ≡ record draft.old { nodes = with_radios draft.old.nodes keys.now }) }
{
    for key in keys {
        take_owned_radio(alloc, draft, moved, joined, *key)?;
    }
    Ok(())
}

// The others of its group are among those of the page's group of its owner and its name, and among
// those that may have come to it.
fn take_owned_radio(
    alloc: Global,
    draft: &mut Draft<'_>,
    moved: &BTreeMap<u32, Option<Key>>,
    joined: &[Key],
    key: Key,
) -> Result<(), AllocError>
    requires owners { AreOwnedBy draft.old.nodes draft.old.page.tree.nodes moved.now }
    requires like { AreLikeBut draft.old.nodes draft.old.page.tree.nodes joined.now }
    requires moved { NoneMovedBut moved.now joined.now }
    ensures { OnOk result (draft.new ≡ record draft.old { nodes = with_radio draft.old.nodes key }) }
{
    if !is_checked_at(draft, key) {
        return Ok(());
    }
    let others = others_so_far(alloc, draft, moved, joined, key)?;
    uncheck_all(draft, &others)
}

fn is_checked_at(draft: &Draft<'_>, key: Key) -> bool
    ensures { result ≡ passes is_checked draft.now.nodes key }
{
    match draft.node(key) {
        Some(node) => node.state.checked,
        None => false,
    }
}

/// These keys but one.
pub fn others_of(alloc: Global, keys: &[Key], key: Key) -> Result<Vec<Key>, AllocError>
    ensures { IfOk result (λ others. others.items ≡ keys_but key keys.now) }
{
    let mut others = Vec::new(alloc);
    for other in keys {
        if key.0 != other.0 {
            others.push(*other)?;
        }
    }
    Ok(others)
}

fn uncheck_all(draft: &mut Draft<'_>, keys: &[Key]) -> Result<(), AllocError>
    ensures { OnOk result (draft.new ≡ record draft.old { nodes = with_each off draft.old.nodes keys.now }) }
{
    for key in keys {
        uncheck(draft, *key)?;
    }
    Ok(())
}

fn uncheck(draft: &mut Draft<'_>, key: Key) -> Result<(), AllocError>
    ensures { OnOk result (draft.new ≡ record draft.old { nodes = with_node draft.old.nodes key off }) }
{
    let Some(node) = draft.node(key) else {
        return Ok(());
    };
    if !node.state.checked {
        return Ok(());
    }
    let state = with_checked(node, false)?;
    draft.put(key, state)
}

// The other members of the radio button group of an element so far, in any order.
fn others_so_far(
    alloc: Global,
    draft: &Draft<'_>,
    moved: &BTreeMap<u32, Option<Key>>,
    joined: &[Key],
    key: Key,
) -> Result<Vec<Key>, AllocError>
    requires owners { AreOwnedBy draft.now.nodes draft.now.page.tree.nodes moved.now }
    requires like { AreLikeBut draft.now.nodes draft.now.page.tree.nodes joined.now }
    requires moved { NoneMovedBut moved.now joined.now }
    ensures { IfOk result (λ others. AreOthers draft.now.nodes key others.items) }
{
    let mut others = Vec::new(alloc);
    push_others(
        draft,
        moved,
        key,
        named_alike(draft, moved, key),
        &mut others,
    )?;
    push_others(draft, moved, key, joined, &mut others)?;
    Ok(others)
}

// The members of the page's group of the owner and the name that an element has so far.
fn named_alike<'a>(draft: &Draft<'a>, moved: &BTreeMap<u32, Option<Key>>, key: Key) -> &'a [Key]
    requires owners { AreOwnedBy draft.now.nodes draft.now.page.tree.nodes moved.now }
    ensures { result.now ≡ named_alike draft.now key }
{
    let name = name_of(draft, key);
    if name.is_empty() {
        return &[];
    }
    let page = draft.page();
    page.radios(owner_of(page, moved, key), name)
}

// Those of these keys behind the others that share the element's group with it.
fn push_others(
    draft: &Draft<'_>,
    moved: &BTreeMap<u32, Option<Key>>,
    key: Key,
    keys: &[Key],
    others: &mut Vec<Key>,
) -> Result<(), AllocError>
    requires { AreOwnedBy draft.now.nodes draft.now.page.tree.nodes moved.now }
    ensures { OnOk result (others.new.items ≡ others.old.items ++ filter (is_other draft.now.nodes key) keys.now) }
{
    for other in keys {
        if share_group(draft, moved, key, *other) && key.0 != other.0 {
            others.push(*other)?;
        }
    }
    Ok(())
}

// Whether both are radio buttons of one group.
fn share_group(draft: &Draft<'_>, moved: &BTreeMap<u32, Option<Key>>, one: Key, other: Key) -> bool
    requires { AreOwnedBy draft.now.nodes draft.now.page.tree.nodes moved.now }
    ensures { result ≡ share_group draft.now.nodes one other }
{
    if !is_radio_at(draft, one) || !is_radio_at(draft, other) {
        return false;
    }
    one.0 == other.0 || (has_owner_of(draft, moved, one, other) && has_name_of(draft, one, other))
}

fn is_radio_at(draft: &Draft<'_>, key: Key) -> bool
    ensures { result ≡ passes is_radio draft.now.nodes key }
{
    match draft.node(key) {
        Some(node) => is_radio(node),
        None => false,
    }
}

fn has_owner_of(draft: &Draft<'_>, moved: &BTreeMap<u32, Option<Key>>, one: Key, other: Key) -> bool
    requires { AreOwnedBy draft.now.nodes draft.now.page.tree.nodes moved.now }
    ensures { result ≡ same_owner (owner_of draft.now.nodes one) (owner_of draft.now.nodes other) }
{
    same_owner(
        owner_of(draft.page(), moved, one),
        owner_of(draft.page(), moved, other),
    )
}

fn has_name_of(draft: &Draft<'_>, one: Key, other: Key) -> bool
    ensures { result ≡ same_name (name_of draft.now.nodes one) (name_of draft.now.nodes other) }
{
    same_name(name_of(draft, one), name_of(draft, other))
}

fn name_of<'b>(draft: &'b Draft<'_>, key: Key) -> &'b str
    ensures { result.now ≡ name_of draft.now.nodes key }
{
    match draft.attr(key, "name") {
        Some(name) => name,
        None => "",
    }
}

fn same_owner(one: Option<Key>, other: Option<Key>) -> bool
    ensures { result ≡ same_owner one other }
{
    match (one, other) {
        (None, None) => true,
        (Some(one), Some(other)) => one.0 == other.0,
        _ => false,
    }
}

fn same_name(one: &str, other: &str) -> bool
    ensures { result ≡ same_name one.now other.now }
{
    !one.is_empty() && one == other
}
