// A change of `checked`, or of an attribute that says the group of a radio button: `name`, `id` and
// `form`.
ghost use Rattle.std.specs.Prelude.{◌≡◌, ◌&&◌, IfOk, is_some};
ghost use Rattle.std.specs.Option.{option_copied};
ghost use Rattle.form_tree.specs.Elements.{passes};
ghost use Rattle.form_tree.specs.Tree.{with_node};
ghost use Rattle.form_owner.specs.Owners.{moves_of};
ghost use Rattle.form_changes.specs.declared.role.Role.TheVariants as roles;
ghost use Rattle.form_acts.specs.Acts.{after_change};
ghost use Rattle.form_changes.specs.Changing.{changed_attr, follows_checked, role_of};
ghost use Rattle.form_drafts.specs.Drafts.{draft_of};

use crate::attributes::set_attr;
use form_changes::{follows_checked, with_checked};
use form_drafts::{Draft, take_moved_radios, take_new_radio, take_radio};
use form_owner::Move;
use form_page::Page;
use form_text::Text;
use form_tree::{Key, Tree};
use std::alloc::{AllocError, Global};

/// An input that the attribute checks is taken as a radio button.
pub fn change_checked<'a>(
    alloc: Global,
    page: &'a Page,
    key: Key,
    name: &Text,
    value: &Option<Text>,
) -> Result<Draft<'a>, AllocError>
    requires { role_of name.now ≡ roles.Checked }
    ensures { IfOk result (λ draft.
        draft ≡ draft_of page.now (after_change roles.Checked page.now.tree.nodes key name.now value.now)) }
{
    let mut draft = set_checked(alloc, page, key, name, value)?;
    if !checks(page.tree(), key, value) {
        return Ok(draft);
    }
    take_radio(alloc, &mut draft, key)?;
    Ok(draft)
}

// The attribute, and the checkedness that follows it.
fn set_checked<'a>(
    alloc: Global,
    page: &'a Page,
    key: Key,
    name: &Text,
    value: &Option<Text>,
) -> Result<Draft<'a>, AllocError>
    ensures { IfOk result (λ draft. draft ≡ draft_of page.now
        (with_node page.now.tree.nodes key (changed_attr roles.Checked name.now value.now))) }
{
    let mut draft = set_attr(alloc, page, key, name, value)?;
    let Some(node) = page.tree().node(key) else {
        return Ok(draft);
    };
    let there = value.is_some();
    if !follows_checked(node, there) {
        return Ok(draft);
    }
    let state = with_checked(node, there)?;
    draft.put(key, state)?;
    Ok(draft)
}

// Whether the change checks the input.
fn checks(tree: &Tree, key: Key, value: &Option<Text>) -> bool
    ensures { result ≡ (passes (follows_checked (is_some value.now)) tree.now.nodes key && is_some value.now) }
{
    follows_checked_at(tree, key, value) && value.is_some()
}

fn follows_checked_at(tree: &Tree, key: Key, value: &Option<Text>) -> bool
    ensures { result ≡ passes (follows_checked (is_some value.now)) tree.now.nodes key }
{
    match tree.node(key) {
        Some(node) => follows_checked(node, value.is_some()),
        None => false,
    }
}

/// The element comes to the group of its new name.
pub fn change_name<'a>(
    alloc: Global,
    page: &'a Page,
    key: Key,
    name: &Text,
    value: &Option<Text>,
) -> Result<Draft<'a>, AllocError>
    requires { role_of name.now ≡ roles.Name }
    ensures { IfOk result (λ draft.
        draft ≡ draft_of page.now (after_change roles.Name page.now.tree.nodes key name.now value.now)) }
{
    let mut named = set_attr(alloc, page, key, name, value)?;
    take_new_radio(alloc, &mut named, key)?;
    Ok(named)
}

/// All owners change, and then the inputs that moved are taken in tree order.
pub fn change_owner<'a>(
    alloc: Global,
    page: &'a Page,
    key: Key,
    name: &Text,
    value: &Option<Text>,
) -> Result<Draft<'a>, AllocError>
    ensures { IfOk result (λ draft.
        draft ≡ draft_of page.now (after_change roles.Owner page.now.tree.nodes key name.now value.now)) }
{
    let mut draft = set_attr(alloc, page, key, name, value)?;
    let moves = moves_of(alloc, page, key, name, value)?;
    take_moved_radios(alloc, &mut draft, &moves)?;
    Ok(draft)
}

// The elements whose owner the change moves; none where there is no element of the key.
fn moves_of(
    alloc: Global,
    page: &Page,
    key: Key,
    name: &Text,
    value: &Option<Text>,
) -> Result<Vec<Move>, AllocError>
    ensures { IfOk result (λ moves. moves.items ≡ moves_of page.now.tree.nodes key name.now value.now) }
{
    if page.tree().place(key).is_none() {
        return Ok(Vec::new(alloc));
    }
    page.moves(key, name.as_str(), lent(value))
}

fn lent(value: &Option<Text>) -> Option<&str>
    ensures { option_copied result ≡ value.now }
{
    match value {
        Some(value) => Some(value.as_str()),
        None => None,
    }
}
