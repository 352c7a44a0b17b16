// What is kept of an element.
ghost use Rattle.std.specs.Prelude.{◌≡◌, ◌<◌, ◌^◌, ℕ, None, Some, if◌then◌else◌, length, take, IfOk};
ghost use Rattle.std.specs.Option.{option_and_then, option_copied, option_map};
ghost use Rattle.form_tree.specs.Disabling.{disabling_count, disables_through, is_disabled};
ghost use Rattle.form_tree.specs.Elements.{is_empty_text, passes};
ghost use Rattle.form_tree.specs.Ownership.{id_of, nearest_form, owner_of};
ghost use Rattle.form_tree.specs.Tree.{IsTree, at_key, key_at, parent_of};
ghost use Rattle.form_owner.specs.Owners.{answer_for, owners_of};

use crate::search::{
    form_with_id, has_attr, is_fieldset, is_first_legend, is_form, is_listed, is_submittable,
};
use form_text::Text;
use form_tree::{Key, Tree};
use std::alloc::{AllocError, Global};

/// What is kept of an element: its ID, the nearest form around it, its form owner, how many
/// fieldsets disable it, and whether it is a disabled control.
#[derive(Clone, Debug, Drop)]
pub struct Answer {
    pub key: Key,
    pub id: Option<Text>,
    pub ancestor_form: Option<Key>,
    pub owner: Option<Key>,
    pub disabling: usize,
    pub disabled: bool,
}

/// What is to be kept of an element, where that of all elements before it is known.
pub fn answer_at(
    alloc: Global,
    tree: &Tree,
    known: &[Answer],
    key: Key,
) -> Result<Answer, AllocError>
    requires tree { IsTree tree.now.nodes }
    requires few { length tree.now.nodes < 2 ^ 64 }
    requires known { (place : ℕ) × (known.now ≡ take place (owners_of tree.now.nodes))
        × (Some key ≡ key_at tree.now.nodes place) }
    ensures { IfOk result (λ answer. Some answer ≡ option_map (answer_for tree.now.nodes) (at_key tree.now.nodes key)) }
{
    let up = parent_answer(tree, known, key);
    let ancestor_form = form_above(tree, up, key);
    let disabling = disabling_above(tree, up, key);
    Ok(Answer {
        key,
        id: id_at(alloc, tree, key)?,
        ancestor_form,
        owner: owner_at(tree, key, ancestor_form),
        disabling,
        disabled: is_disabled(tree, key, disabling),
    })
}

// What is known of the element's parent.
fn parent_answer<'a>(tree: &Tree, known: &'a [Answer], key: Key) -> Option<&'a Answer>
    requires tree { IsTree tree.now.nodes }
    requires known { (place : ℕ) × (known.now ≡ take place (owners_of tree.now.nodes))
        × (Some key ≡ key_at tree.now.nodes place) }
    ensures { option_copied result ≡ option_map (answer_for tree.now.nodes)
        (option_and_then (at_key tree.now.nodes) (parent_of tree.now.nodes key)) }
{
    let Some(parent) = tree.parent(key) else {
        return None;
    };
    match tree.place(parent) {
        Some(place) => known.get(place),
        None => None,
    }
}

// The nearest form around an element, by what is known of its parent.
fn form_above(tree: &Tree, up: Option<&Answer>, key: Key) -> Option<Key>
    requires tree { IsTree tree.now.nodes }
    requires up { option_copied up ≡ option_map (answer_for tree.now.nodes)
        (option_and_then (at_key tree.now.nodes) (parent_of tree.now.nodes key)) }
    ensures { result ≡ nearest_form tree.now.nodes key }
{
    match up {
        Some(up) => if is_form(tree, up.key) {
            Some(up.key)
        } else {
            up.ancestor_form
        },
        None => None,
    }
}

// How many fieldsets disable an element, by what is known of its parent.
fn disabling_above(tree: &Tree, up: Option<&Answer>, key: Key) -> usize
    requires tree { IsTree tree.now.nodes }
    requires few { length tree.now.nodes < 2 ^ 64 }
    requires up { option_copied up ≡ option_map (answer_for tree.now.nodes)
        (option_and_then (at_key tree.now.nodes) (parent_of tree.now.nodes key)) }
    ensures { result ≡ disabling_count tree.now.nodes key }
{
    match up {
        Some(up) => if disables_through(tree, key, up.key) {
            up.disabling + 1
        } else {
            up.disabling
        },
        None => 0,
    }
}

// Whether it is a fieldset that disables what is reached through this child of it.
#[tactic(auto, using(crate::proofs::OwnerLaws::disables_parts))]
fn disables_through(tree: &Tree, child: Key, fieldset: Key) -> bool
    ensures { result ≡ passes (disables_through tree.now.nodes child) tree.now.nodes fieldset }
{
    if !is_fieldset(tree, fieldset) {
        return false;
    }
    if !has_attr(tree, fieldset, "disabled") {
        return false;
    }
    !is_first_legend(tree, fieldset, child)
}

// Whether it is a disabled control, that many fieldsets disabling it.
fn is_disabled(tree: &Tree, key: Key, disabling: usize) -> bool
    requires { disabling ≡ disabling_count tree.now.nodes key }
    ensures { result ≡ is_disabled tree.now.nodes key }
{
    is_submittable(tree, key) && (has_attr(tree, key, "disabled") || 0 < disabling)
}

// The form owner, where the nearest form around the element is this.
fn owner_at(tree: &Tree, key: Key, ancestor_form: Option<Key>) -> Option<Key>
    requires { ancestor_form ≡ nearest_form tree.now.nodes key }
    ensures { result ≡ owner_of tree.now.nodes key }
{
    if !is_listed(tree, key) {
        return None;
    }
    match tree.attr(key, "form") {
        Some(text) => form_with_id(tree, text),
        None => ancestor_form,
    }
}

// The element's ID.
fn id_at(alloc: Global, tree: &Tree, key: Key) -> Result<Option<Text>, AllocError>
    ensures { IfOk result (λ id. id ≡ option_and_then id_of (at_key tree.now.nodes key)) }
{
    match tree.attr(key, "id") {
        Some(id) => filled(alloc, id),
        None => Ok(None),
    }
}

// The text, where it is not empty.
fn filled(alloc: Global, text: &str) -> Result<Option<Text>, AllocError>
    ensures { IfOk result (λ filled. filled ≡ (if is_empty_text text.now then None else Some text.now)) }
{
    if text.is_empty() {
        return Ok(None);
    }
    Ok(Some(Text::from_string(String::from_str(alloc, text)?)))
}
