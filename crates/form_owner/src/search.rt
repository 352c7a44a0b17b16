// What a tree says of an element, and the first elements that pass a test.
ghost use Rattle.std.specs.Prelude.{◌≡◌, ◌&&◌, ℕ, codes, find, not};
ghost use Rattle.std.specs.Option.{option_and_then, option_map};
ghost use Rattle.form_tree.specs.Disabling.{first_legend, is_first_legend};
ghost use Rattle.form_tree.specs.Elements.{has_attr, is_child_of, is_fieldset, is_form, is_legend, is_listed, is_submittable, passes};
ghost use Rattle.form_tree.specs.Ownership.{form_with_id, has_id, key_if_form};
ghost use Rattle.form_tree.specs.Tree.{IsTree, at_key};

use form_tree::{Key, Tree};

pub fn is_form(tree: &Tree, key: Key) -> bool
    ensures { result ≡ passes is_form tree.now.nodes key }
{
    match tree.tag(key) {
        Some(tag) => tag.is_form(),
        None => false,
    }
}

pub fn is_fieldset(tree: &Tree, key: Key) -> bool
    ensures { result ≡ passes is_fieldset tree.now.nodes key }
{
    match tree.tag(key) {
        Some(tag) => tag.is_fieldset(),
        None => false,
    }
}

pub fn is_legend(tree: &Tree, key: Key) -> bool
    ensures { result ≡ passes is_legend tree.now.nodes key }
{
    match tree.tag(key) {
        Some(tag) => tag.is_legend(),
        None => false,
    }
}

pub fn is_listed(tree: &Tree, key: Key) -> bool
    ensures { result ≡ passes is_listed tree.now.nodes key }
{
    match tree.tag(key) {
        Some(tag) => tag.is_listed(),
        None => false,
    }
}

pub fn is_submittable(tree: &Tree, key: Key) -> bool
    ensures { result ≡ passes is_submittable tree.now.nodes key }
{
    match tree.tag(key) {
        Some(tag) => tag.is_submittable(),
        None => false,
    }
}

#[tactic(auto, using(form_tree::proofs::Laws::attr_passes))]
pub fn has_attr(tree: &Tree, key: Key, name: &str) -> bool
    ensures { result ≡ passes (has_attr name.now) tree.now.nodes key }
{
    tree.attr(key, name).is_some()
}

// Whether the element is a child of the one of a key.
fn is_child_of(tree: &Tree, key: Key, up: Key) -> bool
    ensures { result ≡ passes (is_child_of up) tree.now.nodes key }
{
    match tree.parent(key) {
        Some(parent) => up.0 == parent.0,
        None => false,
    }
}

fn is_legend_in(tree: &Tree, key: Key, fieldset: Key) -> bool
    ensures { result ≡ passes (λ n. is_legend n && is_child_of fieldset n) tree.now.nodes key }
{
    is_legend(tree, key) && is_child_of(tree, key, fieldset)
}

/// The first legend that is a child of the element.
fn first_legend(tree: &Tree, fieldset: Key) -> Option<Key>
    ensures { result ≡ first_legend tree.now.nodes fieldset }
{
    for place in 0..tree.len() {
        if let Some(key) = tree.key_at(place) {
            if is_legend_in(tree, key, fieldset) {
                return Some(key);
            }
        }
    }
    None
}

/// Whether the element is that legend.
pub fn is_first_legend(tree: &Tree, fieldset: Key, key: Key) -> bool
    ensures { result ≡ is_first_legend tree.now.nodes fieldset key }
{
    if !is_legend(tree, key) {
        return false;
    }
    match first_legend(tree, fieldset) {
        Some(first) => key.0 == first.0,
        None => false,
    }
}

// Whether the element's ID is this text.
fn has_id(tree: &Tree, key: Key, text: &str) -> bool
    ensures { result ≡ passes (has_id text.now) tree.now.nodes key }
{
    match tree.attr(key, "id") {
        Some(id) => !text.is_empty() && id == text,
        None => false,
    }
}

/// The first element with that ID, where it is a form.
pub fn form_with_id(tree: &Tree, text: &str) -> Option<Key>
    ensures { result ≡ form_with_id tree.now.nodes text.now }
{
    for place in 0..tree.len() {
        if let Some(key) = tree.key_at(place) {
            if has_id(tree, key, text) {
                return if_form(tree, key);
            }
        }
    }
    None
}

fn if_form(tree: &Tree, key: Key) -> Option<Key>
    ensures { result ≡ option_and_then key_if_form (at_key tree.now.nodes key) }
{
    if is_form(tree, key) { Some(key) } else { None }
}
