// What a tree says of an element.
ghost use Rattle.std.specs.Prelude.{◌≡◌};
ghost use Rattle.form_tree.specs.Elements.{has_attr, is_child_of, is_optgroup, is_option, is_select, passes};

use form_tree::{Key, Tree};

pub fn is_option(tree: &Tree, key: Key) -> bool
    ensures { result ≡ passes is_option tree.now.nodes key }
{
    match tree.tag(key) {
        Some(tag) => tag.is_option(),
        None => false,
    }
}

pub fn is_optgroup(tree: &Tree, key: Key) -> bool
    ensures { result ≡ passes is_optgroup tree.now.nodes key }
{
    match tree.tag(key) {
        Some(tag) => tag.is_optgroup(),
        None => false,
    }
}

pub fn is_select(tree: &Tree, key: Key) -> bool
    ensures { result ≡ passes is_select tree.now.nodes key }
{
    match tree.tag(key) {
        Some(tag) => tag.is_select(),
        None => false,
    }
}

#[tactic(auto, using(form_tree::proofs::Laws::attr_passes))]
pub fn has_attr(tree: &Tree, key: Key, name: &str) -> bool
    ensures { result ≡ passes (has_attr name.now) tree.now.nodes key }
{
    tree.attr(key, name).is_some()
}

// Whether the element is a child of the one of a key.
pub fn is_child_of(tree: &Tree, key: Key, up: Key) -> bool
    ensures { result ≡ passes (is_child_of up) tree.now.nodes key }
{
    match tree.parent(key) {
        Some(parent) => up.0 == parent.0,
        None => false,
    }
}
