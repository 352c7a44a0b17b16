// What the element of a key is, and the select of an option.
ghost use Rattle.std.specs.Prelude.{◌≡◌, false};
ghost use Rattle.std.specs.Option.{option_map_or};
ghost use Rattle.form_tree.specs.Elements.{is_option, is_select, passes};
ghost use Rattle.form_tree.specs.RadioGroup.{is_radio};
ghost use Rattle.form_tree.specs.Selects.{is_disabled_optgroup, is_disabled_option, is_multiple, select_of};

use crate::draft::Draft;
use form_changes::is_input;
use form_judge::kind_of;
use form_tree::{Key, Node, Tree};
use form_types::Kind;

/// Whether it is a radio button.
pub fn is_radio(node: &Node) -> bool
    ensures { result ≡ is_radio node.now }
{
    is_input(node) && matches!(kind_of(node), Kind::Radio)
}

/// Whether the element of a key is there and an option.
pub fn is_option_at(tree: &Tree, key: Key) -> bool
    ensures { result ≡ passes is_option tree.now.nodes key }
{
    match tree.tag(key) {
        Some(tag) => tag.is_option(),
        None => false,
    }
}

/// Whether the element of a key is there so far and a select.
pub fn is_select_at(draft: &Draft<'_>, key: Key) -> bool
    ensures { result ≡ passes is_select draft.now.nodes key }
{
    match draft.node(key) {
        Some(node) => node.tag.is_select(),
        None => false,
    }
}

/// The select that an option belongs to; None for every other element.
pub fn select_of(tree: &Tree, key: Key) -> Option<Key>
    ensures { result ≡ select_of tree.now.nodes key }
{
    if !is_option_at(tree, key) {
        return None;
    }
    form_select::select_of(tree, key)
}

/// Whether the element of a key has a `multiple` attribute.
pub fn is_multiple(tree: &Tree, key: Key) -> bool
    ensures { result ≡ is_multiple tree.now.nodes key }
{
    match tree.node(key) {
        Some(node) => node.has_attr("multiple"),
        None => false,
    }
}

/// Whether an option is disabled, by its own attribute or by that of an optgroup whose child it is.
pub fn is_disabled_option(tree: &Tree, node: &Node) -> bool
    ensures { result ≡ is_disabled_option tree.now.nodes node.now }
{
    node.has_attr("disabled") || is_in_disabled(tree, node.parent)
}

fn is_in_disabled(tree: &Tree, up: Option<Key>) -> bool
    ensures { result ≡ option_map_or (passes is_disabled_optgroup tree.now.nodes) up false }
{
    match up {
        Some(up) => is_disabled_optgroup_at(tree, up),
        None => false,
    }
}

fn is_disabled_optgroup_at(tree: &Tree, key: Key) -> bool
    ensures { result ≡ passes is_disabled_optgroup tree.now.nodes key }
{
    match tree.node(key) {
        Some(node) => is_disabled_optgroup(node),
        None => false,
    }
}

/// Whether it is an optgroup that is disabled.
pub fn is_disabled_optgroup(node: &Node) -> bool
    ensures { result ≡ is_disabled_optgroup node.now }
{
    node.tag.is_optgroup() && node.has_attr("disabled")
}
