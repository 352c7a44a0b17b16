// Owners and radio button groups of a tree, by key.
ghost use Rattle.std.specs.Prelude.{◌≡◌, codes, unwrap_or};
ghost use Rattle.std.specs.Option.{option_map_or};
ghost use Rattle.form_tree.specs.Elements.{passes, same_key, same_owner};
ghost use Rattle.form_tree.specs.Disabling.{is_disabled};
ghost use Rattle.form_tree.specs.Ownership.{owner_of};
ghost use Rattle.form_tree.specs.RadioGroup.{is_radio, name_of, same_name, share_group};
ghost use Rattle.form_owner.specs.Owners.{owners_of};

use form_judge::{is_input, kind_of};
use form_owner::Answer;
use form_tree::{Key, Node, Tree};
use form_types::Kind;

/// The form owner of an element, by what is kept of each.
pub fn owner_of(tree: &Tree, answers: &[Answer], key: Key) -> Option<Key>
    requires { answers.now ≡ owners_of tree.now.nodes }
    ensures { result ≡ owner_of tree.now.nodes key }
{
    match tree.place(key) {
        Some(place) => answers[place].owner,
        None => None,
    }
}

/// Whether an element is a disabled control, by what is kept of each.
pub fn is_disabled(tree: &Tree, answers: &[Answer], key: Key) -> bool
    requires { answers.now ≡ owners_of tree.now.nodes }
    ensures { result ≡ is_disabled tree.now.nodes key }
{
    match tree.place(key) {
        Some(place) => answers[place].disabled,
        None => false,
    }
}

/// The name of an element; empty where it has none.
pub fn name_of(tree: &Tree, key: Key) -> &str
    ensures { result.now ≡ name_of tree.now.nodes key }
{
    match tree.attr(key, "name") {
        Some(name) => name,
        None => "",
    }
}

/// Whether it is an input in the state radio.
pub fn is_radio(node: &Node) -> bool
    ensures { result ≡ is_radio node.now }
{
    is_input(node) && matches!(kind_of(node), Kind::Radio)
}

fn is_radio_at(tree: &Tree, key: Key) -> bool
    ensures { result ≡ passes is_radio tree.now.nodes key }
{
    match tree.node(key) {
        Some(node) => is_radio(node),
        None => false,
    }
}

fn same_owner(one: Option<Key>, other: Option<Key>) -> bool
    ensures { result ≡ same_owner one other }
{
    match (one, other) {
        (None, None) => true,
        (Some(one), Some(other)) => one.0 == other.0,
        _ => false,
    }
}

fn same_name(one: &str, other: &str) -> bool
    ensures { result ≡ same_name one.now other.now }
{
    !one.is_empty() && one == other
}

/// Whether both are radio buttons of one group.
pub fn share_group(tree: &Tree, answers: &[Answer], one: Key, other: Key) -> bool
    requires { answers.now ≡ owners_of tree.now.nodes }
    ensures { result ≡ share_group tree.now.nodes one other }
{
    if !is_radio_at(tree, one) || !is_radio_at(tree, other) {
        return false;
    }
    one.0 == other.0
        || (same_owner(owner_of(tree, answers, one), owner_of(tree, answers, other))
            && same_name(name_of(tree, one), name_of(tree, other)))
}
