// The options of a select, place by place.
ghost use Rattle.std.specs.Prelude.{◌≡◌, IfSome, ◌≤◌, ◌<◌, ◌+◌, true, false, nat_le, length, Some, None, []};
ghost use Rattle.std.specs.Option.{option_and_then, option_map_or};
ghost use Rattle.form_tree.specs.Elements.{is_option, is_select, passes};
ghost use Rattle.form_tree.specs.Selects.{options};
ghost use Rattle.form_tree.specs.Tree.{IsTree, at_key, place_of};
ghost use Rattle.form_select.specs.Options.{as_list, options_at, options_from, parent_place};

use crate::options::is_option_of;
use form_tree::{Key, Tree};

/// Where the options of a select stand: at places from `start` to `end`, without that.
#[derive(Clone, Copy, Debug)]
pub struct Span {
    pub start: usize,
    pub end: usize,
}

/// The places of the descendants of a select, among which its options are.
pub fn descendants(tree: &Tree, select: Key) -> Span
    requires { passes is_select tree.now.nodes select ≡ true }
    ensures order { result.start ≤ result.end }
    ensures start { options_from tree.now.nodes select result.start ≡ options tree.now.nodes select }
    ensures end { options_from tree.now.nodes select result.end ≡ [] }
{
    match tree.place(select) {
        Some(place) => {
            let end = end_behind(tree, select, place);
            Span {
                start: place + 1,
                end,
            }
        }
        None => Span { start: 0, end: 0 },
    }
}

/// The place behind the descendants of the select that stands at a place: the first that is no
/// descendant's, since these stand behind it without a gap.
pub fn end_behind(tree: &Tree, select: Key, place: usize) -> usize
    requires { place_of tree.now.nodes select ≡ Some place }
    ensures order { place + 1 ≤ result }
    ensures within { result ≤ length tree.now.nodes }
    ensures end { options_from tree.now.nodes select result ≡ [] }
{
    let count = tree.len();
    for behind in place + 1..count {
        if !is_below(tree, behind, place) {
            return behind;
        }
    }
    count
}

// Whether the parent of the element at a place stands at another place or behind it.
fn is_below(tree: &Tree, behind: usize, place: usize) -> bool
    ensures { result ≡ option_map_or (nat_le place) (parent_place tree.now.nodes behind) false }
{
    match place_of_parent(tree, behind) {
        Some(parent) => place <= parent,
        None => false,
    }
}

// The place of the parent of the element at a place.
fn place_of_parent(tree: &Tree, place: usize) -> Option<usize>
    ensures { result ≡ parent_place tree.now.nodes place }
{
    match tree.key_at(place) {
        Some(key) => place_of_up(tree, tree.parent(key)),
        None => None,
    }
}

fn place_of_up(tree: &Tree, up: Option<Key>) -> Option<usize>
    ensures value { result ≡ option_and_then (place_of tree.now.nodes) up }
    ensures tree { IsTree tree.now.nodes }
{
    tree.len();
    match up {
        Some(up) => tree.place(up),
        None => None,
    }
}

/// The element at a place, where it is an option of the select.
pub fn option_at(tree: &Tree, select: Key, place: usize) -> Option<Key>
    ensures value { options_at tree.now.nodes select place ≡ as_list (option_and_then (at_key tree.now.nodes) result) }
    ensures option { IfSome result (λ key. passes is_option tree.now.nodes key ≡ true) }
{
    tree.len();
    let Some(key) = tree.key_at(place) else {
        return None;
    };
    if is_option_of(tree, select, key) {
        return Some(key);
    }
    None
}
