//! Matching: the value is read once, from its end, and takes no memory. At each place the tree
//! holds what each of its parts can do there, which follows from what they could do at the place
//! behind; a place visits each node once.
ghost use Rattle.std.specs.Prelude.{◌≡◌, ◌||◌, ◌↔◌, IfSome, IsTrue, false, length};
ghost use Rattle.std.specs.Str.{chars};
ghost use Rattle.form_pattern.specs.Steps.{bare, table_has, goes, flip, see, step, see_next, see_either};
ghost use Rattle.form_pattern.specs.Matching.{passes, Matches};
ghost use Rattle.form_pattern.specs.Pieces.{tree_of};

use crate::nodes::{Node, Seen};
use regex_class::Class as Ranges;

// Whether the character is one of the leaf that has so many tokens behind it.
fn has(tables: &[Ranges], left: usize, here: Option<u32>) -> bool
    ensures { result ≡ passes (table_has tables.now left) here }
{
    let Some(c) = here else {
        return false;
    };
    match tables.get(left) {
        Some(table) => table.contains(c),
        None => false,
    }
}

// Whether the end can be reached through a node, where k says whether it can be from behind it.
fn goes(seen: Seen, k: bool) -> bool
    ensures { result ≡ goes seen k }
{
    (seen.empty && k) || seen.on
}

// What matches the empty stretch, or nothing.
fn still(empty: bool) -> Seen
    ensures { result ≡ record { empty = empty; on = false } }
{
    Seen { empty, on: false }
}

// What matches one character, or nothing.
fn character(on: bool) -> Seen
    ensures { result ≡ record { empty = false; on = on } }
{
    Seen { empty: false, on }
}

fn see_next(a: Seen, b: Seen) -> Seen
    ensures { result ≡ see_next a b }
{
    Seen {
        empty: a.empty && b.empty,
        on: a.on || (a.empty && b.on),
    }
}

fn see_either(a: Seen, b: Seen) -> Seen
    ensures { result ≡ see_either a b }
{
    Seen {
        empty: a.empty || b.empty,
        on: a.on || b.on,
    }
}

fn either(a: bool, b: bool) -> bool
    ensures { result ≡ (a || b) }
{
    a || b
}

// The answer of a lookahead.
fn flip(absent: bool, found: bool) -> bool
    ensures { result ≡ flip absent found }
{
    found != absent
}

// What a node with no others in it can do; none for any other node. Such a node notes nothing.
fn leaf(tables: &[Ranges], node: &Node, first: bool, here: Option<u32>, k: bool) -> Option<Seen>
    ensures seen { IfSome result (λ s. s ≡ see (table_has tables.now) first here k (tree_of node.now)) }
    ensures same { IfSome result (λ s. step (table_has tables.now) first here k (tree_of node.now) ≡ tree_of node.now) }
{
    match node {
        Node::Nothing => Some(still(true)),
        Node::Start => Some(still(first)),
        Node::Finish => Some(still(here.is_none())),
        Node::One(left) => Some(character(k && has(tables, *left, here))),
        _ => None,
    }
}

// The same, and of two such nodes as alternatives: what sequences are mostly made of is answered
// with no call of `step`.
fn quick(tables: &[Ranges], node: &Node, first: bool, here: Option<u32>, k: bool) -> Option<Seen>
    ensures seen { IfSome result (λ s. s ≡ see (table_has tables.now) first here k (tree_of node.now)) }
    ensures same { IfSome result (λ s. step (table_has tables.now) first here k (tree_of node.now) ≡ tree_of node.now) }
{
    let Node::Either(a, b) = node else {
        return leaf(tables, node, first, here, k);
    };
    let a = leaf(tables, a, first, here, k)?;
    let b = leaf(tables, b, first, here, k)?;
    Some(see_either(a, b))
}

// Goes one place to the front, and says what the node and what stands behind it can do there; k
// says whether at the place behind the end could be reached from behind the node. Of a sequence the
// first part is the last call, so that a long one is gone over as by a loop.
fn step(
    tables: &[Ranges],
    node: &mut Node,
    first: bool,
    here: Option<u32>,
    k: bool,
    then: Seen,
) -> Seen
    ensures seen { result ≡ see_next (see (table_has tables.now) first here k (tree_of node.old)) then }
    ensures notes { tree_of node.new ≡ step (table_has tables.now) first here k (tree_of node.old) }
{
    match node {
        Node::Nothing => then,
        Node::One(left) => see_next(character(k && has(tables, *left, here)), then),
        Node::Start => see_next(still(first), then),
        Node::Finish => see_next(still(here.is_none()), then),
        Node::Next(a, b, behind) => {
            let before = goes(*behind, k);
            if let Some(seen) = quick(tables, b, first, here, k) {
                *behind = seen;
                return step(tables, a, first, here, before, see_next(seen, then));
            }
            let b = step(tables, b, first, here, k, still(true));
            *behind = b;
            step(tables, a, first, here, before, see_next(b, then))
        }
        Node::Either(a, b) => {
            let a = step(tables, a, first, here, k, still(true));
            let b = step(tables, b, first, here, k, still(true));
            see_next(see_either(a, b), then)
        }
        Node::Many(a, round) => {
            let a = step(tables, a, first, here, either(k, *round), still(true));
            *round = a.on;
            see_next(a, then)
        }
        Node::Ahead(absent, a) => {
            let a = step(tables, a, first, here, true, still(true));
            see_next(still(flip(*absent, goes(a, true))), then)
        }
    }
}

// The same of the whole tree, behind which nothing stands.
fn place(tables: &[Ranges], node: &mut Node, first: bool, here: Option<u32>, k: bool) -> Seen
    ensures seen { result ≡ see (table_has tables.now) first here k (tree_of node.old) }
    ensures notes { tree_of node.new ≡ step (table_has tables.now) first here k (tree_of node.old) }
{
    step(tables, node, first, here, k, still(true))
}

/// Whether the tree matches the whole value.
pub fn whole(tables: &[Ranges], node: &mut Node, value: &str) -> bool
    ensures answer { IsTrue result ↔ Matches (table_has tables.now) (chars value.now) (bare (tree_of node.old)) 0 (length (chars value.now)) }
    ensures kept { bare (tree_of node.new) ≡ bare (tree_of node.old) }
{
    let mut rest = value.chars();
    let mut answer = goes(place(tables, node, value.is_empty(), None, false), true);
    let mut end = true;
    while let Some(c) = rest.next_back() {
        let first = rest.as_str().is_empty();
        answer = goes(place(tables, node, first, Some(c as u32), end), false);
        end = false;
    }
    answer
}
