// The options of all selects after the selectedness setting algorithm.
ghost use Rattle.std.specs.Prelude.{◌≡◌, map, IfOk, if◌then◌else◌, None, Some};
ghost use Rattle.std.specs.List.{slice_get};
ghost use Rattle.form_tree.specs.Elements.{is_select, passes};
ghost use Rattle.form_tree.specs.Selects.{select_of, settled};
ghost use Rattle.form_tree.specs.Tree.{at_key};
ghost use Rattle.form_select.specs.Settled.{chosen_at, settled_option, stays_selected};

use crate::options::select_of;
use crate::selects::is_multiple;
use crate::settling::settled;
use form_tree::{Key, Node, State, Tree};
use std::alloc::{AllocError, Global};

/// The state of each option of a select after the selectedness setting algorithm was run for every
/// select, in tree order; None for each other element. The tree is not changed.
pub fn settled_states(alloc: Global, tree: &Tree) -> Result<Vec<Option<State>>, AllocError>
    ensures { IfOk result (λ states. states.items ≡ map (settled_option tree.now.nodes) tree.now.nodes) }
{
    let chosen = all_chosen(alloc, tree)?;
    states_by(alloc, tree, &chosen)
}

// Of each select the first option that stays selected, at its place.
fn all_chosen(alloc: Global, tree: &Tree) -> Result<Vec<Option<Key>>, AllocError>
    ensures { IfOk result (λ chosen. chosen.items ≡ map (chosen_at tree.now.nodes) tree.now.nodes) }
{
    let nodes = tree.nodes();
    let mut chosen = Vec::with_capacity(alloc, nodes.len())?;
    for node in nodes {
        chosen.push(chosen_at(alloc, tree, node)?)?;
    }
    Ok(chosen)
}

fn chosen_at(alloc: Global, tree: &Tree, node: &Node) -> Result<Option<Key>, AllocError>
    requires { at_key tree.now.nodes node.now.key ≡ Some node.now }
    ensures { IfOk result (λ chosen. chosen ≡ chosen_at tree.now.nodes node.now) }
{
    if !node.tag.is_select() {
        return Ok(None);
    }
    let options = settled(alloc, tree, node.key)?;
    Ok(first(&options))
}

fn first(keys: &[Key]) -> Option<Key>
    ensures { result ≡ slice_get keys.now 0 }
{
    match keys.first() {
        Some(key) => Some(*key),
        None => None,
    }
}

// The states by what stays selected of each select.
fn states_by(
    alloc: Global,
    tree: &Tree,
    chosen: &[Option<Key>],
) -> Result<Vec<Option<State>>, AllocError>
    requires { chosen.now ≡ map (chosen_at tree.now.nodes) tree.now.nodes }
    ensures { IfOk result (λ states. states.items ≡ map (settled_option tree.now.nodes) tree.now.nodes) }
{
    let nodes = tree.nodes();
    let mut states = Vec::with_capacity(alloc, nodes.len())?;
    for node in nodes {
        states.push(settled_option(tree, chosen, node)?)?;
    }
    Ok(states)
}

fn settled_option(
    tree: &Tree,
    chosen: &[Option<Key>],
    node: &Node,
) -> Result<Option<State>, AllocError>
    requires chosen { chosen.now ≡ map (chosen_at tree.now.nodes) tree.now.nodes }
    requires there { at_key tree.now.nodes node.now.key ≡ Some node.now }
    ensures { IfOk result (λ state. state ≡ settled_option tree.now.nodes node.now) }
{
    let Some(select) = select_of_node(tree, node) else {
        return Ok(None);
    };
    let mut state = node.state.clone()?;
    state.selected = stays_selected(tree, chosen, node, select);
    Ok(Some(state))
}

// The select that an option belongs to; none of another element.
fn select_of_node(tree: &Tree, node: &Node) -> Option<Key>
    requires { at_key tree.now.nodes node.now.key ≡ Some node.now }
    ensures { result ≡ select_of tree.now.nodes node.now.key }
{
    if node.tag.is_option() {
        select_of(tree, node.key)
    } else {
        None
    }
}

// Whether an option of that select is selected after the algorithm.
fn stays_selected(tree: &Tree, chosen: &[Option<Key>], node: &Node, select: Key) -> bool
    requires chosen { chosen.now ≡ map (chosen_at tree.now.nodes) tree.now.nodes }
    requires select { select_of tree.now.nodes node.now.key ≡ Some select }
    ensures { result ≡ stays_selected tree.now.nodes node.now select }
{
    if is_multiple(tree, select) {
        return node.state.selected;
    }
    match chosen_of(tree, chosen, select) {
        Some(key) => node.key.0 == key.0,
        None => false,
    }
}

// What stays selected of a select, by what was found for each place.
fn chosen_of(tree: &Tree, chosen: &[Option<Key>], select: Key) -> Option<Key>
    requires { chosen.now ≡ map (chosen_at tree.now.nodes) tree.now.nodes }
    ensures { result ≡
        (if passes is_select tree.now.nodes select then slice_get (settled tree.now.nodes select) 0 else None) }
{
    match tree.place(select) {
        Some(place) => chosen[place],
        None => None,
    }
}
