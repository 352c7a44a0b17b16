// Of each radio button group the last checked member stays checked as a page opens.
ghost use Rattle.std.specs.Prelude.{◌≡◌, ◌++◌, [], ◌∷◌, length, IfOk, OnOk};
ghost use Rattle.std.specs.List.{list_any};
ghost use Rattle.form_tree.specs.RadioGroup.{share_group};
ghost use Rattle.form_owner.specs.Owners.{owners_of};
ghost use Rattle.form_page.specs.Opening.{unchecked_if, with_settled_radios};
ghost use Rattle.form_page.specs.States.{is_last_by, is_outdone_by, outdone_of, unchecked_by, with_last_if};

use crate::owners::share_group;
use crate::states::put_states;
use form_owner::{Answer, Owners};
use form_tree::{Key, Node, State, Tree};
use std::alloc::{AllocError, Global};

/// Unchecks each radio button that is outdone.
pub fn settle_radios(alloc: Global, tree: &mut Tree) -> Result<(), AllocError>
    ensures { OnOk result (tree.new ≡ record tree.old { nodes = with_settled_radios tree.old.nodes }) }
{
    let states = settled_states(alloc, tree)?;
    put_states(tree, states);
    Ok(())
}

fn settled_states(alloc: Global, tree: &Tree) -> Result<Vec<Option<State>>, AllocError>
    ensures { IfOk result (λ states.
        states.items ≡ unchecked_by tree.now.nodes (outdone_of tree.now.nodes tree.now.nodes)) }
{
    let owners = Owners::build(alloc, tree)?;
    let marks = outdone(alloc, tree, owners.answers())?;
    unchecked(alloc, tree.nodes(), &marks)
}

// The states of the elements that are marked.
fn unchecked(
    alloc: Global,
    nodes: &[Node],
    marks: &[bool],
) -> Result<Vec<Option<State>>, AllocError>
    requires { length nodes.now ≡ length marks.now }
    ensures { IfOk result (λ states. states.items ≡ unchecked_by nodes.now marks.now) }
{
    let mut states = Vec::with_capacity(alloc, nodes.len())?;
    for place in 0..nodes.len() {
        states.push(unchecked_if(marks[place], &nodes[place])?)?;
    }
    Ok(states)
}

fn unchecked_if(mark: bool, node: &Node) -> Result<Option<State>, AllocError>
    ensures { IfOk result (λ state. state ≡ unchecked_if mark node.now) }
{
    if !mark {
        return Ok(None);
    }
    let mut state = node.state.clone()?;
    state.checked = false;
    Ok(Some(state))
}

// Which elements are outdone, in tree order. They are asked from the last on: of each group the key
// of the last checked member is kept.
fn outdone(alloc: Global, tree: &Tree, answers: &[Answer]) -> Result<Vec<bool>, AllocError>
    requires { answers.now ≡ owners_of tree.now.nodes }
    ensures { IfOk result (λ marks. marks.items ≡ outdone_of tree.now.nodes tree.now.nodes) }
{
    let nodes = tree.nodes();
    let mut marks = Vec::with_capacity(alloc, nodes.len())?;
    let mut lasts = Vec::new(alloc);
    for passed in 0..nodes.len() {
        let place = nodes.len() - 1 - passed;
        mark(tree, answers, &nodes[place], &mut marks, &mut lasts)?;
    }
    marks.reverse();
    Ok(marks)
}

// One more mark, for the element before those that were asked.
fn mark(
    tree: &Tree,
    answers: &[Answer],
    node: &Node,
    marks: &mut Vec<bool>,
    lasts: &mut Vec<Key>,
) -> Result<(), AllocError>
    requires { answers.now ≡ owners_of tree.now.nodes }
    ensures mark { OnOk result
        (marks.new.items ≡ marks.old.items ++ is_outdone_by tree.now.nodes node.now lasts.old.items ∷ []) }
    ensures last { OnOk result
        (lasts.new.items ≡ with_last_if (is_last_by tree.now.nodes node.now lasts.old.items) node.now.key lasts.old.items) }
{
    let outdone = node.state.checked && shares_any(tree, answers, node.key, lasts);
    marks.push(outdone)?;
    push_if(lasts, node.state.checked && !outdone, node.key)
}

fn push_if(keys: &mut Vec<Key>, keep: bool, key: Key) -> Result<(), AllocError>
    ensures { OnOk result (keys.new.items ≡ with_last_if keep key keys.old.items) }
{
    if keep {
        keys.push(key)?;
    }
    Ok(())
}

// Whether one of these keys is that of a member of the element's group.
fn shares_any(tree: &Tree, answers: &[Answer], key: Key, others: &[Key]) -> bool
    requires { answers.now ≡ owners_of tree.now.nodes }
    ensures { result ≡ list_any (share_group tree.now.nodes key) others.now }
{
    others
        .iter()
        .any(|other| share_group(tree, answers, key, *other))
}
