// What is seen of the elements of a page.
ghost use Rattle.std.specs.Prelude.{◌≡◌, map, IfOk, Some};
ghost use Rattle.form_tree.specs.Tree.{at_key};
ghost use Rattle.form_tree.specs.Disabling.{is_candidate};
ghost use Rattle.form_owner.specs.Owners.{owners_of};
ghost use Rattle.form_page.specs.Page.{names_of};
ghost use Rattle.form_page.specs.Views.{is_checkable, is_checkable_kind, is_seen, sight_if, verdict_of};

use crate::candidates::is_candidate;
use crate::file::File;
use crate::owners::is_disabled;
use crate::values::value_of;
use form_judge::{Verdict, is_input, kind_of};
use form_owner::Answer;
use form_select::in_datalists;
use form_text::Text;
use form_tree::{Node, Tree};
use form_types::Kind;
use std::alloc::{AllocError, Global};

/// What is kept of an element that is seen: its value, its checkedness and selectedness, whether it
/// is a candidate for constraint validation, and the verdict on a submittable element.
#[derive(Debug, Drop)]
pub struct Sight {
    pub value: Text,
    pub checked: bool,
    pub selected: bool,
    pub candidate: bool,
    pub verdict: Option<Verdict>,
}

/// What is seen of each element, in tree order, by the verdicts on them.
pub fn all_sights(
    alloc: Global,
    tree: &Tree,
    files: &[File],
    answers: &[Answer],
    verdicts: &[Option<Verdict>],
) -> Result<Vec<Option<Sight>>, AllocError>
    requires answers { answers.now ≡ owners_of tree.now.nodes }
    requires verdicts { verdicts.now ≡ map (verdict_of tree.now.nodes) tree.now.nodes }
    ensures { IfOk result (λ sights. sights.items ≡ map (sight_if (names_of files.now) tree.now.nodes) tree.now.nodes) }
{
    let inside = in_datalists(alloc, tree)?;
    let nodes = tree.nodes();
    let mut sights = Vec::with_capacity(alloc, nodes.len())?;
    for place in 0..nodes.len() {
        let node = &nodes[place];
        let candidate = is_candidate(
            tree,
            node,
            is_disabled(tree, answers, node.key),
            inside[place],
        );
        sights.push(sight_if(alloc, tree, files, node, candidate, verdicts[place])?)?;
    }
    Ok(sights)
}

fn sight_if(
    alloc: Global,
    tree: &Tree,
    files: &[File],
    node: &Node,
    candidate: bool,
    verdict: Option<Verdict>,
) -> Result<Option<Sight>, AllocError>
    requires there { at_key tree.now.nodes node.now.key ≡ Some node.now }
    requires candidate { candidate ≡ is_candidate tree.now.nodes node.now.key }
    requires verdict { verdict ≡ verdict_of tree.now.nodes node.now }
    ensures { IfOk result (λ sight. sight ≡ sight_if (names_of files.now) tree.now.nodes node.now) }
{
    if !is_seen(node) {
        return Ok(None);
    }
    Ok(Some(Sight {
        value: value_of(alloc, tree, files, node)?,
        checked: is_checkable(node) && node.state.checked,
        selected: node.tag.is_option() && node.state.selected,
        candidate,
        verdict,
    }))
}

fn is_seen(node: &Node) -> bool
    ensures { result ≡ is_seen node.now }
{
    node.tag.is_submittable() || node.tag.is_option()
}

fn is_checkable(node: &Node) -> bool
    ensures { result ≡ is_checkable node.now }
{
    is_input(node) && is_checkable_kind(kind_of(node))
}

fn is_checkable_kind(kind: Kind) -> bool
    ensures { result ≡ is_checkable_kind kind }
{
    matches!(kind, Kind::Checkbox | Kind::Radio)
}
