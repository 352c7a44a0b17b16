// What the page says of each control, for its judgement.
ghost use Rattle.std.specs.Prelude.{◌≡◌, ◌&&◌, map, IfOk, Some};
ghost use Rattle.form_tree.specs.Elements.{is_select, passes};
ghost use Rattle.form_tree.specs.RadioGroup.{is_group_missing};
ghost use Rattle.form_tree.specs.Selects.{is_select_missing};
ghost use Rattle.form_tree.specs.Tree.{at_key};
ghost use Rattle.form_judge.specs.Flags.{facts_of};
ghost use Rattle.form_owner.specs.Owners.{owners_of};
ghost use Rattle.form_page.specs.Members.{AreGroupsAmong, facts_at};

use crate::owners::{is_disabled, is_radio, name_of, owner_of};
use form_groups::Groups;
use form_judge::Facts;
use form_owner::Answer;
use form_select::missing;
use form_tree::{Node, Tree};
use std::alloc::{AllocError, Global};

/// The facts of each element, in tree order.
pub fn all_facts(
    alloc: Global,
    tree: &Tree,
    answers: &[Answer],
    groups: &Groups,
) -> Result<Vec<Facts>, AllocError>
    requires answers { answers.now ≡ owners_of tree.now.nodes }
    requires groups { AreGroupsAmong tree.now.nodes groups.now tree.now.nodes }
    ensures { IfOk result (λ facts. facts.items ≡ map (facts_at tree.now.nodes) tree.now.nodes) }
{
    let nodes = tree.nodes();
    let mut facts = Vec::with_capacity(alloc, nodes.len())?;
    for node in nodes {
        facts.push(facts_of(tree, answers, groups, node))?;
    }
    Ok(facts)
}

fn facts_of(tree: &Tree, answers: &[Answer], groups: &Groups, node: &Node) -> Facts
    requires answers { answers.now ≡ owners_of tree.now.nodes }
    requires groups { AreGroupsAmong tree.now.nodes groups.now tree.now.nodes }
    requires there { at_key tree.now.nodes node.now.key ≡ Some node.now }
    ensures { result ≡ facts_of tree.now.nodes node.now.key }
{
    Facts {
        disabled: is_disabled(tree, answers, node.key),
        group_missing: is_group_missing(tree, answers, groups, node),
        select_missing: is_select_missing(tree, node),
    }
}

fn is_select_missing(tree: &Tree, node: &Node) -> bool
    requires { at_key tree.now.nodes node.now.key ≡ Some node.now }
    ensures { result ≡ (passes is_select tree.now.nodes node.now.key && is_select_missing tree.now.nodes node.now.key) }
{
    node.tag.is_select() && missing(tree, node.key)
}

// Whether the element's radio button group lacks a required choice. One without a name is alone.
fn is_group_missing(tree: &Tree, answers: &[Answer], groups: &Groups, node: &Node) -> bool
    requires answers { answers.now ≡ owners_of tree.now.nodes }
    requires groups { AreGroupsAmong tree.now.nodes groups.now tree.now.nodes }
    requires there { at_key tree.now.nodes node.now.key ≡ Some node.now }
    ensures { result ≡ is_group_missing tree.now.nodes node.now.key }
{
    tree.len();
    if !is_radio(node) {
        return false;
    }
    let name = name_of(tree, node.key);
    if name.is_empty() {
        return node.has_attr("required") && !node.state.checked;
    }
    groups.missing(owner_of(tree, answers, node.key), name)
}
