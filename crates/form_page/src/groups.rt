// The radio button groups of a page.
ghost use Rattle.std.specs.Prelude.{◌≡◌, ◌++◌, [], ◌∷◌, ℕ, List, Option, false, map, IfOk, OnOk, Some};
ghost use Rattle.form_tree.specs.declared.node.Key.{Key};
ghost use Rattle.form_tree.specs.Elements.{is_among};
ghost use Rattle.form_tree.specs.RadioGroup.{radio_group};
ghost use Rattle.form_tree.specs.Tree.{IsTree, at_key};
ghost use Rattle.form_groups.specs.Groups.{IsGroup, group_of, keys_of};
ghost use Rattle.form_owner.specs.Owners.{owners_of};
ghost use Rattle.form_page.specs.Members.{AreGroupsAmong, members_among};

use crate::owners::{is_radio, name_of, owner_of};
use form_groups::Groups;
use form_owner::Answer;
use form_tree::{Key, Node, Tree};
use std::alloc::{AllocError, Global};
use std::slice::from_ref;

/// The radio buttons of a page, each in its group; one without a name is in none.
pub fn groups_of(alloc: Global, tree: &Tree, answers: &[Answer]) -> Result<Groups, AllocError>
    requires { answers.now ≡ owners_of tree.now.nodes }
    ensures { IfOk result (λ groups. AreGroupsAmong tree.now.nodes groups tree.now.nodes) }
{
    let nodes = tree.nodes();
    let mut groups = Groups::new(alloc);
    for place in 0..nodes.len() {
        enter(&mut groups, tree, answers, &nodes[place])?;
    }
    Ok(groups)
}

// One more element: a radio button with a name enters its group, of which it is no member yet.
fn enter(
    groups: &mut Groups,
    tree: &Tree,
    answers: &[Answer],
    node: &Node,
) -> Result<(), AllocError>
    requires tree { IsTree tree.now.nodes }
    requires answers { answers.now ≡ owners_of tree.now.nodes }
    requires there { at_key tree.now.nodes node.now.key ≡ Some node.now }
    requires new { (owner : Option Key) → (name : List ℕ) → IsGroup owner name
        → is_among (keys_of (group_of groups.old owner name)) node.now.key ≡ false }
    ensures { OnOk result ((owner : Option Key) → (name : List ℕ) → IsGroup owner name
        → group_of groups.new owner name ≡ group_of groups.old owner name
        ++ members_among tree.now.nodes owner name (node.now ∷ [])) }
{
    if !is_radio(node) {
        return Ok(());
    }
    let name = name_of(tree, node.key);
    if name.is_empty() {
        return Ok(());
    }
    let owner = owner_of(tree, answers, node.key);
    groups.enter(
        owner,
        name,
        node.key,
        node.has_attr("required"),
        node.state.checked,
    )
}

/// The members of a radio button's group, itself included, in tree order; none of another element.
pub fn members_of<'a>(
    tree: &'a Tree,
    answers: &[Answer],
    groups: &'a Groups,
    node: &'a Node,
) -> &'a [Key]
    requires answers { answers.now ≡ owners_of tree.now.nodes }
    requires groups { AreGroupsAmong tree.now.nodes groups.now tree.now.nodes }
    requires there { at_key tree.now.nodes node.now.key ≡ Some node.now }
    ensures { result.now ≡ map (λ n. n.key) (radio_group tree.now.nodes node.now.key) }
{
    tree.len();
    if !is_radio(node) {
        return &[];
    }
    let name = name_of(tree, node.key);
    if name.is_empty() {
        return from_ref(&node.key);
    }
    groups.members(owner_of(tree, answers, node.key), name)
}
