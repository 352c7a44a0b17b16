// The invalid controls that stop a submission.
ghost use Rattle.std.specs.Prelude.{◌≡◌, ◌++◌, ◌&&◌, false, map, filter, Some, All, IfOk, OnOk};
ghost use Rattle.std.specs.Option.{option_map_or};
ghost use Rattle.form_tree.specs.Elements.{same_key};
ghost use Rattle.form_tree.specs.Ownership.{owner_of};
ghost use Rattle.form_tree.specs.Tree.{at_key};
ghost use Rattle.form_judge.specs.Flags.{has_some};
ghost use Rattle.form_page.specs.Invalid.{is_invalid_in};
ghost use Rattle.form_page.specs.Views.{flags_of_key};
ghost use Rattle.form_submit.specs.Route.{stopping_keys};
ghost use Rattle.form_submit.specs.Steps.{key_if_invalid};

use crate::attributes::is_no_validate;
use form_page::Page;
use form_tree::{Key, Node};
use std::alloc::{AllocError, Global};

/// The invalid controls of a form that stop its submission, in tree order: none where it is not
/// validated (HTML, "Constraint validation", "statically validate the constraints").
pub fn stopping_keys(
    alloc: Global,
    page: &Page,
    form: Key,
    submitter: Option<Key>,
    check: bool,
) -> Result<Vec<Key>, AllocError>
    ensures { IfOk result (λ keys. keys.items ≡ stopping_keys page.now.tree.nodes form submitter check) }
{
    if check && !is_no_validate(page.tree(), form, submitter) {
        invalid_among(alloc, page, form, page.tree().nodes())
    } else {
        Ok(Vec::new(alloc))
    }
}

// The keys of the invalid controls of the form among some elements.
fn invalid_among(
    alloc: Global,
    page: &Page,
    form: Key,
    nodes: &[Node],
) -> Result<Vec<Key>, AllocError>
    requires { All (λ n. at_key page.now.tree.nodes n.key ≡ Some n) nodes.now }
    ensures { IfOk result (λ keys.
        keys.items ≡ map (λ n. n.key) (filter (is_invalid_in page.now.tree.nodes form) nodes.now)) }
{
    let mut keys = Vec::new(alloc);
    for node in nodes {
        push_if_invalid(&mut keys, page, form, node)?;
    }
    Ok(keys)
}

fn push_if_invalid(
    keys: &mut Vec<Key>,
    page: &Page,
    form: Key,
    node: &Node,
) -> Result<(), AllocError>
    requires { at_key page.now.tree.nodes node.now.key ≡ Some node.now }
    ensures { OnOk result (keys.new.items ≡ keys.old.items ++ key_if_invalid page.now.tree.nodes form node.now) }
{
    if !is_invalid(page, form, node) {
        return Ok(());
    }
    keys.push(node.key)?;
    Ok(())
}

fn is_invalid(page: &Page, form: Key, node: &Node) -> bool
    requires { at_key page.now.tree.nodes node.now.key ≡ Some node.now }
    ensures { result ≡ is_invalid_in page.now.tree.nodes form node.now }
{
    is_owned_by(page, form, node.key)
        && page.candidate(node.key).unwrap_or(false)
        && has_some_flag(page, node.key)
}

fn is_owned_by(page: &Page, form: Key, key: Key) -> bool
    ensures { result ≡ option_map_or (same_key form) (owner_of page.now.tree.nodes key) false }
{
    match page.owner(key) {
        Some(owner) => form.0 == owner.0,
        None => false,
    }
}

fn has_some_flag(page: &Page, key: Key) -> bool
    ensures { result ≡ option_map_or has_some (flags_of_key page.now key) false }
{
    match page.flags(key) {
        Some(flags) => flags.has_some(),
        None => false,
    }
}
