// An element with another state, another text or other attributes.
ghost use Rattle.std.specs.Prelude.{◌≡◌, IfOk, not, filter, map, Some, if◌then◌else◌};
ghost use Rattle.std.specs.List.{list_any};
ghost use Rattle.form_tree.specs.Attributes.{attrs_with, set_attr};
ghost use Rattle.form_tree.specs.Tree.{is_named};

use form_text::{Sequence, Text};
use form_tree::{Node, State};
use std::alloc::{AllocError, Global};

/// The element with another state.
pub fn with_state(node: &Node, state: &State) -> Result<Node, AllocError>
    ensures { IfOk result (λ next. next ≡ record node.now { state = state.now }) }
{
    let mut next = copy_of(node)?;
    next.state = copy_of_state(state)?;
    Ok(next)
}

/// The element with another text directly in it.
pub fn with_text(node: &Node, text: &Text) -> Result<Node, AllocError>
    ensures { IfOk result (λ next. next ≡ record node.now { text = text.now }) }
{
    let mut next = copy_of(node)?;
    next.text = copy_of_text(text)?;
    Ok(next)
}

/// The element with an attribute set, or taken away where there is no value.
pub fn with_attr(
    alloc: Global,
    node: &Node,
    name: &Text,
    value: &Option<Text>,
) -> Result<Node, AllocError>
    ensures { IfOk result (λ next. next ≡ set_attr name.now value.now node.now) }
{
    let attrs = attrs_with(alloc, node.attrs.as_slice(), name, value)?;
    let mut next = copy_of(node)?;
    next.attrs = Sequence::from_vec(attrs);
    Ok(next)
}

fn copy_of(node: &Node) -> Result<Node, AllocError>
    ensures { IfOk result (λ copy. copy ≡ node.now) }
{
    node.clone()
}

fn copy_of_state(state: &State) -> Result<State, AllocError>
    ensures { IfOk result (λ copy. copy ≡ state.now) }
{
    state.clone()
}

fn copy_of_text(text: &Text) -> Result<Text, AllocError>
    ensures { IfOk result (λ copy. copy ≡ text.now) }
{
    text.clone()
}

// ---- attributes

fn attrs_with(
    alloc: Global,
    attrs: &[(Text, Text)],
    name: &Text,
    value: &Option<Text>,
) -> Result<Vec<(Text, Text)>, AllocError>
    ensures { IfOk result (λ list. list.items ≡ attrs_with attrs.now name.now value.now) }
{
    match value {
        Some(value) => attrs_put(alloc, attrs, name, value),
        None => attrs_cut(alloc, attrs, name),
    }
}

fn attrs_put(
    alloc: Global,
    attrs: &[(Text, Text)],
    name: &Text,
    value: &Text,
) -> Result<Vec<(Text, Text)>, AllocError>
    ensures { IfOk result (λ list. list.items ≡ attrs_with attrs.now name.now (Some value.now)) }
{
    let mut list = attrs_renewed(alloc, attrs, name, value)?;
    if has_name(attrs, name) {
        return Ok(list);
    }
    list.push((copy_of_text(name)?, copy_of_text(value)?))?;
    Ok(list)
}

// The list with that value for the attribute of the name, if one has it.
fn attrs_renewed(
    alloc: Global,
    attrs: &[(Text, Text)],
    name: &Text,
    value: &Text,
) -> Result<Vec<(Text, Text)>, AllocError>
    ensures { IfOk result (λ list.
        list.items ≡ map (λ attr. if is_named name.now attr then (attr.0, value.now) else attr) attrs.now) }
{
    let mut list = Vec::new(alloc);
    for attr in attrs {
        list.push(renewed(attr, name, value)?)?;
    }
    Ok(list)
}

fn renewed(attr: &(Text, Text), name: &Text, value: &Text) -> Result<(Text, Text), AllocError>
    ensures { IfOk result (λ next.
        next ≡ (if is_named name.now attr.now then (attr.now.0, value.now) else attr.now)) }
{
    if is_named(attr, name) {
        return Ok((copy_of_text(&attr.0)?, copy_of_text(value)?));
    }
    Ok((copy_of_text(&attr.0)?, copy_of_text(&attr.1)?))
}

fn attrs_cut(
    alloc: Global,
    attrs: &[(Text, Text)],
    name: &Text,
) -> Result<Vec<(Text, Text)>, AllocError>
    ensures { IfOk result (λ list. list.items ≡ filter (λ attr. not (is_named name.now attr)) attrs.now) }
{
    let mut list = Vec::new(alloc);
    for attr in attrs {
        if !is_named(attr, name) {
            list.push((copy_of_text(&attr.0)?, copy_of_text(&attr.1)?))?;
        }
    }
    Ok(list)
}

fn has_name(attrs: &[(Text, Text)], name: &Text) -> bool
    ensures { result ≡ list_any (is_named name.now) attrs.now }
{
    for attr in attrs {
        if is_named(attr, name) {
            return true;
        }
    }
    false
}

fn is_named(attr: &(Text, Text), name: &Text) -> bool
    ensures { result ≡ is_named name.now attr.now }
{
    attr.0.as_str() == name.as_str()
}
