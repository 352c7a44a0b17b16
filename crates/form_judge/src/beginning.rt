// What each element of a page begins with.
ghost use Rattle.std.specs.Prelude.{◌≡◌, map, IfOk, Some};
ghost use Rattle.form_types.specs.TypeTable.{mode_of};
ghost use Rattle.form_states.specs.States.{sanitised};
ghost use Rattle.form_tree.specs.Elements.{kind_of};
ghost use Rattle.form_judge.specs.Beginning.{begins_checked, begins_selected, first_input_value, first_state, first_value};
ghost use Rattle.form_judge.specs.Controls.{own_limits};

use crate::control::{is_input, is_textarea, kind_of, own_limits, value_attr_or};
use form_states::sanitise;
use form_text::Text;
use form_tree::{Node, State};
use form_types::{Kind, Mode, mode_of};
use std::alloc::{AllocError, Global};

/// The state that each element begins with, in tree order.
pub fn first_states(alloc: Global, nodes: &[Node]) -> Result<Vec<Option<State>>, AllocError>
    ensures { IfOk result (λ states. states.items ≡ map (λ n. Some (first_state n)) nodes.now) }
{
    let mut states = Vec::with_capacity(alloc, nodes.len())?;
    for node in nodes {
        states.push(Some(first_state(alloc, node)?))?;
    }
    Ok(states)
}

// No mark is set, and nothing was typed or chosen.
fn first_state(alloc: Global, node: &Node) -> Result<State, AllocError>
    ensures { IfOk result (λ state. state ≡ first_state node.now) }
{
    let mut state = State::empty(alloc);
    state.value = first_value(alloc, node)?;
    state.checked = begins_checked(node);
    state.selected = begins_selected(node);
    Ok(state)
}

fn begins_checked(node: &Node) -> bool
    ensures { result ≡ begins_checked node.now }
{
    is_input(node) && node.has_attr("checked")
}

fn begins_selected(node: &Node) -> bool
    ensures { result ≡ begins_selected node.now }
{
    node.tag.is_option() && node.has_attr("selected")
}

fn first_value(alloc: Global, node: &Node) -> Result<Text, AllocError>
    ensures { IfOk result (λ value. value ≡ first_value node.now) }
{
    if is_input(node) {
        return first_input_value(alloc, node);
    }
    if is_textarea(node) {
        return Text::from_str(alloc, node.text.as_str());
    }
    Ok(Text::from_string(String::new(alloc)))
}

fn first_input_value(alloc: Global, node: &Node) -> Result<Text, AllocError>
    ensures { IfOk result (λ value. value ≡ first_input_value node.now (mode_of (kind_of node.now))) }
{
    let kind = kind_of(node);
    let text = value_attr_or(node, "");
    match mode_of(kind) {
        Mode::Value => sanitised_as(alloc, node, kind, text),
        Mode::Default => Text::from_str(alloc, text),
        Mode::DefaultOn => Text::from_str(alloc, text),
        Mode::Filename => Text::from_str(alloc, text),
    }
}

// The text as the value of an input that has that state.
fn sanitised_as(alloc: Global, node: &Node, kind: Kind, text: &str) -> Result<Text, AllocError>
    requires { kind ≡ kind_of node.now }
    ensures { IfOk result (λ value. value ≡ sanitised kind (own_limits node.now) text.now) }
{
    let limits = own_limits(node, kind);
    let value = sanitise(alloc, kind, &limits, text)?;
    Ok(Text::from_string(value))
}
