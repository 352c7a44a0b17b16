// The state of one element as a reset leaves it.
ghost use Rattle.std.specs.Prelude.{◌≡◌, IfOk};
ghost use Rattle.form_drafts.specs.Resetting.{reset_input, reset_option, reset_textarea};

use form_judge::value_attr_or;
use form_text::{Sequence, Text};
use form_tree::{Node, State};
use std::alloc::{AllocError, Global};

/// An input as a reset leaves it, before its group and its value are seen to.
pub fn reset_input(alloc: Global, node: &Node) -> Result<State, AllocError>
    ensures { IfOk result (λ state. state ≡ (reset_input node.now).state) }
{
    let value = Text::from_str(alloc, value_attr_or(node, ""))?;
    let mut state = node.state.clone()?;
    state.value = value;
    state.dirty = false;
    state.by_user = false;
    state.typed = Text::from_string(String::new(alloc));
    state.checked = node.has_attr("checked");
    state.dirty_checked = false;
    state.files = Sequence::new(alloc);
    Ok(state)
}

/// A textarea as a reset leaves it.
pub fn reset_textarea(alloc: Global, node: &Node) -> Result<State, AllocError>
    ensures { IfOk result (λ state. state ≡ (reset_textarea node.now).state) }
{
    let value = node.text.clone()?;
    let mut state = node.state.clone()?;
    state.value = value;
    state.dirty = false;
    state.by_user = false;
    state.typed = Text::from_string(String::new(alloc));
    Ok(state)
}

/// An option as a reset leaves it, before its select is seen to.
pub fn reset_option(node: &Node) -> Result<State, AllocError>
    ensures { IfOk result (λ state. state ≡ (reset_option node.now).state) }
{
    let mut state = node.state.clone()?;
    state.selected = node.has_attr("selected");
    state.dirty_selected = false;
    Ok(state)
}
