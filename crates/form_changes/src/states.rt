// What a change makes of the state of one element.
ghost use Rattle.std.specs.Prelude.{◌≡◌, ◌==◌, IfOk, true, false, not, filter, [], if◌then◌else◌};
ghost use Rattle.form_types.specs.declared.kind.Mode.TheVariants as modes;
ghost use Rattle.form_changes.specs.Changing.{chosen, given, given_in, set_checked, set_selected, typed, typed_text, value_from_attr, with_kind, with_message, with_mode, without_file_number};
ghost use Rattle.form_changes.specs.Values.{sanitised_as, sanitised_in};

use crate::elements::{has_kept_value, is_file_kind, is_input};
use crate::values::{sanitised_as, sanitised_in, typed_text};
use form_judge::{kind_of, value_attr_or};
use form_text::{Sequence, Text};
use form_tree::{Node, State};
use form_types::{Kind, Mode, mode_of};
use std::alloc::{AllocError, Global};

// ---- the user's edits

/// After the user's text.
pub fn typed(alloc: Global, node: &Node, text: &str) -> Result<State, AllocError>
    ensures { IfOk result (λ state. state ≡ (typed text.now node.now).state) }
{
    if has_kept_value(node) {
        return typed_value(alloc, node, text);
    }
    typed_raw(alloc, node, text)
}

fn typed_value(alloc: Global, node: &Node, text: &str) -> Result<State, AllocError>
    ensures { IfOk result (λ state. state ≡ record node.now.state {
      value = sanitised_as node.now text.now;
      dirty = true;
      by_user = true;
      typed = typed_text node.now text.now;
    }) }
{
    let value = sanitised_as(alloc, node, text)?;
    let typed = typed_text(alloc, node, text, &value)?;
    let mut state = node.state.clone()?;
    state.value = value;
    state.dirty = true;
    state.by_user = true;
    state.typed = typed;
    Ok(state)
}

fn typed_raw(alloc: Global, node: &Node, text: &str) -> Result<State, AllocError>
    ensures { IfOk result (λ state. state ≡ record node.now.state { value = text.now; dirty = true; by_user = true }) }
{
    let value = Text::from_str(alloc, text)?;
    let mut state = node.state.clone()?;
    state.value = value;
    state.dirty = true;
    state.by_user = true;
    Ok(state)
}

/// After the user's choice of files.
pub fn chosen(node: &Node, files: &Sequence<u32>) -> Result<State, AllocError>
    ensures { IfOk result (λ state. state ≡ (chosen files.now node.now).state) }
{
    let files = files.clone()?;
    let mut state = node.state.clone()?;
    state.files = files;
    Ok(state)
}

// ---- the script's edits

/// After the script set the value; an element whose value is an attribute stays as it is.
pub fn given(alloc: Global, node: &Node, text: &str) -> Result<State, AllocError>
    ensures { IfOk result (λ state. state ≡ (given text.now node.now).state) }
{
    if is_input(node) {
        return given_in(alloc, mode_of(kind_of(node)), node, text);
    }
    let value = Text::from_str(alloc, text)?;
    given_value(alloc, node, value)
}

fn given_in(alloc: Global, mode: Mode, node: &Node, text: &str) -> Result<State, AllocError>
    ensures { IfOk result (λ state. state ≡ (given_in mode text.now node.now).state) }
{
    match mode {
        Mode::Value => given_sanitised(alloc, node, text),
        Mode::Default => node.state.clone(),
        Mode::DefaultOn => node.state.clone(),
        Mode::Filename => without_files(alloc, node),
    }
}

fn given_sanitised(alloc: Global, node: &Node, text: &str) -> Result<State, AllocError>
    ensures { IfOk result (λ state. state ≡ record node.now.state {
      value = sanitised_as node.now text.now;
      dirty = true;
      by_user = false;
      typed = [];
    }) }
{
    let value = sanitised_as(alloc, node, text)?;
    given_value(alloc, node, value)
}

fn given_value(alloc: Global, node: &Node, value: Text) -> Result<State, AllocError>
    ensures { IfOk result (λ state. state ≡ record node.now.state {
      value = value;
      dirty = true;
      by_user = false;
      typed = [];
    }) }
{
    let mut state = node.state.clone()?;
    state.value = value;
    state.dirty = true;
    state.by_user = false;
    state.typed = Text::from_string(String::new(alloc));
    Ok(state)
}

fn without_files(alloc: Global, node: &Node) -> Result<State, AllocError>
    ensures { IfOk result (λ state. state ≡ record node.now.state { files = [] }) }
{
    let mut state = node.state.clone()?;
    state.files = Sequence::new(alloc);
    Ok(state)
}

/// With that custom validity message.
pub fn with_message(node: &Node, text: &Text) -> Result<State, AllocError>
    ensures { IfOk result (λ state. state ≡ (with_message text.now node.now).state) }
{
    let message = text.clone()?;
    let mut state = node.state.clone()?;
    state.message = message;
    Ok(state)
}

/// With that text as its value, and no mark changed.
pub fn with_value_text(node: &Node, text: Text) -> Result<State, AllocError>
    ensures { IfOk result (λ state. state ≡ record node.now.state { value = text }) }
{
    let mut state = node.state.clone()?;
    state.value = text;
    Ok(state)
}

/// Without a file that is withdrawn.
pub fn without_file_number(alloc: Global, node: &Node, file: u32) -> Result<State, AllocError>
    ensures { IfOk result (λ state. state ≡ (without_file_number file node.now).state) }
{
    let files = numbers_but(alloc, node.state.files.as_slice(), file)?;
    let mut state = node.state.clone()?;
    state.files = Sequence::from_vec(files);
    Ok(state)
}

fn numbers_but(alloc: Global, numbers: &[u32], file: u32) -> Result<Vec<u32>, AllocError>
    ensures { IfOk result (λ left. left.items ≡ filter (λ number. not (number == file)) numbers.now) }
{
    let mut left = Vec::new(alloc);
    for number in numbers {
        if *number != file {
            left.push(*number)?;
        }
    }
    Ok(left)
}

// ---- marks

/// With its checkedness set by the user or the script.
pub fn set_checked(node: &Node, on: bool) -> Result<State, AllocError>
    ensures { IfOk result (λ state. state ≡ (set_checked on node.now).state) }
{
    let mut state = node.state.clone()?;
    state.checked = on;
    state.dirty_checked = true;
    Ok(state)
}

/// With that checkedness.
pub fn with_checked(node: &Node, on: bool) -> Result<State, AllocError>
    ensures { IfOk result (λ state. state ≡ record node.now.state { checked = on }) }
{
    let mut state = node.state.clone()?;
    state.checked = on;
    Ok(state)
}

/// With its selectedness set by the user or the script.
pub fn set_selected(node: &Node, on: bool) -> Result<State, AllocError>
    ensures { IfOk result (λ state. state ≡ (set_selected on node.now).state) }
{
    let mut state = node.state.clone()?;
    state.selected = on;
    state.dirty_selected = true;
    Ok(state)
}

/// With that selectedness.
pub fn with_selected(node: &Node, on: bool) -> Result<State, AllocError>
    ensures { IfOk result (λ state. state ≡ record node.now.state { selected = on }) }
{
    let mut state = node.state.clone()?;
    state.selected = on;
    Ok(state)
}

// ---- a change of the state of an input

/// After an input came from one state to another, its attributes being as they are.
pub fn with_kind(alloc: Global, from: Kind, to: Kind, node: &Node) -> Result<State, AllocError>
    ensures { IfOk result (λ state. state ≡ (with_kind from to node.now).state) }
{
    let state = with_mode(alloc, mode_of(from), mode_of(to), node)?;
    Ok(forgotten(alloc, state, is_file_kind(from) || is_file_kind(to)))
}

// The typed text is forgotten, and the files where it is said so.
fn forgotten(alloc: Global, state: State, files: bool) -> State
    ensures { result ≡ record state { typed = []; files = if files then [] else state.files } }
{
    let mut left = state;
    left.typed = Text::from_string(String::new(alloc));
    if !files {
        return left;
    }
    left.files = Sequence::new(alloc);
    left
}

fn with_mode(alloc: Global, from: Mode, to: Mode, node: &Node) -> Result<State, AllocError>
    ensures { IfOk result (λ state. state ≡ (with_mode from to node.now).state) }
{
    match to {
        Mode::Value => to_value(alloc, from, node),
        Mode::Default => node.state.clone(),
        Mode::DefaultOn => node.state.clone(),
        Mode::Filename => to_filename(alloc, from, node),
    }
}

// To the mode value the value is that of the attribute.
fn to_value(alloc: Global, from: Mode, node: &Node) -> Result<State, AllocError>
    ensures { IfOk result (λ state. state ≡ (with_mode from modes.Value node.now).state) }
{
    match from {
        Mode::Value => node.state.clone(),
        _ => value_from_attr(alloc, node),
    }
}

fn value_from_attr(alloc: Global, node: &Node) -> Result<State, AllocError>
    ensures { IfOk result (λ state. state ≡ (value_from_attr node.now).state) }
{
    let value = Text::from_str(alloc, value_attr_or(node, ""))?;
    let mut state = node.state.clone()?;
    state.value = value;
    state.dirty = false;
    state.by_user = false;
    Ok(state)
}

// To the mode filename the value is empty.
fn to_filename(alloc: Global, from: Mode, node: &Node) -> Result<State, AllocError>
    ensures { IfOk result (λ state. state ≡ (with_mode from modes.Filename node.now).state) }
{
    match from {
        Mode::Filename => node.state.clone(),
        _ => with_value_text(node, Text::from_string(String::new(alloc))),
    }
}

// ---- values

/// With the value that it keeps sanitised.
pub fn sanitised(alloc: Global, node: &Node) -> Result<State, AllocError>
    ensures { IfOk result (λ state. state ≡ record node.now.state { value = sanitised_in node.now }) }
{
    let value = sanitised_in(alloc, node)?;
    with_value_text(node, value)
}
