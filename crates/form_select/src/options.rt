// What an option is.
ghost use Rattle.std.specs.Prelude.{◌≡◌, ℕ, List, false, true, Some, None, IfOk, if◌then◌else◌, string_bytes};
ghost use Rattle.std.specs.Char.{is_ascii_whitespace};
ghost use Rattle.std.specs.List.{list_all};
ghost use Rattle.std.specs.Option.{option_and_then, option_map, option_map_or};
ghost use Rattle.form_text.specs.Whitespace.{stripped_and_collapsed};
ghost use Rattle.form_tree.specs.Elements.{is_empty_text, is_option, is_select, passes};
ghost use Rattle.form_tree.specs.Selects.{is_disabled_optgroup, is_disabled_option, is_option_of, option_value, select_above, select_of};
ghost use Rattle.form_tree.specs.Tree.{at_key};
ghost use Rattle.form_tree.specs.Value.{value_of};
ghost use Rattle.form_select.specs.Options.{has_empty_value};

use crate::elements::{has_attr, is_optgroup, is_option, is_select};
use form_text::strip_collapse;
use form_tree::{Key, Tree};
use std::alloc::{AllocError, Global};

/// The select that an option belongs to: its parent, or the parent of the optgroup that is its
/// parent; None for an option of no select (HTML, "The select element", "list of options").
pub fn select_of(tree: &Tree, option: Key) -> Option<Key>
    requires { passes is_option tree.now.nodes option ≡ true }
    ensures { result ≡ select_of tree.now.nodes option }
{
    select_above(tree, tree.parent(option))
}

/// Whether the element is one of the options of a select.
pub fn is_option_of(tree: &Tree, select: Key, key: Key) -> bool
    ensures { result ≡ is_option_of tree.now.nodes select key }
{
    if !is_option(tree, key) {
        return false;
    }
    match select_of(tree, key) {
        Some(above) => select.0 == above.0,
        None => false,
    }
}

// The select above an option whose parent this is.
fn select_above(tree: &Tree, up: Option<Key>) -> Option<Key>
    ensures { result ≡ select_above tree.now.nodes up }
{
    let Some(up) = up else {
        return None;
    };
    if is_select(tree, up) {
        return Some(up);
    }
    if !is_optgroup(tree, up) {
        return None;
    }
    if_select(tree, tree.parent(up))
}

// The key, where it is that of a select.
fn if_select(tree: &Tree, top: Option<Key>) -> Option<Key>
    ensures { result ≡ option_and_then (λ top. if passes is_select tree.now.nodes top then Some top else None) top }
{
    match top {
        Some(top) => if is_select(tree, top) {
            Some(top)
        } else {
            None
        },
        None => None,
    }
}

/// Whether an option is disabled: by its own attribute, or by that of an optgroup whose child it
/// is (HTML, "The option element", "concept-option-disabled").
#[tactic(auto, using(crate::proofs::OptionLaws::disabled_parts))]
pub fn option_disabled(tree: &Tree, option: Key) -> bool
    requires { passes is_option tree.now.nodes option ≡ true }
    ensures { result ≡ passes (is_disabled_option tree.now.nodes) tree.now.nodes option }
{
    has_attr(tree, option, "disabled") || is_in_disabled(tree, tree.parent(option))
}

// Whether the parent is an optgroup that is disabled.
fn is_in_disabled(tree: &Tree, up: Option<Key>) -> bool
    ensures { result ≡ option_map_or (passes is_disabled_optgroup tree.now.nodes) up false }
{
    match up {
        Some(up) => is_disabled_optgroup(tree, up),
        None => false,
    }
}

#[tactic(auto, using(crate::proofs::OptionLaws::optgroup_parts))]
fn is_disabled_optgroup(tree: &Tree, key: Key) -> bool
    ensures { result ≡ passes is_disabled_optgroup tree.now.nodes key }
{
    is_optgroup(tree, key) && has_attr(tree, key, "disabled")
}

/// The value of an option: its `value` attribute, or else its text, stripped and collapsed over
/// ASCII whitespace (HTML, "The option element", "concept-option-value").
pub fn option_value(alloc: Global, tree: &Tree, option: Key) -> Result<String, AllocError>
    requires { passes is_option tree.now.nodes option ≡ true }
    ensures option { IfOk result (λ value. option_map option_value (at_key tree.now.nodes option) ≡ Some (string_bytes value)) }
    ensures value { IfOk result (λ value. (names : List (List ℕ)) → value_of names tree.now.nodes option ≡ string_bytes value) }
{
    let value = value_or_text(alloc, tree, option)?;
    Ok(value)
}

fn value_or_text(alloc: Global, tree: &Tree, option: Key) -> Result<String, AllocError>
    requires { passes is_option tree.now.nodes option ≡ true }
    ensures { IfOk result (λ value. option_map option_value (at_key tree.now.nodes option) ≡ Some (string_bytes value)) }
{
    if let Some(value) = tree.attr(option, "value") {
        return String::from_str(alloc, value);
    }
    match tree.text(option) {
        Some(text) => strip_collapse(alloc, text),
        None => Ok(String::new(alloc)),
    }
}

/// Whether the value of an option is empty.
pub fn has_empty_value(tree: &Tree, option: Key) -> bool
    ensures { result ≡ passes has_empty_value tree.now.nodes option }
{
    if let Some(value) = tree.attr(option, "value") {
        return value.is_empty();
    }
    match tree.text(option) {
        Some(text) => is_blank(text),
        None => false,
    }
}

// Whether the text is ASCII whitespace alone.
#[tactic(auto, using(crate::proofs::OptionLaws::blank_text))]
fn is_blank(text: &str) -> bool
    ensures { result ≡ is_empty_text (stripped_and_collapsed text.now) }
{
    are_whitespace(text.as_bytes())
}

fn are_whitespace(bytes: &[u8]) -> bool
    ensures { result ≡ list_all is_ascii_whitespace bytes.now }
{
    for byte in bytes {
        if !byte.is_ascii_whitespace() {
            return false;
        }
    }
    true
}
