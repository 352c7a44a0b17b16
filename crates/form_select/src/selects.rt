// What a select is.
ghost use Rattle.std.specs.Prelude.{◌≡◌, IfOk, IfSome, codes, false, find, true};
ghost use Rattle.std.specs.List.{list_any, slice_get};
ghost use Rattle.std.specs.Option.{option_and_then, option_map_or};
ghost use Rattle.form_text.specs.Integers.{non_negative_integer};
ghost use Rattle.form_tree.specs.Elements.{is_option, is_select, passes, same_key};
ghost use Rattle.form_tree.specs.Selects.{display_size, is_choice_made, is_multiple, is_select_missing, is_selected, key_if_placeholder, may_have_placeholder, options, placeholder};
ghost use Rattle.form_tree.specs.Tree.{at_key, attr_of};
ghost use Rattle.form_tree.specs.Value.{select_value};
ghost use Rattle.form_select.specs.Options.{options_at};

use crate::elements::{has_attr, is_child_of};
use crate::options::{has_empty_value, option_value};
use crate::walk::{descendants, option_at};
use form_text::{Text, parse_nonneg};
use form_tree::{Key, Tree};
use std::alloc::{AllocError, Global};

// The display size of a select without a `size`.
const SIZE_OF_ONE_CHOICE: u32 = 1;

const SIZE_OF_MULTIPLE: u32 = 4;

/// Whether more than one option of the select may be selected.
pub fn is_multiple(tree: &Tree, select: Key) -> bool
    ensures { result ≡ is_multiple tree.now.nodes select }
{
    has_attr(tree, select, "multiple")
}

/// The display size of a select, in options: its `size` where that reads as a non-negative integer,
/// 0 and numbers up to 4,294,967,295 among them, else 4 with `multiple` and 1 without (HTML, "The
/// select element", "display size").
pub fn display_size(tree: &Tree, select: Key) -> u32
    requires { passes is_select tree.now.nodes select ≡ true }
    ensures { result ≡ display_size tree.now.nodes select }
{
    if let Some(size) = size_attr(tree, select) {
        return size;
    }
    if is_multiple(tree, select) {
        return SIZE_OF_MULTIPLE;
    }
    SIZE_OF_ONE_CHOICE
}

fn size_attr(tree: &Tree, select: Key) -> Option<u32>
    ensures { result ≡ option_and_then non_negative_integer (attr_of tree.now.nodes select (codes "size")) }
{
    match tree.attr(select, "size") {
        Some(size) => parse_nonneg(size),
        None => None,
    }
}

/// The placeholder label option of a select: its first option, where the select is required, not
/// `multiple` and of display size 1, and the option has an empty value and is a child of the select
/// itself; None else (HTML, "The select element", "placeholder label option").
pub fn placeholder(tree: &Tree, select: Key) -> Option<Key>
    requires { passes is_select tree.now.nodes select ≡ true }
    ensures { result ≡ placeholder tree.now.nodes select }
{
    if !may_have_placeholder(tree, select) {
        return None;
    }
    match first_option(tree, select) {
        Some(first) => if_placeholder(tree, select, first),
        None => None,
    }
}

fn may_have_placeholder(tree: &Tree, select: Key) -> bool
    requires { passes is_select tree.now.nodes select ≡ true }
    ensures { result ≡ may_have_placeholder tree.now.nodes select }
{
    if !has_attr(tree, select, "required") {
        return false;
    }
    !is_multiple(tree, select) && display_size(tree, select) == 1
}

// The first of the select's options.
fn first_option(tree: &Tree, select: Key) -> Option<Key>
    requires { passes is_select tree.now.nodes select ≡ true }
    ensures { slice_get (options tree.now.nodes select) 0 ≡ option_and_then (at_key tree.now.nodes) result }
{
    let span = descendants(tree, select);
    for place in span.start..span.end {
        if let Some(option) = option_at(tree, select, place) {
            return Some(option);
        }
    }
    None
}

// The first option, where it is a placeholder.
#[tactic(auto, using(crate::proofs::OptionLaws::placeholder_parts))]
fn if_placeholder(tree: &Tree, select: Key, first: Key) -> Option<Key>
    ensures { result ≡ option_and_then (key_if_placeholder select) (at_key tree.now.nodes first) }
{
    if has_empty_value(tree, first) && is_child_of(tree, first, select) {
        return Some(first);
    }
    None
}

/// Whether a select suffers from being missing: it is required, and none of its options is selected
/// but the placeholder label option (HTML, "The select element", the `required` attribute).
pub fn missing(tree: &Tree, select: Key) -> bool
    requires { passes is_select tree.now.nodes select ≡ true }
    ensures { result ≡ is_select_missing tree.now.nodes select }
{
    if !has_attr(tree, select, "required") {
        return false;
    }
    let placeholder = placeholder(tree, select);
    !has_choice(tree, select, placeholder)
}

// Whether an option of the select is selected that is not the placeholder.
fn has_choice(tree: &Tree, select: Key, placeholder: Option<Key>) -> bool
    requires { passes is_select tree.now.nodes select ≡ true }
    ensures { result ≡ list_any (is_choice_made placeholder) (options tree.now.nodes select) }
{
    let span = descendants(tree, select);
    for place in span.start..span.end {
        if is_choice_at(tree, select, placeholder, place) {
            return true;
        }
    }
    false
}

// Whether the option at a place, if one is there, is selected and not the placeholder.
fn is_choice_at(tree: &Tree, select: Key, placeholder: Option<Key>, place: usize) -> bool
    ensures { result ≡ list_any (is_choice_made placeholder) (options_at tree.now.nodes select place) }
{
    match option_at(tree, select, place) {
        Some(option) => is_choice(tree, placeholder, option),
        None => false,
    }
}

// Whether an option is selected and not the placeholder.
#[tactic(auto, using(crate::proofs::OptionLaws::choice_parts))]
fn is_choice(tree: &Tree, placeholder: Option<Key>, option: Key) -> bool
    ensures { result ≡ passes (is_choice_made placeholder) tree.now.nodes option }
{
    is_selected(tree, option) && !is_that(placeholder, option)
}

/// The first option of a select that is selected; None where none is.
pub fn first_selected(tree: &Tree, select: Key) -> Option<Key>
    requires { passes is_select tree.now.nodes select ≡ true }
    ensures value { find is_selected (options tree.now.nodes select) ≡ option_and_then (at_key tree.now.nodes) result }
    ensures option { IfSome result (λ key. passes is_option tree.now.nodes key ≡ true) }
{
    let span = descendants(tree, select);
    for place in span.start..span.end {
        if let Some(option) = selected_at(tree, select, place) {
            return Some(option);
        }
    }
    None
}

// The option at a place, where one is there and is selected.
fn selected_at(tree: &Tree, select: Key, place: usize) -> Option<Key>
    ensures value { find is_selected (options_at tree.now.nodes select place) ≡ option_and_then (at_key tree.now.nodes) result }
    ensures option { IfSome result (λ key. passes is_option tree.now.nodes key ≡ true) }
{
    match option_at(tree, select, place) {
        Some(option) => if is_selected(tree, option) {
            Some(option)
        } else {
            None
        },
        None => None,
    }
}

/// The value of a select: that of its first selected option, and empty where none is selected (HTML,
/// "The select element", "value").
pub fn select_value(alloc: Global, tree: &Tree, select: Key) -> Result<Text, AllocError>
    requires { passes is_select tree.now.nodes select ≡ true }
    ensures { IfOk result (λ value. value ≡ select_value tree.now.nodes select) }
{
    match first_selected(tree, select) {
        Some(option) => {
            let value = option_value(alloc, tree, option)?;
            Ok(Text::from_string(value))
        }
        None => Ok(Text::from_string(String::new(alloc))),
    }
}

/// Whether the option is selected.
pub fn is_selected(tree: &Tree, option: Key) -> bool
    ensures { result ≡ passes is_selected tree.now.nodes option }
{
    match tree.state(option) {
        Some(state) => state.selected,
        None => false,
    }
}

// Whether the key is the one that there may be.
fn is_that(known: Option<Key>, key: Key) -> bool
    ensures { result ≡ option_map_or (same_key key) known false }
{
    match known {
        Some(known) => key.0 == known.0,
        None => false,
    }
}
