// The options of a select after a change of selectedness (HTML, "The select element").
ghost use Rattle.std.specs.Prelude.{◌≡◌, ◌==◌, IfOk, OnOk, codes, false, find, map, not, reverse, if◌then◌else◌};
ghost use Rattle.std.specs.Option.{option_and_then, option_map_or};
ghost use Rattle.form_text.specs.Integers.{non_negative_integer};
ghost use Rattle.form_tree.specs.Elements.{passes};
ghost use Rattle.form_tree.specs.Selects.{display_size, is_disabled_optgroup, is_disabled_option, is_multiple, is_option_of, is_selected, options, select_of};
ghost use Rattle.form_tree.specs.Tree.{attr_of, with_node};
ghost use Rattle.form_page.specs.Settling.{not_selected, now_selected, with_selectedness, with_selection};
ghost use Rattle.form_drafts.specs.Drafts.{with_each, with_first_of, with_select_of, with_selected};

use crate::draft::Draft;
use crate::elements::{is_disabled_optgroup, is_select_at, select_of};
use crate::radios::others_of;
use form_changes::with_selected;
use form_select::{elements_behind, is_option_of};
use form_text::parse_nonneg;
use form_tree::{Key, Node, Tree};
use std::alloc::{AllocError, Global};

/// An option that was selected unselects the others of its select, where that is not `multiple`;
/// one that was not selected changes nothing further.
pub fn take_selected(
    alloc: Global,
    draft: &mut Draft<'_>,
    key: Key,
    on: bool,
) -> Result<(), AllocError>
    ensures { OnOk result (draft.new ≡ record draft.old { nodes = with_selected draft.old.nodes key on }) }
{
    if !on {
        return Ok(());
    }
    take_selection(alloc, draft, key)
}

// The select of an option so far: that of the page.
fn select_so_far(draft: &Draft<'_>, key: Key) -> Option<Key>
    ensures { result ≡ select_of draft.now.nodes key }
{
    select_of(draft.page().tree(), key)
}

fn is_multiple_so_far(draft: &Draft<'_>, select: Key) -> bool
    ensures { result ≡ is_multiple draft.now.nodes select }
{
    match draft.node(select) {
        Some(node) => node.has_attr("multiple"),
        None => false,
    }
}

fn take_selection(alloc: Global, draft: &mut Draft<'_>, key: Key) -> Result<(), AllocError>
    ensures { OnOk result (draft.new ≡ record draft.old { nodes = with_selection draft.old.nodes key }) }
{
    let Some(select) = select_so_far(draft, key) else {
        return Ok(());
    };
    if is_multiple_so_far(draft, select) {
        return Ok(());
    }
    let options = options_so_far(alloc, draft, select)?;
    let others = others_of(alloc, &options, key)?;
    unselect_all(draft, &others)
}

/// The selectedness setting algorithm for the select of an option.
pub fn settle_select_of(alloc: Global, draft: &mut Draft<'_>, key: Key) -> Result<(), AllocError>
    ensures { OnOk result (draft.new ≡ record draft.old { nodes = with_select_of draft.old.nodes key }) }
{
    match select_so_far(draft, key) {
        Some(select) => settle(alloc, draft, select),
        None => Ok(()),
    }
}

/// The selectedness setting algorithm for one select; nothing, for another element.
pub fn settle(alloc: Global, draft: &mut Draft<'_>, select: Key) -> Result<(), AllocError>
    ensures { OnOk result (draft.new ≡ record draft.old { nodes = with_selectedness draft.old.nodes select }) }
{
    draft.page();
    if is_multiple_so_far(draft, select) {
        return Ok(());
    }
    if !is_select_at(draft, select) {
        return Ok(());
    }
    let options = options_so_far(alloc, draft, select)?;
    let last = last_selected(draft, &options);
    match last {
        Some(last) => {
            let others = others_of(alloc, &options, last)?;
            unselect_all(draft, &others)
        }
        None => settle_none(draft, select, &options),
    }
}

// Where no option is selected: in a select of one line the first that is not disabled is.
fn settle_none(draft: &mut Draft<'_>, select: Key, options: &[Key]) -> Result<(), AllocError>
    ensures { OnOk result (draft.new ≡ record draft.old {
      nodes = if display_size draft.old.nodes select == 1
          then with_first_of draft.old.nodes options.now else draft.old.nodes;
    }) }
{
    if !is_one_line(draft, select) {
        return Ok(());
    }
    select_first(draft, options)
}

fn is_one_line(draft: &Draft<'_>, select: Key) -> bool
    ensures { result ≡ (display_size draft.now.nodes select == 1) }
{
    display_size(draft, select) == 1
}

// The display size of a select (HTML, "The select element", "display size").
fn display_size(draft: &Draft<'_>, select: Key) -> u32
    ensures { result ≡ display_size draft.now.nodes select }
{
    if let Some(size) = size_attr(draft, select) {
        return size;
    }
    if is_multiple_so_far(draft, select) {
        return 4;
    }
    1
}

fn size_attr(draft: &Draft<'_>, select: Key) -> Option<u32>
    ensures { result ≡ option_and_then non_negative_integer (attr_of draft.now.nodes select (codes "size")) }
{
    match draft.attr(select, "size") {
        Some(size) => parse_nonneg(size),
        None => None,
    }
}

// Selects the first of these options that is not disabled.
fn select_first(draft: &mut Draft<'_>, options: &[Key]) -> Result<(), AllocError>
    ensures { OnOk result (draft.new ≡ record draft.old { nodes = with_first_of draft.old.nodes options.now }) }
{
    match first_enabled(draft, options) {
        Some(first) => mark_selected(draft, first),
        None => Ok(()),
    }
}

/// The keys of the options of a select so far, in tree order: they are those of the page.
pub fn options_so_far(alloc: Global, draft: &Draft<'_>, select: Key) -> Result<Vec<Key>, AllocError>
    ensures { IfOk result (λ keys. keys.items ≡ map (λ n. n.key) (options draft.now.nodes select)) }
{
    options_of(alloc, draft.page().tree(), select)
}

fn options_of(alloc: Global, tree: &Tree, select: Key) -> Result<Vec<Key>, AllocError>
    ensures { IfOk result (λ keys. keys.items ≡ map (λ n. n.key) (options tree.now.nodes select)) }
{
    let nodes = elements_behind(tree, select);
    let mut keys = Vec::new(alloc);
    for node in nodes {
        if is_option_of(tree, select, node.key) {
            keys.push(node.key)?;
        }
    }
    Ok(keys)
}

// The last of these options that is selected.
fn last_selected(draft: &Draft<'_>, options: &[Key]) -> Option<Key>
    ensures { result ≡ find (passes is_selected draft.now.nodes) (reverse options.now) }
{
    let mut last = None;
    for key in options {
        if is_selected_so_far(draft, *key) {
            last = Some(*key);
        }
    }
    last
}

/// Whether the element of a key is selected.
pub fn is_selected_at(tree: &Tree, key: Key) -> bool
    ensures { result ≡ passes is_selected tree.now.nodes key }
{
    match tree.state(key) {
        Some(state) => state.selected,
        None => false,
    }
}

fn is_selected_so_far(draft: &Draft<'_>, key: Key) -> bool
    ensures { result ≡ passes is_selected draft.now.nodes key }
{
    match draft.node(key) {
        Some(node) => is_selected(node),
        None => false,
    }
}

// The first of these options that is not disabled.
fn first_enabled(draft: &Draft<'_>, options: &[Key]) -> Option<Key>
    ensures { result ≡ find (λ k. not (passes (is_disabled_option draft.now.nodes) draft.now.nodes k)) options.now }
{
    for key in options {
        if !is_disabled_option_at(draft, *key) {
            return Some(*key);
        }
    }
    None
}

fn is_disabled_option_at(draft: &Draft<'_>, key: Key) -> bool
    ensures { result ≡ passes (is_disabled_option draft.now.nodes) draft.now.nodes key }
{
    match draft.node(key) {
        Some(node) => node.has_attr("disabled") || is_in_disabled(draft, node.parent),
        None => false,
    }
}

fn is_in_disabled(draft: &Draft<'_>, up: Option<Key>) -> bool
    ensures { result ≡ option_map_or (passes is_disabled_optgroup draft.now.nodes) up false }
{
    match up {
        Some(up) => is_disabled_optgroup_at(draft, up),
        None => false,
    }
}

fn is_disabled_optgroup_at(draft: &Draft<'_>, key: Key) -> bool
    ensures { result ≡ passes is_disabled_optgroup draft.now.nodes key }
{
    match draft.node(key) {
        Some(node) => is_disabled_optgroup(node),
        None => false,
    }
}

fn unselect_all(draft: &mut Draft<'_>, keys: &[Key]) -> Result<(), AllocError>
    ensures { OnOk result (draft.new ≡ record draft.old { nodes = with_each not_selected draft.old.nodes keys.now }) }
{
    for key in keys {
        unselect(draft, *key)?;
    }
    Ok(())
}

fn unselect(draft: &mut Draft<'_>, key: Key) -> Result<(), AllocError>
    ensures { OnOk result (draft.new ≡ record draft.old { nodes = with_node draft.old.nodes key not_selected }) }
{
    let Some(node) = draft.node(key) else {
        return Ok(());
    };
    if !is_selected(node) {
        return Ok(());
    }
    let state = with_selected(node, false)?;
    draft.put(key, state)
}

fn is_selected(node: &Node) -> bool
    ensures { result ≡ is_selected node.now }
{
    node.state.selected
}

fn mark_selected(draft: &mut Draft<'_>, key: Key) -> Result<(), AllocError>
    ensures { OnOk result (draft.new ≡ record draft.old { nodes = with_node draft.old.nodes key now_selected }) }
{
    let Some(node) = draft.node(key) else {
        return Ok(());
    };
    let state = with_selected(node, true)?;
    draft.put(key, state)
}
