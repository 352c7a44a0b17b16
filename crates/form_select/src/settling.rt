// The selectedness setting algorithm.
ghost use Rattle.std.specs.Prelude.{◌≡◌, ◌∷◌, ◌++◌, [], Some, true, not, filter, find, map, reverse, IfOk, OnOk};
ghost use Rattle.std.specs.Option.{option_map, option_map_or};
ghost use Rattle.form_tree.specs.Elements.{is_option, is_select, passes};
ghost use Rattle.form_tree.specs.Selects.{marked_option, options, settled, settled_options};
ghost use Rattle.form_tree.specs.Tree.{at_key};
ghost use Rattle.form_select.specs.Options.{options_at};

use crate::options::option_disabled;
use crate::selects::{display_size, is_multiple, is_selected};
use crate::walk::{descendants, option_at};
use form_tree::{Key, Tree};
use std::alloc::{AllocError, Global};

/// The options of a select that are selected after the selectedness setting algorithm, in tree
/// order (HTML, "The select element", "selectedness setting algorithm"). The tree is not changed.
pub fn settled(alloc: Global, tree: &Tree, select: Key) -> Result<Vec<Key>, AllocError>
    requires { passes is_select tree.now.nodes select ≡ true }
    ensures { IfOk result (λ selected. selected.items ≡ settled tree.now.nodes select) }
{
    let options = marked_options(alloc, tree, select)?;
    settle(
        alloc,
        is_multiple(tree, select),
        display_size(tree, select),
        &options,
    )
}

/// The same over a list of options in tree order, each with its key, whether it is disabled and
/// whether it is selected, for a select with that `multiple` and that display size.
pub fn settle(
    alloc: Global,
    multiple: bool,
    size: u32,
    options: &[(Key, bool, bool)],
) -> Result<Vec<Key>, AllocError>
    ensures { IfOk result (λ selected. selected.items ≡ settled_options multiple size options.now) }
{
    if multiple {
        return selected_keys(alloc, options);
    }
    if let Some(last) = last_selected(options) {
        return one_or_none(alloc, Some(last));
    }
    if size == 1 {
        return one_or_none(alloc, first_enabled(options));
    }
    Ok(Vec::new(alloc))
}

fn one_or_none(alloc: Global, key: Option<Key>) -> Result<Vec<Key>, AllocError>
    ensures { IfOk result (λ keys. keys.items ≡ option_map_or (λ key. key ∷ []) key []) }
{
    match key {
        Some(key) => Ok(vec![in alloc; key]?),
        None => Ok(Vec::new(alloc)),
    }
}

// The keys of the options that are selected.
fn selected_keys(alloc: Global, options: &[(Key, bool, bool)]) -> Result<Vec<Key>, AllocError>
    ensures { IfOk result (λ keys. keys.items ≡ map (λ o. o.0) (filter (λ o. o.2) options.now)) }
{
    let mut keys = Vec::new(alloc);
    for option in options {
        if option.2 {
            keys.push(option.0)?;
        }
    }
    Ok(keys)
}

// The last option that is selected.
fn last_selected(options: &[(Key, bool, bool)]) -> Option<Key>
    ensures { result ≡ option_map (λ o. o.0) (find (λ o. o.2) (reverse options.now)) }
{
    let mut last = None;
    for option in options {
        if option.2 {
            last = Some(option.0);
        }
    }
    last
}

// The first option that is not disabled.
fn first_enabled(options: &[(Key, bool, bool)]) -> Option<Key>
    ensures { result ≡ option_map (λ o. o.0) (find (λ o. not o.1) options.now) }
{
    for option in options {
        if !option.1 {
            return Some(option.0);
        }
    }
    None
}

// The options of a select, each with whether it is disabled and whether it is selected.
fn marked_options(
    alloc: Global,
    tree: &Tree,
    select: Key,
) -> Result<Vec<(Key, bool, bool)>, AllocError>
    requires { passes is_select tree.now.nodes select ≡ true }
    ensures { IfOk result (λ marked. marked.items ≡ map (marked_option tree.now.nodes) (options tree.now.nodes select)) }
{
    let span = descendants(tree, select);
    let mut marked = Vec::new(alloc);
    for place in span.start..span.end {
        push_option(&mut marked, tree, select, place)?;
    }
    Ok(marked)
}

// Puts the option at a place last, if one is there.
fn push_option(
    marked: &mut Vec<(Key, bool, bool)>,
    tree: &Tree,
    select: Key,
    place: usize,
) -> Result<(), AllocError>
    ensures { OnOk result (marked.new.items ≡ marked.old.items ++ map (marked_option tree.now.nodes) (options_at tree.now.nodes select place)) }
{
    if let Some(option) = option_at(tree, select, place) {
        marked.push(marked_option(tree, option))?;
    }
    Ok(())
}

// The option as the algorithm sees it.
#[tactic(auto, using(crate::proofs::OptionLaws::marked_parts))]
fn marked_option(tree: &Tree, option: Key) -> (Key, bool, bool)
    requires { passes is_option tree.now.nodes option ≡ true }
    ensures { option_map (marked_option tree.now.nodes) (at_key tree.now.nodes option) ≡ Some result }
{
    (
        option,
        option_disabled(tree, option),
        is_selected(tree, option),
    )
}
