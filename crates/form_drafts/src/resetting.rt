// Resetting a form (HTML, "Resetting a form").
ghost use Rattle.std.specs.Prelude.{◌≡◌, IfOk, OnOk, fold};
ghost use Rattle.form_tree.specs.Elements.{is_resettable, is_textarea, passes};
ghost use Rattle.form_tree.specs.Tree.{with_node};
ghost use Rattle.form_page.specs.Settling.{with_selectedness};
ghost use Rattle.form_drafts.specs.Drafts.{AreLike, draft_of, with_each};
ghost use Rattle.form_drafts.specs.Resetting.{after_reset, reset_input, reset_option, reset_textarea, resettables, with_options_reset, with_reset};
ghost use Rattle.form_changes.specs.Values.{with_value};

use crate::draft::Draft;
use crate::elements::is_select_at;
use crate::options::{options_so_far, settle};
use crate::radios::take_radio;
use crate::reset_states;
use form_changes::{has_kept_value, is_textarea, sanitised};
use form_page::Page;
use form_tree::{Key, Node, Tag};
use std::alloc::{AllocError, Global};

/// Each resettable element of a form reset, in tree order.
pub fn reset<'a>(alloc: Global, page: &'a Page, form: Key) -> Result<Draft<'a>, AllocError>
    ensures { IfOk result (λ draft. draft ≡ draft_of page.now (after_reset page.now.tree.nodes form)) }
{
    let keys = resettables(alloc, page, form)?;
    let mut draft = Draft::new(alloc, page)?;
    reset_all(alloc, &mut draft, &keys)?;
    Ok(draft)
}

// The resettable elements of a form, in tree order.
fn resettables(alloc: Global, page: &Page, form: Key) -> Result<Vec<Key>, AllocError>
    ensures { IfOk result (λ keys. keys.items ≡ resettables page.now.tree.nodes form) }
{
    page.tree().len();
    let owned = page.owned(form);
    let mut keys = Vec::new(alloc);
    for key in owned {
        if is_resettable_at(page, *key) {
            keys.push(*key)?;
        }
    }
    Ok(keys)
}

fn is_resettable_at(page: &Page, key: Key) -> bool
    ensures { result ≡ passes is_resettable page.now.tree.nodes key }
{
    match page.tree().tag(key) {
        Some(tag) => matches!(tag, Tag::Input | Tag::Select | Tag::Textarea),
        None => false,
    }
}

fn reset_all(alloc: Global, draft: &mut Draft<'_>, keys: &[Key]) -> Result<(), AllocError>
    requires { AreLike draft.old.nodes draft.old.page.tree.nodes }
    ensures { OnOk result (draft.new ≡ record draft.old { nodes = fold with_reset draft.old.nodes keys.now }) }
{
    for key in keys {
        reset_one(alloc, draft, *key)?;
    }
    Ok(())
}

// One control; its custom message stays.
fn reset_one(alloc: Global, draft: &mut Draft<'_>, key: Key) -> Result<(), AllocError>
    requires { AreLike draft.old.nodes draft.old.page.tree.nodes }
    ensures { OnOk result (draft.new ≡ record draft.old { nodes = with_reset draft.old.nodes key }) }
{
    if is_select_at(draft, key) {
        return reset_select(alloc, draft, key);
    }
    if is_textarea_at(draft, key) {
        return reset_textarea(alloc, draft, key);
    }
    reset_input(alloc, draft, key)?;
    take_radio(alloc, draft, key)?;
    sanitise(alloc, draft, key)
}

fn is_textarea_at(draft: &Draft<'_>, key: Key) -> bool
    ensures { result ≡ passes is_textarea draft.now.nodes key }
{
    match draft.node(key) {
        Some(node) => is_textarea(node),
        None => false,
    }
}

fn reset_select(alloc: Global, draft: &mut Draft<'_>, select: Key) -> Result<(), AllocError>
    ensures { OnOk result (draft.new ≡ record draft.old {
      nodes = with_selectedness (with_options_reset draft.old.nodes select) select;
    }) }
{
    let options = options_so_far(alloc, draft, select)?;
    reset_options(draft, &options)?;
    settle(alloc, draft, select)
}

fn reset_options(draft: &mut Draft<'_>, options: &[Key]) -> Result<(), AllocError>
    ensures { OnOk result (draft.new ≡ record draft.old { nodes = with_each reset_option draft.old.nodes options.now }) }
{
    for key in options {
        reset_option(draft, *key)?;
    }
    Ok(())
}

fn reset_option(draft: &mut Draft<'_>, key: Key) -> Result<(), AllocError>
    ensures { OnOk result (draft.new ≡ record draft.old { nodes = with_node draft.old.nodes key reset_option }) }
{
    let Some(node) = draft.node(key) else {
        return Ok(());
    };
    let state = reset_states::reset_option(node)?;
    draft.put(key, state)
}

fn reset_textarea(alloc: Global, draft: &mut Draft<'_>, key: Key) -> Result<(), AllocError>
    ensures { OnOk result (draft.new ≡ record draft.old { nodes = with_node draft.old.nodes key reset_textarea }) }
{
    let Some(node) = draft.node(key) else {
        return Ok(());
    };
    let state = reset_states::reset_textarea(alloc, node)?;
    draft.put(key, state)
}

fn reset_input(alloc: Global, draft: &mut Draft<'_>, key: Key) -> Result<(), AllocError>
    ensures { OnOk result (draft.new ≡ record draft.old { nodes = with_node draft.old.nodes key reset_input }) }
{
    let Some(node) = draft.node(key) else {
        return Ok(());
    };
    let state = reset_states::reset_input(alloc, node)?;
    draft.put(key, state)
}

/// The value of one control sanitised, where it is an input in the mode value.
pub fn sanitise(alloc: Global, draft: &mut Draft<'_>, key: Key) -> Result<(), AllocError>
    ensures { OnOk result (draft.new ≡ record draft.old { nodes = with_value draft.old.nodes key }) }
{
    let Some(node) = draft.node(key) else {
        return Ok(());
    };
    if !has_kept_value(node) {
        return Ok(());
    }
    let state = sanitised(alloc, node)?;
    draft.put(key, state)
}
