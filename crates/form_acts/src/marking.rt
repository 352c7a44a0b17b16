// The acts on checkedness and selectedness.
ghost use Rattle.std.specs.Prelude.{◌≡◌, IfOk, false};
ghost use Rattle.std.specs.Option.{option_map_or};
ghost use Rattle.form_tree.specs.Selects.{is_multiple, select_of};
ghost use Rattle.form_acts.specs.Acts.{after_check, after_pick, after_set_selected, is_picked};
ghost use Rattle.form_drafts.specs.Drafts.{draft_of};

use form_drafts::{
    Draft, is_multiple, is_selected_at, select_of, set_checked, set_selected, settle_select_of,
    take_radio, take_selected,
};
use form_page::Page;
use form_tree::{Key, Tree};
use std::alloc::{AllocError, Global};

/// The checkedness of an input, set by the user or the script.
pub fn check<'a>(alloc: Global, page: &'a Page, key: Key, on: bool) -> Result<Draft<'a>, AllocError>
    ensures { IfOk result (λ draft. draft ≡ draft_of page.now (after_check page.now.tree.nodes key on)) }
{
    let mut draft = Draft::new(alloc, page)?;
    set_checked(&mut draft, key, on)?;
    if !on {
        return Ok(draft);
    }
    take_radio(alloc, &mut draft, key)?;
    Ok(draft)
}

/// The user's choice of an option.
pub fn pick<'a>(alloc: Global, page: &'a Page, key: Key) -> Result<Draft<'a>, AllocError>
    ensures { IfOk result (λ draft. draft ≡ draft_of page.now (after_pick page.now.tree.nodes key)) }
{
    let on = is_picked(page.tree(), key);
    let mut draft = Draft::new(alloc, page)?;
    set_selected(&mut draft, key, on)?;
    take_selected(alloc, &mut draft, key, on)?;
    Ok(draft)
}

// Whether the user's choice selects the option: it is toggled in a `multiple` select.
fn is_picked(tree: &Tree, key: Key) -> bool
    ensures { result ≡ is_picked tree.now.nodes key }
{
    if !is_of_multiple(tree, key) {
        return true;
    }
    !is_selected_at(tree, key)
}

fn is_of_multiple(tree: &Tree, key: Key) -> bool
    ensures { result ≡ option_map_or (is_multiple tree.now.nodes) (select_of tree.now.nodes key) false }
{
    match select_of(tree, key) {
        Some(select) => is_multiple(tree, select),
        None => false,
    }
}

/// The selectedness of an option, set by the script.
pub fn set_selectedness<'a>(
    alloc: Global,
    page: &'a Page,
    key: Key,
    on: bool,
) -> Result<Draft<'a>, AllocError>
    ensures { IfOk result (λ draft. draft ≡ draft_of page.now (after_set_selected page.now.tree.nodes key on)) }
{
    let mut draft = Draft::new(alloc, page)?;
    set_selected(&mut draft, key, on)?;
    take_selected(alloc, &mut draft, key, on)?;
    settle_select_of(alloc, &mut draft, key)?;
    Ok(draft)
}
