// A change of `selected`, or of an attribute of a select: `multiple` and `size`.
ghost use Rattle.std.specs.Prelude.{◌≡◌, IfOk, is_some};
ghost use Rattle.form_tree.specs.Elements.{passes};
ghost use Rattle.form_tree.specs.Tree.{with_node};
ghost use Rattle.form_changes.specs.declared.role.Role.TheVariants as roles;
ghost use Rattle.form_acts.specs.Acts.{after_change};
ghost use Rattle.form_changes.specs.Changing.{changed_attr, follows_selected};
ghost use Rattle.form_drafts.specs.Drafts.{draft_of};

use crate::attributes::set_attr;
use form_changes::{follows_selected, with_selected};
use form_drafts::{Draft, settle, settle_select_of, take_selected};
use form_page::Page;
use form_text::Text;
use form_tree::{Key, Tree};
use std::alloc::{AllocError, Global};

/// An option that the attribute selects or unselects, and its select.
pub fn change_selected<'a>(
    alloc: Global,
    page: &'a Page,
    key: Key,
    name: &Text,
    value: &Option<Text>,
) -> Result<Draft<'a>, AllocError>
    ensures { IfOk result (λ draft.
        draft ≡ draft_of page.now (after_change roles.Selected page.now.tree.nodes key name.now value.now)) }
{
    let mut draft = set_selected(alloc, page, key, name, value)?;
    let there = value.is_some();
    if !follows_selected_at(page.tree(), key, value) {
        return Ok(draft);
    }
    take_selected(alloc, &mut draft, key, there)?;
    settle_select_of(alloc, &mut draft, key)?;
    Ok(draft)
}

// The attribute, and the selectedness that follows it.
fn set_selected<'a>(
    alloc: Global,
    page: &'a Page,
    key: Key,
    name: &Text,
    value: &Option<Text>,
) -> Result<Draft<'a>, AllocError>
    ensures { IfOk result (λ draft. draft ≡ draft_of page.now
        (with_node page.now.tree.nodes key (changed_attr roles.Selected name.now value.now))) }
{
    let mut draft = set_attr(alloc, page, key, name, value)?;
    let Some(node) = page.tree().node(key) else {
        return Ok(draft);
    };
    let there = value.is_some();
    if !follows_selected(node, there) {
        return Ok(draft);
    }
    let state = with_selected(node, there)?;
    draft.put(key, state)?;
    Ok(draft)
}

fn follows_selected_at(tree: &Tree, key: Key, value: &Option<Text>) -> bool
    ensures { result ≡ passes (follows_selected (is_some value.now)) tree.now.nodes key }
{
    match tree.node(key) {
        Some(node) => follows_selected(node, value.is_some()),
        None => false,
    }
}

/// The options of the select itself.
pub fn change_size<'a>(
    alloc: Global,
    page: &'a Page,
    key: Key,
    name: &Text,
    value: &Option<Text>,
) -> Result<Draft<'a>, AllocError>
    ensures { IfOk result (λ draft.
        draft ≡ draft_of page.now (after_change roles.Size page.now.tree.nodes key name.now value.now)) }
{
    let mut draft = set_attr(alloc, page, key, name, value)?;
    settle(alloc, &mut draft, key)?;
    Ok(draft)
}
