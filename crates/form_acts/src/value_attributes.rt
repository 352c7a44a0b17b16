// A change of the `value` attribute, or of what limits a value.
ghost use Rattle.std.specs.Prelude.{◌≡◌, ◌||◌, IfOk, unwrap_or, []};
ghost use Rattle.form_tree.specs.Elements.{passes};
ghost use Rattle.form_tree.specs.Tree.{with_node};
ghost use Rattle.form_changes.specs.declared.role.Role.TheVariants as roles;
ghost use Rattle.form_acts.specs.Acts.{after_change};
ghost use Rattle.form_changes.specs.Changing.{changed_attr, follows_value};
ghost use Rattle.form_drafts.specs.Drafts.{draft_of};
ghost use Rattle.form_changes.specs.Values.{is_range};

use crate::attributes::set_attr;
use form_changes::{follows_value, is_range, with_value_text};
use form_drafts::{Draft, sanitise};
use form_page::Page;
use form_text::Text;
use form_tree::{Key, Tree};
use std::alloc::{AllocError, Global};

/// The `value` attribute, and the value that follows it or is sanitised again.
pub fn change_value<'a>(
    alloc: Global,
    page: &'a Page,
    key: Key,
    name: &Text,
    value: &Option<Text>,
) -> Result<Draft<'a>, AllocError>
    ensures { IfOk result (λ draft.
        draft ≡ draft_of page.now (after_change roles.Value page.now.tree.nodes key name.now value.now)) }
{
    let mut draft = set_value(alloc, page, key, name, value)?;
    if !is_value_seen(page.tree(), key) {
        return Ok(draft);
    }
    sanitise(alloc, &mut draft, key)?;
    Ok(draft)
}

// The attribute, and the value that follows it.
fn set_value<'a>(
    alloc: Global,
    page: &'a Page,
    key: Key,
    name: &Text,
    value: &Option<Text>,
) -> Result<Draft<'a>, AllocError>
    ensures { IfOk result (λ draft. draft ≡ draft_of page.now
        (with_node page.now.tree.nodes key (changed_attr roles.Value name.now value.now))) }
{
    let mut draft = set_attr(alloc, page, key, name, value)?;
    let Some(node) = page.tree().node(key) else {
        return Ok(draft);
    };
    if !follows_value(node) {
        return Ok(draft);
    }
    let text = text_or_empty(alloc, value)?;
    let state = with_value_text(node, text)?;
    draft.put(key, state)?;
    Ok(draft)
}

fn text_or_empty(alloc: Global, value: &Option<Text>) -> Result<Text, AllocError>
    ensures { IfOk result (λ text. text ≡ unwrap_or value.now []) }
{
    match value {
        Some(value) => value.clone(),
        None => Ok(Text::from_string(String::new(alloc))),
    }
}

// Whether the value is one that follows the attribute, or that of the state range.
fn is_value_seen(tree: &Tree, key: Key) -> bool
    ensures { result ≡ passes (λ n. follows_value n || is_range n) tree.now.nodes key }
{
    match tree.node(key) {
        Some(node) => follows_value(node) || is_range(node),
        None => false,
    }
}

/// The value of the state range is sanitised again.
pub fn change_limit<'a>(
    alloc: Global,
    page: &'a Page,
    key: Key,
    name: &Text,
    value: &Option<Text>,
) -> Result<Draft<'a>, AllocError>
    ensures { IfOk result (λ draft.
        draft ≡ draft_of page.now (after_change roles.Limit page.now.tree.nodes key name.now value.now)) }
{
    let mut draft = set_attr(alloc, page, key, name, value)?;
    if !is_range_at(page.tree(), key) {
        return Ok(draft);
    }
    sanitise(alloc, &mut draft, key)?;
    Ok(draft)
}

fn is_range_at(tree: &Tree, key: Key) -> bool
    ensures { result ≡ passes is_range tree.now.nodes key }
{
    match tree.node(key) {
        Some(node) => is_range(node),
        None => false,
    }
}
