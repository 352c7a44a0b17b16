// The acts that change one element alone, and the withdrawal of a file.
ghost use Rattle.std.specs.Prelude.{◌≡◌, ◌==◌, ◌&&◌, not, IfOk, OnOk};
ghost use Rattle.std.specs.List.{list_any};
ghost use Rattle.form_tree.specs.Elements.{is_textarea};
ghost use Rattle.form_tree.specs.Tree.{with_node};
ghost use Rattle.form_acts.specs.Acts.{after_choose, after_custom, after_set, after_text, after_user, after_withdraw};
ghost use Rattle.form_changes.specs.Changing.{without_file_number};
ghost use Rattle.form_drafts.specs.Drafts.{draft_of};

use form_changes::{
    chosen, given, is_given_by_attr, is_textarea, typed, with_message, with_value_text,
    without_file_number,
};
use form_drafts::Draft;
use form_page::Page;
use form_text::{Sequence, Text};
use form_tree::{Key, Node};
use std::alloc::{AllocError, Global};

/// The user's text.
pub fn user<'a>(
    alloc: Global,
    page: &'a Page,
    key: Key,
    text: &str,
) -> Result<Draft<'a>, AllocError>
    ensures { IfOk result (λ draft. draft ≡ draft_of page.now (after_user page.now.tree.nodes key text.now)) }
{
    let mut draft = Draft::new(alloc, page)?;
    let Some(node) = page.tree().node(key) else {
        return Ok(draft);
    };
    let state = typed(alloc, node, text)?;
    draft.put(key, state)?;
    Ok(draft)
}

/// The custom validity message.
pub fn custom<'a>(
    alloc: Global,
    page: &'a Page,
    key: Key,
    text: &Text,
) -> Result<Draft<'a>, AllocError>
    ensures { IfOk result (λ draft. draft ≡ draft_of page.now (after_custom page.now.tree.nodes key text.now)) }
{
    let mut draft = Draft::new(alloc, page)?;
    let Some(node) = page.tree().node(key) else {
        return Ok(draft);
    };
    let state = with_message(node, text)?;
    draft.put(key, state)?;
    Ok(draft)
}

/// The user's files.
pub fn choose<'a>(
    alloc: Global,
    page: &'a Page,
    key: Key,
    files: &Sequence<u32>,
) -> Result<Draft<'a>, AllocError>
    ensures { IfOk result (λ draft. draft ≡ draft_of page.now (after_choose page.now.tree.nodes key files.now)) }
{
    let mut draft = Draft::new(alloc, page)?;
    let Some(node) = page.tree().node(key) else {
        return Ok(draft);
    };
    let state = chosen(node, files)?;
    draft.put(key, state)?;
    Ok(draft)
}

/// The value that the script sets, in the state or by the attribute.
pub fn set<'a>(alloc: Global, page: &'a Page, key: Key, text: &str) -> Result<Draft<'a>, AllocError>
    ensures { IfOk result (λ draft. draft ≡ draft_of page.now (after_set page.now.tree.nodes key text.now)) }
{
    let mut draft = Draft::new(alloc, page)?;
    let Some(node) = page.tree().node(key) else {
        return Ok(draft);
    };
    if is_given_by_attr(node) {
        let name = Text::from_str(alloc, "value")?;
        let value = Text::from_str(alloc, text)?;
        return draft.with_attr(key, name, Some(value));
    }
    let state = given(alloc, node, text)?;
    draft.put(key, state)?;
    Ok(draft)
}

/// The text that stands directly in an element; a textarea that is not dirty has it as its value.
pub fn retell<'a>(
    alloc: Global,
    page: &'a Page,
    key: Key,
    text: &Text,
) -> Result<Draft<'a>, AllocError>
    ensures { IfOk result (λ draft. draft ≡ draft_of page.now (after_text page.now.tree.nodes key text.now)) }
{
    let mut draft = Draft::new(alloc, page)?;
    let Some(node) = page.tree().node(key) else {
        return Ok(draft);
    };
    let told = Text::from_str(alloc, text.as_str())?;
    draft.put_text(key, told)?;
    if !follows_text(node) {
        return Ok(draft);
    }
    let value = Text::from_str(alloc, text.as_str())?;
    let state = with_value_text(node, value)?;
    draft.put(key, state)?;
    Ok(draft)
}

// Whether it is a textarea that has its text as its value.
fn follows_text(node: &Node) -> bool
    ensures { result ≡ (is_textarea node.now && not node.now.state.dirty) }
{
    is_textarea(node) && !node.state.dirty
}

/// Every element without a file that is withdrawn.
pub fn withdraw<'a>(alloc: Global, page: &'a Page, file: u32) -> Result<Draft<'a>, AllocError>
    ensures { IfOk result (λ draft. draft ≡ draft_of page.now (after_withdraw page.now.tree.nodes file)) }
{
    let mut draft = Draft::new(alloc, page)?;
    let holders = page.holders(file);
    for key in holders {
        leave(alloc, &mut draft, *key, file)?;
    }
    Ok(draft)
}

fn leave(alloc: Global, draft: &mut Draft<'_>, key: Key, file: u32) -> Result<(), AllocError>
    ensures { OnOk result (draft.new ≡ record draft.old {
      nodes = with_node draft.old.nodes key (without_file_number file);
    }) }
{
    let Some(node) = draft.node(key) else {
        return Ok(());
    };
    if !has_number(node.state.files.as_slice(), file) {
        return Ok(());
    }
    let state = without_file_number(alloc, node, file)?;
    draft.put(key, state)
}

fn has_number(numbers: &[u32], file: u32) -> bool
    ensures { result ≡ list_any (λ number. number == file) numbers.now }
{
    for number in numbers {
        if *number == file {
            return true;
        }
    }
    false
}
