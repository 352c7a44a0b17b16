// Why an act is refused, found without memory.
ghost use Rattle.std.specs.Prelude.{◌≡◌, ◌&&◌, ◌||◌, not, false, None};
ghost use Rattle.std.specs.List.{list_any};
ghost use Rattle.std.specs.Option.{option_map_or};
ghost use Rattle.form_types.specs.TypeTable.{names_email};
ghost use Rattle.form_tree.specs.Disabling.{is_disabled, is_mutable, is_read_only};
ghost use Rattle.form_tree.specs.Elements.{is_empty_text, is_input, is_textarea};
ghost use Rattle.form_tree.specs.RadioGroup.{is_radio};
ghost use Rattle.form_tree.specs.Selects.{is_disabled_option, select_of};
ghost use Rattle.form_tree.specs.Tree.{at_key};
ghost use Rattle.form_acts.specs.Refusals.{is_beyond, is_checkbox, is_file, is_file_there, is_immutable, is_of_kind, key_of, lacks_file, makes_email, refusal_at, refusal_by, refusal_found, refusal_of};

use crate::elements::{is_checkbox, is_file, is_read_only};
use form_changes::{
    Act, ActFault, has_kept_value, is_beyond_by_attr, is_beyond_by_text, is_input, is_textarea,
};
use form_drafts::{is_disabled_option, is_radio, select_of};
use form_page::Page;
use form_text::{Text, eq_ascii_case};
use form_tree::{Key, Node};

/// Why the act is refused; None where it is not. It takes no memory, and Memory is no answer.
pub fn refusal(page: &Page, act: &Act) -> Option<ActFault>
    ensures { result ≡ refusal_of page.now act.now }
{
    match key_of(act) {
        Some(key) => refusal_by_key(page, act, key),
        None => refusal_without_key(page, act),
    }
}

fn refusal_by_key(page: &Page, act: &Act, key: Key) -> Option<ActFault>
    ensures { result ≡ refusal_found page.now act.now (at_key page.now.tree.nodes key) }
{
    match page.tree().node(key) {
        Some(node) => refusal_at(page, act, node),
        None => Some(ActFault::NoElement),
    }
}

fn refusal_without_key(page: &Page, act: &Act) -> Option<ActFault>
    ensures { result ≡ refusal_by page.now act.now None }
{
    if lacks_file(page, act) {
        return Some(ActFault::NoFile);
    }
    None
}

fn key_of(act: &Act) -> Option<Key>
    ensures { result ≡ key_of act.now }
{
    match act {
        Act::User { key, .. } => Some(*key),
        Act::Set { key, .. } => Some(*key),
        Act::Attr { key, .. } => Some(*key),
        Act::Text { key, .. } => Some(*key),
        Act::Check { key, .. } => Some(*key),
        Act::SetChecked { key, .. } => Some(*key),
        Act::Pick { key } => Some(*key),
        Act::SetSelected { key, .. } => Some(*key),
        Act::Custom { key, .. } => Some(*key),
        Act::Choose { key, .. } => Some(*key),
        Act::Withdraw { .. } => None,
        Act::Reset { key } => Some(*key),
    }
}

// The first cause that holds of the element.
fn refusal_at(page: &Page, act: &Act, node: &Node) -> Option<ActFault>
    ensures { result ≡ refusal_at page.now act.now node.now }
{
    if !is_of_kind(page, act, node) {
        return Some(ActFault::WrongKind);
    }
    if is_immutable(page, act, node) {
        return Some(ActFault::Immutable);
    }
    if makes_email(act, node) {
        return Some(ActFault::Email);
    }
    if lacks_file(page, act) {
        return Some(ActFault::NoFile);
    }
    if is_beyond(act, node) {
        return Some(ActFault::Limit);
    }
    None
}

// Whether the act can be made to such an element at all.
fn is_of_kind(page: &Page, act: &Act, node: &Node) -> bool
    ensures { result ≡ is_of_kind page.now.tree.nodes act.now node.now }
{
    match act {
        Act::User { .. } => has_kept_value(node) || is_textarea(node),
        Act::Set { text, .. } => takes_text(node, text),
        Act::Attr { .. } => true,
        Act::Text { .. } => is_textarea(node) || node.tag.is_option(),
        Act::Check { on, .. } => takes_check(node, *on),
        Act::SetChecked { .. } => is_input(node),
        Act::Pick { key } => select_of(page.tree(), *key).is_some(),
        Act::SetSelected { key, .. } => select_of(page.tree(), *key).is_some(),
        Act::Custom { .. } => node.tag.is_submittable(),
        Act::Choose { .. } => is_file(node),
        Act::Withdraw { .. } => true,
        Act::Reset { .. } => node.tag.is_form(),
    }
}

// Whether the script may set the value to that text: that of a file input to an empty one alone.
fn takes_text(node: &Node, text: &Text) -> bool
    ensures { result ≡ (is_textarea node.now
        || (is_input node.now && (not (is_file node.now) || is_empty_text text.now))) }
{
    is_textarea(node) || (is_input(node) && (!is_file(node) || text.as_str().is_empty()))
}

// Whether the user may check it, or uncheck it.
fn takes_check(node: &Node, on: bool) -> bool
    ensures { result ≡ (is_checkbox node.now || (on && is_radio node.now)) }
{
    is_checkbox(node) || (on && is_radio(node))
}

// Whether the user cannot change it.
fn is_immutable(page: &Page, act: &Act, node: &Node) -> bool
    ensures { result ≡ is_immutable page.now.tree.nodes act.now node.now }
{
    match act {
        Act::User { key, .. } => !is_mutable(page, *key),
        Act::Check { key, .. } => page.disabled(*key),
        Act::Pick { key } => is_unpickable(page, *key, node),
        Act::Choose { key, .. } => page.disabled(*key),
        _ => false,
    }
}

fn is_mutable(page: &Page, key: Key) -> bool
    ensures { result ≡ is_mutable page.now.tree.nodes key }
{
    match page.tree().node(key) {
        Some(node) => is_editable(node) && !page.disabled(key),
        None => false,
    }
}

// Whether the user edits its text, where it is not disabled.
fn is_editable(node: &Node) -> bool
    ensures { result ≡ ((is_input node.now || is_textarea node.now) && not (is_read_only node.now)) }
{
    (is_input(node) || is_textarea(node)) && !is_read_only(node)
}

// Whether the option is disabled, or its select.
fn is_unpickable(page: &Page, key: Key, node: &Node) -> bool
    ensures { let ns = page.now.tree.nodes in
        result ≡ (option_map_or (is_disabled ns) (select_of ns key) false || is_disabled_option ns node.now) }
{
    is_select_disabled(page, key) || is_disabled_option(page.tree(), node)
}

fn is_select_disabled(page: &Page, key: Key) -> bool
    ensures { let ns = page.now.tree.nodes in result ≡ option_map_or (is_disabled ns) (select_of ns key) false }
{
    match select_of(page.tree(), key) {
        Some(select) => page.disabled(select),
        None => false,
    }
}

// Whether an input would come to the state email.
fn makes_email(act: &Act, node: &Node) -> bool
    ensures { result ≡ makes_email act.now node.now }
{
    match act {
        Act::Attr { name, value, .. } => {
            is_input(node) && (name.as_str() == "type" && names_email(value))
        }
        _ => false,
    }
}

fn names_email(keyword: &Option<Text>) -> bool
    ensures { result ≡ names_email keyword.now }
{
    match keyword {
        Some(keyword) => eq_ascii_case(keyword.as_str(), "email"),
        None => false,
    }
}

// Whether it names a file that is not there.
fn lacks_file(page: &Page, act: &Act) -> bool
    ensures { result ≡ lacks_file page.now.files act.now }
{
    match act {
        Act::Choose { files, .. } => lacks_any(page, files.as_slice()),
        Act::Withdraw { file } => !is_file_there(page, *file),
        _ => false,
    }
}

fn lacks_any(page: &Page, files: &[u32]) -> bool
    ensures { result ≡ list_any (λ number. not (is_file_there page.now.files number)) files.now }
{
    for file in files {
        if !is_file_there(page, *file) {
            return true;
        }
    }
    false
}

fn is_file_there(page: &Page, file: u32) -> bool
    ensures { result ≡ is_file_there page.now.files file }
{
    page.file_name(file).is_some()
}

// Whether the element would have too many attributes, or too many files.
fn is_beyond(act: &Act, node: &Node) -> bool
    ensures { result ≡ is_beyond act.now node.now }
{
    match act {
        Act::Attr { name, value, .. } => is_beyond_by_attr(node, name.as_str(), value),
        Act::Set { text, .. } => is_beyond_by_text(node, text.as_str()),
        Act::Choose { files, .. } => 1 < files.as_slice().len() && !node.has_attr("multiple"),
        _ => false,
    }
}
