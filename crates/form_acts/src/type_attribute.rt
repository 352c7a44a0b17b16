// A change of the `type` attribute.
ghost use Rattle.std.specs.Prelude.{◌≡◌, IfOk, codes, Some};
ghost use Rattle.std.specs.Option.{option_and_then, option_map, option_map_or};
ghost use Rattle.form_tree.specs.Attributes.{with_attr};
ghost use Rattle.form_tree.specs.Elements.{kind_of};
ghost use Rattle.form_tree.specs.Tree.{at_key, with_node, with_state};
ghost use Rattle.form_changes.specs.declared.role.Role.TheVariants as roles;
ghost use Rattle.form_acts.specs.Acts.{after_change};
ghost use Rattle.form_changes.specs.Changing.{role_of, with_kind};
ghost use Rattle.form_changes.specs.Counting.{value_moved};
ghost use Rattle.form_drafts.specs.Drafts.{draft_of};

use crate::attributes::set_attr;
use form_changes::{changes_state, moves_value};
use form_drafts::{Draft, sanitise, take_new_radio};
use form_judge::kind_of;
use form_page::Page;
use form_text::Text;
use form_tree::{Key, Node, State};
use form_types::Kind;
use std::alloc::{AllocError, Global};

/// An input that comes to another state is taken as a radio button, and its value is sanitised.
pub fn change_type<'a>(
    alloc: Global,
    page: &'a Page,
    key: Key,
    name: &Text,
    value: &Option<Text>,
) -> Result<Draft<'a>, AllocError>
    requires { role_of name.now ≡ roles.Type }
    ensures { IfOk result (λ draft.
        draft ≡ draft_of page.now (after_change roles.Type page.now.tree.nodes key name.now value.now)) }
{
    let set = set_attr(alloc, page, key, name, value)?;
    let Some(node) = page.tree().node(key) else {
        return Ok(set);
    };
    let from = kind_of(node);
    let to = kind_at(&set, key, from);
    if !changes_state(node, from, to) {
        return Ok(set);
    }
    let mut draft = with_kind(alloc, set, from, to, key)?;
    take_new_radio(alloc, &mut draft, key)?;
    sanitise(alloc, &mut draft, key)?;
    Ok(draft)
}

// The state of an input, or that one where there is no element.
fn kind_at(draft: &Draft<'_>, key: Key, other: Kind) -> Kind
    ensures { result ≡ option_map_or kind_of (at_key draft.now.nodes key) other }
{
    match draft.node(key) {
        Some(node) => kind_of(node),
        None => other,
    }
}

// An input that comes from one state to another.
fn with_kind<'a>(
    alloc: Global,
    draft: Draft<'a>,
    from: Kind,
    to: Kind,
    key: Key,
) -> Result<Draft<'a>, AllocError>
    ensures { IfOk result (λ after. after ≡ record draft.entry { nodes = with_node draft.entry.nodes key (with_kind from to) }) }
{
    draft.page();
    let state = kind_state(alloc, &draft, from, to, key)?;
    let moved = value_moved(&draft, from, to, key)?;
    let after = with_value_attr(alloc, draft, key, moved)?;
    let done = put_if(after, key, state)?;
    Ok(done)
}

fn kind_state(
    alloc: Global,
    draft: &Draft<'_>,
    from: Kind,
    to: Kind,
    key: Key,
) -> Result<Option<State>, AllocError>
    ensures { IfOk result (λ state. state ≡ option_map (λ n. (with_kind from to n).state) (at_key draft.now.nodes key)) }
{
    match draft.node(key) {
        Some(node) => Ok(Some(form_changes::with_kind(alloc, from, to, node)?)),
        None => Ok(None),
    }
}

// The value that becomes the attribute, where it does.
fn value_moved(
    draft: &Draft<'_>,
    from: Kind,
    to: Kind,
    key: Key,
) -> Result<Option<Text>, AllocError>
    ensures { IfOk result (λ moved. moved ≡ option_and_then (value_moved from to) (at_key draft.now.nodes key)) }
{
    match draft.node(key) {
        Some(node) => value_moved_of(node, from, to),
        None => Ok(None),
    }
}

fn value_moved_of(node: &Node, from: Kind, to: Kind) -> Result<Option<Text>, AllocError>
    ensures { IfOk result (λ moved. moved ≡ value_moved from to node.now) }
{
    if !moves_value(from, to, node) {
        return Ok(None);
    }
    Ok(Some(node.state.value.clone()?))
}

fn with_value_attr<'a>(
    alloc: Global,
    draft: Draft<'a>,
    key: Key,
    value: Option<Text>,
) -> Result<Draft<'a>, AllocError>
    ensures { IfOk result (λ after. after ≡ record draft.entry {
      nodes = option_map_or (λ v. with_attr draft.entry.nodes key (codes "value") (Some v)) value draft.entry.nodes;
    }) }
{
    match value {
        Some(value) => {
            let name = Text::from_str(alloc, "value")?;
            draft.with_attr(key, name, Some(value))
        }
        None => Ok(draft),
    }
}

fn put_if<'a>(draft: Draft<'a>, key: Key, state: Option<State>) -> Result<Draft<'a>, AllocError>
    ensures { IfOk result (λ after. after ≡ record draft.entry {
      nodes = option_map_or (with_state draft.entry.nodes key) state draft.entry.nodes;
    }) }
{
    let mut after = draft;
    match state {
        Some(state) => {
            after.put(key, state)?;
            Ok(after)
        }
        None => Ok(after),
    }
}
