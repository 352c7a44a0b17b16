// Suffering from being too long and from being too short.
ghost use Rattle.std.specs.Prelude.{◌≡◌, IfOk};
ghost use Rattle.form_text.specs.LineEnds.{with_lf};
ghost use Rattle.form_text.specs.Utf16.{utf16_length};
ghost use Rattle.form_tree.specs.Elements.{kind_of};
ghost use Rattle.form_judge.specs.Controls.{own_value};
ghost use Rattle.form_judge.specs.Flags.{allowed_length, is_user_edited, suffers_from_being_too_long, suffers_from_being_too_short};

use crate::control::{applies_to_text, has_empty_value, is_textarea, text_where};
use form_text::{normalise_lf, parse_nonneg, utf16_len};
use form_tree::Node;
use form_types::{Attr, Kind};
use std::alloc::{AllocError, Global};

/// Whether the control suffers from being too long (HTML, "The maxlength and minlength attributes").
pub fn suffers_from_being_too_long(
    alloc: Global,
    node: &Node,
    kind: Kind,
) -> Result<bool, AllocError>
    requires { kind ≡ kind_of node.now }
    ensures { IfOk result (λ suffers. suffers ≡ suffers_from_being_too_long node.now) }
{
    if !is_user_edited(node) {
        return Ok(false);
    }
    match allowed_length(node, kind, Attr::Maxlength, "maxlength") {
        Some(most) => {
            let length = length_of_value(alloc, node)?;
            Ok((most as usize) < length)
        }
        None => Ok(false),
    }
}

/// Whether the control suffers from being too short (HTML, "The maxlength and minlength attributes").
pub fn suffers_from_being_too_short(
    alloc: Global,
    node: &Node,
    kind: Kind,
) -> Result<bool, AllocError>
    requires { kind ≡ kind_of node.now }
    ensures { IfOk result (λ suffers. suffers ≡ suffers_from_being_too_short node.now) }
{
    if !is_user_edited(node) || has_empty_value(node) {
        return Ok(false);
    }
    match allowed_length(node, kind, Attr::Minlength, "minlength") {
        Some(least) => {
            let length = length_of_value(alloc, node)?;
            Ok(length < least as usize)
        }
        None => Ok(false),
    }
}

fn is_user_edited(node: &Node) -> bool
    ensures { result ≡ is_user_edited node.now }
{
    node.state.dirty && node.state.by_user
}

// The length that an attribute allows the control.
fn allowed_length(node: &Node, kind: Kind, attribute: Attr, name: &str) -> Option<u32>
    requires { kind ≡ kind_of node.now }
    ensures { result ≡ allowed_length attribute name.now node.now }
{
    match text_where(node, applies_to_text(node, kind, attribute), name) {
        Some(text) => parse_nonneg(text),
        None => None,
    }
}

// The length of the control's value, in UTF-16 code units.
fn length_of_value(alloc: Global, node: &Node) -> Result<usize, AllocError>
    ensures { IfOk result (λ length. length ≡ utf16_length (own_value node.now)) }
{
    if is_textarea(node) {
        length_with_lf(alloc, node.state.value.as_str())
    } else {
        Ok(utf16_len(node.state.value.as_str()))
    }
}

fn length_with_lf(alloc: Global, text: &str) -> Result<usize, AllocError>
    ensures { IfOk result (λ length. length ≡ utf16_length (with_lf text.now)) }
{
    let text = normalise_lf(alloc, text)?;
    Ok(utf16_len(text.as_str()))
}
