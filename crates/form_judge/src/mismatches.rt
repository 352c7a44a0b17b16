// Suffering from a type mismatch and from a pattern mismatch.
ghost use Rattle.std.specs.Prelude.{◌≡◌, IfOk, chars, false, not};
ghost use Rattle.std.specs.Option.{option_map_or};
ghost use Rattle.form_pattern.specs.Deciding.{does_match};
ghost use Rattle.form_tree.specs.Elements.{kind_of};
ghost use Rattle.form_judge.specs.Controls.{pattern_of};
ghost use Rattle.form_judge.specs.Flags.{is_absolute_url, is_url_kind, suffers_from_a_pattern_mismatch, suffers_from_a_type_mismatch};

use crate::control::{is_empty, is_input};
use form_pattern::Pattern;
use form_tree::Node;
use form_types::Kind;
use std::alloc::{AllocError, Global};
use url::{ParseError, Url};

/// Whether the control suffers from a type mismatch (HTML, "URL state"). Without memory, and for a
/// URL of 4 GB or more, the answer is `AllocError`.
pub fn suffers_from_a_type_mismatch(
    alloc: Global,
    node: &Node,
    kind: Kind,
) -> Result<bool, AllocError>
    requires { kind ≡ kind_of node.now }
    ensures { IfOk result (λ suffers. suffers ≡ suffers_from_a_type_mismatch node.now) }
{
    if !(is_input(node) && is_url_kind(kind)) {
        return Ok(false);
    }
    if is_empty(node.state.value.as_str()) {
        return Ok(false);
    }
    let is_url = is_absolute_url(alloc, node.state.value.as_str())?;
    Ok(!is_url)
}

fn is_url_kind(kind: Kind) -> bool
    ensures { result ≡ is_url_kind kind }
{
    matches!(kind, Kind::Url)
}

// Whether the URL parser takes the text without a base.
fn is_absolute_url(alloc: Global, text: &str) -> Result<bool, AllocError>
    ensures { IfOk result (λ is. is ≡ is_absolute_url text.now) }
{
    match Url::parse(alloc, text) {
        Ok(_) => Ok(true),
        Err(ParseError::OutOfMemory | ParseError::Overflow) => Err(AllocError),
        Err(_) => Ok(false),
    }
}

/// Whether the control suffers from a pattern mismatch (HTML, "The pattern attribute"), where this is
/// its pattern, compiled. The pattern stays what it was.
pub fn suffers_from_a_pattern_mismatch(node: &Node, pattern: &mut Option<Pattern>) -> bool
    requires { pattern.old ≡ pattern_of node.now }
    ensures value { result ≡ suffers_from_a_pattern_mismatch node.now }
    ensures kept { pattern.new ≡ pattern.old }
{
    if is_empty(node.state.value.as_str()) {
        return false;
    }
    misses(pattern, node.state.value.as_str())
}

// Whether there is a pattern and it does not match the whole value.
fn misses(pattern: &mut Option<Pattern>, value: &str) -> bool
    ensures value { result ≡ option_map_or (λ p. not (does_match p (chars value.now))) pattern.old false }
    ensures kept { pattern.new ≡ pattern.old }
{
    match pattern {
        Some(pattern) => !pattern.matches(value),
        None => false,
    }
}
