// The value that an input keeps, sanitised.
ghost use Rattle.std.specs.Prelude.{◌≡◌, IfOk};
ghost use Rattle.form_states.specs.Limits.{IsLimits};
ghost use Rattle.form_tree.specs.Elements.{kind_of};
ghost use Rattle.form_judge.specs.Controls.{may_lack_number, own_limits};
ghost use Rattle.form_changes.specs.Changing.{typed_text};
ghost use Rattle.form_changes.specs.Values.{sanitised_as, sanitised_in};

use form_judge::kind_of;
use form_states::{Limits, sanitise};
use form_text::Text;
use form_tree::Node;
use form_types::{Attr, Kind, applies, scale};
use std::alloc::{AllocError, Global};

/// What a text is sanitised to as the value of that input (HTML, "The input element", "value
/// sanitization algorithm").
pub fn sanitised_as(alloc: Global, node: &Node, text: &str) -> Result<Text, AllocError>
    ensures { IfOk result (λ value. value ≡ sanitised_as node.now text.now) }
{
    let kind = kind_of(node);
    let limits = own_limits(node, kind);
    let value = sanitise(alloc, kind, &limits, text)?;
    Ok(Text::from_string(value))
}

/// What the value is sanitised to that the input keeps.
pub fn sanitised_in(alloc: Global, node: &Node) -> Result<Text, AllocError>
    ensures { IfOk result (λ value. value ≡ sanitised_in node.now) }
{
    sanitised_as(alloc, node, node.state.value.as_str())
}

fn own_limits(node: &Node, kind: Kind) -> Limits
    requires { kind ≡ kind_of node.now }
    ensures value { result ≡ own_limits node.now }
    ensures limits { IsLimits kind result }
{
    Limits::of(
        kind,
        node.attr("min"),
        node.attr("max"),
        node.attr("step"),
        node.attr("value"),
    )
}

/// What is kept of a text as it was typed: all of it where it stands for no value, though the input
/// has numbers.
pub fn typed_text(alloc: Global, node: &Node, text: &str, value: &Text) -> Result<Text, AllocError>
    requires { value.now ≡ sanitised_as node.now text.now }
    ensures { IfOk result (λ typed. typed ≡ typed_text node.now text.now) }
{
    if may_lack_number(kind_of(node)) && value.as_str().is_empty() {
        return Text::from_str(alloc, text);
    }
    Ok(Text::from_string(String::new(alloc)))
}

// Whether the state has numbers and may be without a value.
fn may_lack_number(kind: Kind) -> bool
    ensures { result ≡ may_lack_number kind }
{
    scale(kind).is_some() && applies(kind, Attr::Required)
}
