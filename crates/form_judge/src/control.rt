// What the flags read of a control.
ghost use Rattle.std.specs.Prelude.{◌≡◌, IfSome};
ghost use Rattle.std.specs.Option.{option_copied};
ghost use Rattle.form_states.specs.Limits.{IsLimits, IsStep};
ghost use Rattle.form_tree.specs.Elements.{is_button, is_empty_text, is_input, is_input_tag, is_textarea, is_textarea_tag, kind_of};
ghost use Rattle.form_tree.specs.Value.{value_attr_or};
ghost use Rattle.form_judge.specs.Controls.{applies_to_input, applies_to_text, own_limits, own_number, own_value, text_where};

use form_decimal::Decimal;
use form_states::{Limits, number};
use form_tree::{Node, Tag};
use form_types::{Attr, Kind, applies};

/// The state of an input, by its `type` attribute.
pub fn kind_of(node: &Node) -> Kind
    ensures { result ≡ kind_of node.now }
{
    match Kind::of(node.attr("type")) {
        Ok(kind) => kind,
        // No page holds an input of the type `email`, and the table has no state of that name.
        Err(_) => Kind::Text,
    }
}

/// Whether it is an input element.
pub fn is_input(node: &Node) -> bool
    ensures { result ≡ is_input node.now }
{
    is_input_tag(node.tag)
}

fn is_input_tag(tag: Tag) -> bool
    ensures { result ≡ is_input_tag tag }
{
    matches!(tag, Tag::Input)
}

/// Whether it is a textarea element.
pub fn is_textarea(node: &Node) -> bool
    ensures { result ≡ is_textarea node.now }
{
    is_textarea_tag(node.tag)
}

fn is_textarea_tag(tag: Tag) -> bool
    ensures { result ≡ is_textarea_tag tag }
{
    matches!(tag, Tag::Textarea)
}

/// Whether it is a button element.
pub fn is_button(node: &Node) -> bool
    ensures { result ≡ is_button node.now }
{
    matches!(node.tag, Tag::Button)
}

/// The `value` attribute, or else that text.
pub fn value_attr_or<'a>(node: &'a Node, text: &'a str) -> &'a str
    ensures { result.now ≡ value_attr_or text.now node.now }
{
    match node.attr("value") {
        Some(value) => value,
        None => text,
    }
}

/// Whether it is an input in a state to which the attribute applies.
pub fn applies_to_input(node: &Node, kind: Kind, attribute: Attr) -> bool
    requires { kind ≡ kind_of node.now }
    ensures { result ≡ applies_to_input attribute node.now }
{
    is_input(node) && applies(kind, attribute)
}

/// Whether it is such an input, or a textarea.
pub fn applies_to_text(node: &Node, kind: Kind, attribute: Attr) -> bool
    requires { kind ≡ kind_of node.now }
    ensures { result ≡ applies_to_text attribute node.now }
{
    is_textarea(node) || applies_to_input(node, kind, attribute)
}

/// The text of an attribute, where it applies.
pub fn text_where<'a>(node: &'a Node, applies: bool, name: &str) -> Option<&'a str>
    ensures { option_copied result ≡ text_where applies name.now node.now }
{
    if applies { node.attr(name) } else { None }
}

/// The limits that the attributes of an input give.
pub fn own_limits(node: &Node, kind: Kind) -> Limits
    requires { kind ≡ kind_of node.now }
    ensures value { result ≡ own_limits node.now }
    ensures step { IfSome result.step IsStep }
    ensures limits { IsLimits kind result }
{
    Limits::of(
        kind,
        node.attr("min"),
        node.attr("max"),
        node.attr("step"),
        node.attr("value"),
    )
}

/// The number of an input's value.
pub fn own_number(node: &Node, kind: Kind) -> Option<Decimal>
    requires { kind ≡ kind_of node.now }
    ensures { result ≡ own_number node.now }
{
    if is_input(node) {
        number(kind, node.state.value.as_str())
    } else {
        None
    }
}

/// Whether the value of an input in the mode value or of a textarea is empty.
#[tactic(auto, using(crate::proofs::ValueLaws::empty_value))]
pub fn has_empty_value(node: &Node) -> bool
    ensures { result ≡ is_empty_text (own_value node.now) }
{
    is_empty(node.state.value.as_str())
}

pub fn is_empty(text: &str) -> bool
    ensures { result ≡ is_empty_text text.now }
{
    text.is_empty()
}
