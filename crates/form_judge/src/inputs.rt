// Suffering from bad input and from a custom error.
ghost use Rattle.std.specs.Prelude.{◌≡◌};
ghost use Rattle.form_tree.specs.Elements.{kind_of};
ghost use Rattle.form_judge.specs.Controls.{may_lack_number};
ghost use Rattle.form_judge.specs.Flags.{suffers_from_a_custom_error, suffers_from_bad_input};

use crate::control::{is_empty, is_input};
use form_tree::Node;
use form_types::{Attr, Kind, applies, scale};

/// Whether the control suffers from bad input: the user typed a text that stands for no value (HTML,
/// the states of the `type` attribute with numbers).
pub fn suffers_from_bad_input(node: &Node, kind: Kind) -> bool
    requires { kind ≡ kind_of node.now }
    ensures { result ≡ suffers_from_bad_input node.now }
{
    is_input(node) && may_lack_number(kind) && !is_empty(node.state.typed.as_str())
}

// Whether the state has numbers and may be without a value.
fn may_lack_number(kind: Kind) -> bool
    ensures { result ≡ may_lack_number kind }
{
    scale(kind).is_some() && applies(kind, Attr::Required)
}

/// Whether the control suffers from a custom error (HTML, "The constraint validation API").
pub fn suffers_from_a_custom_error(node: &Node) -> bool
    ensures { result ≡ suffers_from_a_custom_error node.now }
{
    !is_empty(node.state.message.as_str())
}
