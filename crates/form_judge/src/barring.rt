// What bars an element from constraint validation by its own attributes.
ghost use Rattle.std.specs.Prelude.{◌≡◌};
ghost use Rattle.form_tree.specs.Disabling.{is_barred_button, is_barred_by_itself, is_barred_kind, is_read_only};
ghost use Rattle.form_tree.specs.Elements.{button_kind_of, kind_of};

use crate::control::{applies_to_input, is_button, is_input, is_textarea, kind_of};
use form_tree::Node;
use form_types::{Attr, ButtonKind, Kind};

/// Whether an element is barred by what it is: an input of a state or a button of a kind that has no
/// constraints, or a control that is read-only (HTML, "Constraint validation", "barred from constraint
/// validation").
pub fn is_barred_by_itself(node: &Node) -> bool
    ensures { result ≡ is_barred_by_itself node.now }
{
    let kind = kind_of(node);
    (is_input(node) && is_barred_kind(kind))
        || (is_button(node) && is_barred_button(button_kind_of(node)))
        || is_read_only(node, kind)
}

fn is_barred_kind(kind: Kind) -> bool
    ensures { result ≡ is_barred_kind kind }
{
    matches!(kind, Kind::Hidden | Kind::Reset | Kind::Button)
}

fn is_barred_button(kind: ButtonKind) -> bool
    ensures { result ≡ is_barred_button kind }
{
    matches!(kind, ButtonKind::Reset | ButtonKind::Button)
}

fn button_kind_of(node: &Node) -> ButtonKind
    ensures { result ≡ button_kind_of node.now }
{
    ButtonKind::of(node.attr("type"))
}

/// Whether the control has a `readonly` attribute that applies to it.
pub fn is_read_only(node: &Node, kind: Kind) -> bool
    requires { kind ≡ kind_of node.now }
    ensures { result ≡ is_read_only node.now }
{
    node.has_attr("readonly") && (is_textarea(node) || applies_to_input(node, kind, Attr::Readonly))
}
