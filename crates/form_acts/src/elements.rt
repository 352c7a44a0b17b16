// What an element is, by its tag and its attributes.
ghost use Rattle.std.specs.Prelude.{◌≡◌};
ghost use Rattle.form_tree.specs.Disabling.{is_read_only};
ghost use Rattle.form_tree.specs.Elements.{button_kind_of, is_button};
ghost use Rattle.form_acts.specs.Clicking.{is_any_button, is_blocking, is_image, is_reset_button_kind, is_resetter, is_submitter};
ghost use Rattle.form_acts.specs.Refusals.{is_checkbox, is_file};

use form_changes::{is_file_kind, is_input, is_textarea};
use form_judge::kind_of;
use form_tree::{Node, Tag};
use form_types::{Attr, ButtonKind, Kind, applies, blocks};

pub fn is_button(node: &Node) -> bool
    ensures { result ≡ is_button node.now }
{
    matches!(node.tag, Tag::Button)
}

fn button_kind_of(node: &Node) -> ButtonKind
    ensures { result ≡ button_kind_of node.now }
{
    ButtonKind::of(node.attr("type"))
}

fn is_reset_button_kind(kind: ButtonKind) -> bool
    ensures { result ≡ is_reset_button_kind kind }
{
    matches!(kind, ButtonKind::Reset)
}

/// Whether it is a button (HTML, "Categories").
pub fn is_any_button(node: &Node) -> bool
    ensures { result ≡ is_any_button node.now }
{
    is_button(node) || (is_input(node) && kind_of(node).is_button())
}

/// Whether it is a submit button (HTML, "Categories").
pub fn is_submitter(node: &Node) -> bool
    ensures { result ≡ is_submitter node.now }
{
    (is_input(node) && kind_of(node).is_submit_button())
        || (is_button(node) && button_kind_of(node).is_submit_button())
}

/// Whether it is a reset button.
pub fn is_resetter(node: &Node) -> bool
    ensures { result ≡ is_resetter node.now }
{
    (is_input(node) && matches!(kind_of(node), Kind::Reset))
        || (is_button(node) && is_reset_button_kind(button_kind_of(node)))
}

/// Whether it is an image button.
pub fn is_image(node: &Node) -> bool
    ensures { result ≡ is_image node.now }
{
    is_input(node) && matches!(kind_of(node), Kind::Image)
}

/// Whether it is a field that blocks implicit submission beside another such field.
pub fn is_blocking(node: &Node) -> bool
    ensures { result ≡ is_blocking node.now }
{
    is_input(node) && blocks(kind_of(node))
}

/// Whether it is a file input.
pub fn is_file(node: &Node) -> bool
    ensures { result ≡ is_file node.now }
{
    is_input(node) && is_file_kind(kind_of(node))
}

/// Whether it is a checkbox.
pub fn is_checkbox(node: &Node) -> bool
    ensures { result ≡ is_checkbox node.now }
{
    is_input(node) && matches!(kind_of(node), Kind::Checkbox)
}

/// Whether the control has a `readonly` attribute that applies to it.
pub fn is_read_only(node: &Node) -> bool
    ensures { result ≡ is_read_only node.now }
{
    node.has_attr("readonly")
        && (is_textarea(node) || (is_input(node) && applies(kind_of(node), Attr::Readonly)))
}
