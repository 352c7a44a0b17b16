// Whether the state of an element follows its attribute.
ghost use Rattle.std.specs.Prelude.{◌≡◌};
ghost use Rattle.form_changes.specs.Changing.{follows_checked, follows_selected, follows_value, is_toggled};

use crate::elements::{has_kept_value, is_input};
use form_tree::Node;

/// Whether it is an input whose value follows the `value` attribute.
pub fn follows_value(node: &Node) -> bool
    ensures { result ≡ follows_value node.now }
{
    has_kept_value(node) && !node.state.dirty
}

/// Whether the checkedness of the input follows a change after which `checked` is there, or is not.
pub fn follows_checked(node: &Node, there: bool) -> bool
    ensures { result ≡ follows_checked there node.now }
{
    is_input(node) && !node.state.dirty_checked && is_toggled(node, "checked", there)
}

fn is_toggled(node: &Node, name: &str, there: bool) -> bool
    ensures { result ≡ is_toggled name.now there node.now }
{
    node.has_attr(name) != there
}

/// Whether the selectedness of the option follows a change after which `selected` is there, or is not.
pub fn follows_selected(node: &Node, there: bool) -> bool
    ensures { result ≡ follows_selected there node.now }
{
    node.tag.is_option() && !node.state.dirty_selected && is_toggled(node, "selected", there)
}
