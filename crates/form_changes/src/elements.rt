// What an element is, by its tag and the state of an input.
ghost use Rattle.std.specs.Prelude.{◌≡◌};
ghost use Rattle.form_tree.specs.Elements.{is_input, is_textarea};
ghost use Rattle.form_changes.specs.Changing.{is_file_kind};
ghost use Rattle.form_changes.specs.Values.{has_kept_value, is_range, is_value_mode};

use form_judge::kind_of;
use form_tree::{Node, Tag};
use form_types::{Kind, Mode, mode_of};

/// Whether it is an input.
pub fn is_input(node: &Node) -> bool
    ensures { result ≡ is_input node.now }
{
    matches!(node.tag, Tag::Input)
}

/// Whether it is a textarea.
pub fn is_textarea(node: &Node) -> bool
    ensures { result ≡ is_textarea node.now }
{
    matches!(node.tag, Tag::Textarea)
}

/// Whether it is the state file.
pub fn is_file_kind(kind: Kind) -> bool
    ensures { result ≡ is_file_kind kind }
{
    matches!(kind, Kind::File)
}

/// Whether it is an input in the mode value.
pub fn has_kept_value(node: &Node) -> bool
    ensures { result ≡ has_kept_value node.now }
{
    is_input(node) && is_value_mode(mode_of(kind_of(node)))
}

fn is_value_mode(mode: Mode) -> bool
    ensures { result ≡ is_value_mode mode }
{
    matches!(mode, Mode::Value)
}

/// Whether it is an input in the state range.
pub fn is_range(node: &Node) -> bool
    ensures { result ≡ is_range node.now }
{
    is_input(node) && matches!(kind_of(node), Kind::Range)
}
