// Candidates for constraint validation.
ghost use Rattle.std.specs.Prelude.{◌≡◌, Some};
ghost use Rattle.form_tree.specs.Disabling.{is_candidate, is_disabled};
ghost use Rattle.form_tree.specs.Tree.{at_key};
ghost use Rattle.form_select.specs.Datalists.{is_in_datalist};

use form_judge::is_barred_by_itself;
use form_tree::{Node, Tree};

/// Whether an element is a candidate, by whether it is disabled and has a datalist above it.
pub fn is_candidate(tree: &Tree, node: &Node, disabled: bool, in_datalist: bool) -> bool
    requires there { at_key tree.now.nodes node.now.key ≡ Some node.now }
    requires disabled { disabled ≡ is_disabled tree.now.nodes node.now.key }
    requires datalist { in_datalist ≡ is_in_datalist tree.now.nodes node.now }
    ensures { result ≡ is_candidate tree.now.nodes node.now.key }
{
    if !node.tag.is_submittable() {
        return false;
    }
    !(is_barred_by_itself(node) || disabled || in_datalist)
}
