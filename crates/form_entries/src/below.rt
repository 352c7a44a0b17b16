// The options of a select, among the elements that stand behind it.
ghost use Rattle.std.specs.Prelude.{◌≡◌, filter, Some, All};
ghost use Rattle.form_tree.specs.Selects.{is_option_of, options};
ghost use Rattle.form_tree.specs.Tree.{at_key};
ghost use Rattle.form_entries.specs.Below.{is_sent_by};

use form_page::Page;
use form_select::{elements_behind, is_option_of, option_disabled};
use form_tree::{Key, Node, Tree};

/// Some elements behind a select, among which all its options are, in tree order.
pub fn elements_with_options(page: &Page, select: Key) -> &[Node]
    ensures options { filter (λ n. is_option_of page.now.tree.nodes select n.key) result.now
        ≡ options page.now.tree.nodes select }
    ensures there { All (λ n. at_key page.now.tree.nodes n.key ≡ Some n) result.now }
{
    elements_behind(page.tree(), select)
}

/// Whether an element is an option of the select that is selected and not disabled.
pub fn is_sent_by(tree: &Tree, select: Key, node: &Node) -> bool
    requires { at_key tree.now.nodes node.now.key ≡ Some node.now }
    ensures { result ≡ is_sent_by tree.now.nodes select node.now }
{
    if !is_option_of(tree, select, node.key) || !node.state.selected {
        return false;
    }
    !option_disabled(tree, node.key)
}
