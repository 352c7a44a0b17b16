// The elements behind a select, among which its options are.
ghost use Rattle.std.specs.Prelude.{◌≡◌, filter, Some, All};
ghost use Rattle.form_tree.specs.Selects.{is_option_of, options};
ghost use Rattle.form_tree.specs.Tree.{at_key};

use crate::walk::end_behind;
use form_tree::{Key, Node, Tree};

/// The elements that stand directly behind an element, up to the first that is no descendant of
/// it, in tree order; none, where it is not there. All options of a select are among these.
pub fn elements_behind(tree: &Tree, select: Key) -> &[Node]
    ensures options { filter (λ n. is_option_of tree.now.nodes select n.key) result.now
        ≡ options tree.now.nodes select }
    ensures there { All (λ n. at_key tree.now.nodes n.key ≡ Some n) result.now }
{
    let nodes = tree.nodes();
    match tree.place(select) {
        Some(place) => {
            let end = end_behind(tree, select, place);
            let behind = nodes.split_at(place + 1).1;
            behind.split_at(end - (place + 1)).0
        }
        None => nodes.split_at(0).0,
    }
}
