// The elements that stand in a datalist (HTML, "The datalist element").
ghost use Rattle.std.specs.Prelude.{◌≡◌, ℕ, Some, map, take, IfOk};
ghost use Rattle.std.specs.List.{slice_get};
ghost use Rattle.form_tree.specs.Elements.{is_datalist};
ghost use Rattle.form_tree.specs.Tree.{IsTree};
ghost use Rattle.form_select.specs.Datalists.{is_in_datalist};

use form_tree::{Node, Tag, Tree};
use std::alloc::{AllocError, Global};

/// Which elements have a datalist above them, in tree order.
pub fn in_datalists(alloc: Global, tree: &Tree) -> Result<Vec<bool>, AllocError>
    ensures { IfOk result (λ inside. inside.items ≡ map (is_in_datalist tree.now.nodes) tree.now.nodes) }
{
    let nodes = tree.nodes();
    let mut inside = Vec::with_capacity(alloc, nodes.len())?;
    for place in 0..nodes.len() {
        let within = is_in_datalist(tree, &inside, &nodes[place]);
        inside.push(within)?;
    }
    Ok(inside)
}

// Whether an element has a datalist above it, by what is known of those before it.
fn is_in_datalist(tree: &Tree, known: &[bool], node: &Node) -> bool
    requires tree { IsTree tree.now.nodes }
    requires known { (place : ℕ) × (known.now ≡ map (is_in_datalist tree.now.nodes) (take place tree.now.nodes))
        × (slice_get tree.now.nodes place ≡ Some node.now) }
    ensures { result ≡ is_in_datalist tree.now.nodes node.now }
{
    let Some(parent) = node.parent else {
        return false;
    };
    match tree.place(parent) {
        Some(place) => known[place] || is_datalist(&tree.nodes()[place]),
        None => false,
    }
}

fn is_datalist(node: &Node) -> bool
    ensures { result ≡ is_datalist node.now }
{
    matches!(node.tag, Tag::Datalist)
}
