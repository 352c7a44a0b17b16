// The tree of a page as it opens.
ghost use Rattle.std.specs.Prelude.{◌≡◌, ◌<◌, ◌^◌, IfOk, OnOk, vec_len};
ghost use Rattle.form_tree.specs.Tree.{IsTreeOfRaws};
ghost use Rattle.form_page.specs.Opening.{opened_tree, with_first_states, with_settled_selects};

use crate::radios::settle_radios;
use crate::states::put_states;
use form_judge::first_states;
use form_select::settled_states;
use form_tree::{Raw, Tree};
use std::alloc::{AllocError, Global};

/// The tree of a page as it opens.
pub fn opened_tree(alloc: Global, raws: Vec<Raw>) -> Result<Tree, AllocError>
    requires few { vec_len raws < 2 ^ 32 }
    requires tree { IsTreeOfRaws raws.items }
    ensures { IfOk result (λ tree. tree ≡ opened_tree raws.items) }
{
    let mut tree = Tree::from_raw(alloc, raws)?;
    begin(alloc, &mut tree)?;
    settle_radios(alloc, &mut tree)?;
    settle_selects(alloc, &mut tree)?;
    Ok(tree)
}

// Puts into each element the state that it begins with.
fn begin(alloc: Global, tree: &mut Tree) -> Result<(), AllocError>
    ensures { OnOk result (tree.new ≡ record tree.old { nodes = with_first_states tree.old.nodes }) }
{
    let states = first_states(alloc, tree.nodes())?;
    put_states(tree, states);
    Ok(())
}

// Runs the selectedness setting algorithm for every select.
fn settle_selects(alloc: Global, tree: &mut Tree) -> Result<(), AllocError>
    ensures { OnOk result (tree.new ≡ record tree.old { nodes = with_settled_selects tree.old.nodes }) }
{
    let states = settled_states(alloc, tree)?;
    put_states(tree, states);
    Ok(())
}
