// Who owns the elements so far: who owned them in the page, but for those that moved.
ghost use Rattle.std.specs.Prelude.{◌≡◌, IfOk, None, map, filter};
ghost use Rattle.std.specs.BTreeMap.{get};
ghost use Rattle.std.specs.Ordering.{nat_cmp};
ghost use Rattle.form_tree.specs.declared.node.Key.{Key};
ghost use Rattle.form_tree.specs.Elements.{is_input, passes};
ghost use Rattle.form_drafts.specs.Drafts.{becomes_by, owner_so_far};

use crate::draft::Draft;
use form_changes::is_input;
use form_owner::Move;
use form_page::Page;
use form_tree::{Key, Tree};
use std::alloc::{AllocError, Global};
use std::collections::BTreeMap;

/// The owner of an element so far, by the owners that elements have come to.
pub fn owner_of(page: &Page, moved: &BTreeMap<u32, Option<Key>>, key: Key) -> Option<Key>
    ensures { result ≡ owner_so_far page.now.tree.nodes moved.now key }
{
    match moved.get(&key.0) {
        Some(owner) => *owner,
        None => page.owner(key),
    }
}

/// The owners that elements come to by these moves.
pub fn moved_of(alloc: Global, moves: &[Move]) -> Result<BTreeMap<u32, Option<Key>>, AllocError>
    ensures { IfOk result (λ moved. (k : Key) → get nat_cmp moved k.0 ≡ becomes_by moves.now None k) }
{
    let mut moved = BTreeMap::new(alloc);
    for change in moves {
        moved.insert(change.key.0, change.becomes)?;
    }
    Ok(moved)
}

/// The keys of the inputs among the elements that move, in their order.
pub fn inputs_of(alloc: Global, tree: &Tree, moves: &[Move]) -> Result<Vec<Key>, AllocError>
    ensures { IfOk result (λ keys.
        keys.items ≡ map (λ m. m.key) (filter (λ m. passes is_input tree.now.nodes m.key) moves.now)) }
{
    let mut keys = Vec::new(alloc);
    for change in moves {
        if is_input_at(tree, change.key) {
            keys.push(change.key)?;
        }
    }
    Ok(keys)
}

fn is_input_at(tree: &Tree, key: Key) -> bool
    ensures { result ≡ passes is_input tree.now.nodes key }
{
    match tree.node(key) {
        Some(node) => is_input(node),
        None => false,
    }
}
