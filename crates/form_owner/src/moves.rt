ghost use Rattle.std.specs.Prelude.{◌≡◌, ◌++◌, length, IfOk, IsSome, OnOk, string_bytes};
ghost use Rattle.std.specs.Option.{option_map};
ghost use Rattle.form_tree.specs.Elements.{same_owner};
ghost use Rattle.form_tree.specs.Tree.{place_of};
ghost use Rattle.form_owner.specs.Owners.{changed_owner, changed_owners, moves_of, owners_of};

use crate::answer::Answer;
use crate::owners::Owners;
use form_tree::{Key, Tree};
use std::alloc::{AllocError, Global};

/// An element that comes to another owner: its owner so far, and the one that it gets.
#[derive(Clone, Copy, Debug, PartialEq, Eq)]
pub struct Move {
    pub key: Key,
    pub was: Option<Key>,
    pub becomes: Option<Key>,
}

impl Owners {
    /// The listed elements whose owner would change if that attribute of that element were set, or
    /// taken away where there is no value, in tree order: each with its owner and the one that it
    /// would get. Nothing is changed.
    pub fn moves(
        &self,
        tree: &Tree,
        key: Key,
        name: &str,
        value: Option<&str>,
    ) -> Result<Vec<Move>, AllocError>
        requires stands { self.now ≡ owners_of tree.now.nodes }
        requires there { IsSome (place_of tree.now.nodes key) }
        ensures { IfOk result (λ moves. moves.items ≡ moves_of tree.now.nodes key name.now (option_map (λ v. v.now) value.entry)) }
    {
        let alloc = self.allocator();
        let mut changed = tree.copy()?;
        changed.set_attr(key, name, owned(alloc, value)?)?;
        let next = Owners::build(alloc, &changed)?;
        let moves = changes(alloc, self.answers(), next.answers())?;
        Ok(moves)
    }
}

fn owned(alloc: Global, value: Option<&str>) -> Result<Option<String>, AllocError>
    ensures { IfOk result (λ owned. option_map string_bytes owned ≡ option_map (λ v. v.now) value.entry) }
{
    match value {
        Some(value) => Ok(Some(String::from_str(alloc, value)?)),
        None => Ok(None),
    }
}

// Where the owners of two lists differ that have the same elements.
fn changes(alloc: Global, before: &[Answer], after: &[Answer]) -> Result<Vec<Move>, AllocError>
    requires { length before.now ≡ length after.now }
    ensures { IfOk result (λ moves. moves.items ≡ changed_owners before.now after.now) }
{
    let mut moves = Vec::new(alloc);
    for place in 0..before.len() {
        push_move(&mut moves, &before[place], &after[place])?;
    }
    Ok(moves)
}

fn push_move(moves: &mut Vec<Move>, was: &Answer, becomes: &Answer) -> Result<(), AllocError>
    ensures { OnOk result (moves.new.items ≡ moves.old.items ++ changed_owner was.now becomes.now) }
{
    if is_same_owner(was.owner, becomes.owner) {
        return Ok(());
    }
    moves.push(Move {
        key: was.key,
        was: was.owner,
        becomes: becomes.owner,
    })?;
    Ok(())
}

fn is_same_owner(a: Option<Key>, b: Option<Key>) -> bool
    ensures { result ≡ same_owner a b }
{
    match a {
        Some(a) => match b {
            Some(b) => a.0 == b.0,
            None => false,
        },
        None => b.is_none(),
    }
}
