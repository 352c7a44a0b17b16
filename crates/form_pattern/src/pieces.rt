//! Parts of a pattern with their weights. What weighs more than 2,000 is not built.
ghost use Rattle.std.specs.Prelude.{◌≡◌, ◌+◌, ◌-◌, ◌*◌, IfOk};
ghost use Rattle.form_pattern.specs.Pattern.{repeat_weight};
ghost use Rattle.form_pattern.specs.Pieces.{tree_of, piece_of, joined, next_piece, either_piece, is_never, repeated_light, repeat_piece, ahead_piece};

use crate::nodes::{Node, either, next, repeated};
use crate::tokens::High;
use std::alloc::{AllocError, Global};

/// The greatest weight of a pattern that compiles.
pub const HEAVIEST: u64 = 2_000;

/// A part of a pattern.
#[derive(Drop)]
pub enum Piece {
    /// It weighs more than 2,000.
    Heavy,
    /// Its weight, and its tree.
    Light(u32, Node),
}

// One tree behind the other. What weighs nothing matches the empty stretch alone and needs no node.
fn joined(alloc: Global, v: u32, a: Node, w: u32, b: Node) -> Result<Node, AllocError>
    ensures { IfOk result (λ n. tree_of n ≡ joined (v, tree_of a) (w, tree_of b)) }
{
    if w == 0 {
        return Ok(a);
    }
    if v == 0 {
        return Ok(b);
    }
    next(alloc, a, b)
}

/// One piece behind the other.
#[tactic(auto, unfolding(crate::specs::Pieces::next_piece))]
pub fn next_piece(alloc: Global, a: Piece, b: Piece) -> Result<Piece, AllocError>
    ensures { IfOk result (λ p. piece_of p ≡ next_piece (piece_of a) (piece_of b)) }
{
    let Piece::Light(v, a) = a else {
        return Ok(Piece::Heavy);
    };
    let Piece::Light(w, b) = b else {
        return Ok(Piece::Heavy);
    };
    let weight = v as u64 + w as u64;
    if HEAVIEST < weight {
        return Ok(Piece::Heavy);
    }
    let node = joined(alloc, v, a, w, b)?;
    Ok(Piece::Light(weight as u32, node))
}

/// One piece or the other.
#[tactic(auto, unfolding(crate::specs::Pieces::either_piece))]
pub fn either_piece(alloc: Global, a: Piece, b: Piece) -> Result<Piece, AllocError>
    ensures { IfOk result (λ p. piece_of p ≡ either_piece (piece_of a) (piece_of b)) }
{
    let Piece::Light(v, a) = a else {
        return Ok(Piece::Heavy);
    };
    let Piece::Light(w, b) = b else {
        return Ok(Piece::Heavy);
    };
    let weight = v as u64 + w as u64 + 1;
    if HEAVIEST < weight {
        return Ok(Piece::Heavy);
    }
    let node = either(alloc, a, b)?;
    Ok(Piece::Light(weight as u32, node))
}

// The weight of a quantified atom.
fn repeat_weight(low: u32, high: High, weight: u32) -> u64
    ensures { result ≡ repeat_weight low high weight }
{
    let weight = weight as u64;
    match high {
        High::Times(high) => high as u64 * weight + high.saturating_sub(low) as u64,
        High::Endless => low as u64 * weight + weight + 1,
        High::Sign => weight + 1,
    }
}

fn is_never(high: High) -> bool
    ensures { result ≡ is_never high }
{
    match high {
        High::Times(high) => high == 0,
        High::Endless => false,
        High::Sign => false,
    }
}

// A light piece with a quantifier. Copies of nothing are nothing.
fn repeated_light(
    alloc: Global,
    low: u32,
    high: High,
    before: u32,
    node: Node,
) -> Result<Piece, AllocError>
    ensures { IfOk result (λ p. piece_of p ≡ repeated_light low high (before, tree_of node)) }
{
    let weight = repeat_weight(low, high, before);
    if HEAVIEST < weight {
        return Ok(Piece::Heavy);
    }
    if before == 0 {
        return Ok(Piece::Light(weight as u32, Node::Nothing));
    }
    let node = repeated(alloc, low, high, node)?;
    Ok(Piece::Light(weight as u32, node))
}

/// A piece with a quantifier. `{0}` makes a heavy piece light again.
#[tactic(auto, unfolding(crate::specs::Pieces::repeat_piece))]
pub fn repeat_piece(alloc: Global, low: u32, high: High, piece: Piece) -> Result<Piece, AllocError>
    ensures { IfOk result (λ p. piece_of p ≡ repeat_piece low high (piece_of piece)) }
{
    if is_never(high) {
        return Ok(Piece::Light(0, Node::Nothing));
    }
    let Piece::Light(before, node) = piece else {
        return Ok(Piece::Heavy);
    };
    repeated_light(alloc, low, high, before, node)
}

/// A piece as a lookahead.
#[tactic(auto, unfolding(crate::specs::Pieces::ahead_piece))]
pub fn ahead_piece(alloc: Global, absent: bool, piece: Piece) -> Result<Piece, AllocError>
    ensures { IfOk result (λ p. piece_of p ≡ ahead_piece absent (piece_of piece)) }
{
    let Piece::Light(before, node) = piece else {
        return Ok(Piece::Heavy);
    };
    let weight = before as u64 + 1;
    if HEAVIEST < weight {
        return Ok(Piece::Heavy);
    }
    Ok(Piece::Light(weight as u32, Node::Ahead(absent, Box::new(alloc, node)?)))
}
