//! The reader of groups: it goes over the tokens once, with a stack of open groups.
ghost use Rattle.std.specs.Prelude.{◌≡◌, IfOk, length};
ghost use Rattle.std.specs.Option.{option_map};
ghost use Rattle.form_pattern.specs.Grouping.{fresh, with_last, whole, with_atom, with_term, quantified, inside, opened, closed, turn, read};
ghost use Rattle.form_pattern.specs.Pieces.{piece_of, level_of, levels, pieces};

use crate::nodes::Node;
use crate::pieces::{Piece, ahead_piece, either_piece, next_piece, repeat_piece};
use crate::tokens::{High, Token};
use std::alloc::{AllocError, Global};

/// How deep groups may nest.
pub const DEEPEST: usize = 64;

/// A group that is open.
#[derive(Drop)]
pub struct Frame {
    /// The lookahead that it is, if it is one; true for `(?!`.
    ahead: Option<bool>,
    /// The alternatives before.
    before: Option<Piece>,
    /// The branch so far.
    branch: Piece,
    /// The last atom, which a quantifier may follow.
    atom: Option<Piece>,
}

fn fresh(ahead: Option<bool>, before: Option<Piece>) -> Frame
    ensures { level_of result ≡ fresh pieces ahead (option_map piece_of before) }
{
    let branch = Piece::Light(0, Node::Nothing);
    Frame {
        ahead,
        before,
        branch,
        atom: None,
    }
}

// The branch with its last atom.
fn terms(alloc: Global, branch: Piece, atom: Option<Piece>) -> Result<Piece, AllocError>
    ensures { IfOk result (λ p. piece_of p ≡ with_last pieces (piece_of branch) (option_map piece_of atom)) }
{
    match atom {
        Some(atom) => next_piece(alloc, branch, atom),
        None => Ok(branch),
    }
}

// All that was read of a group.
fn whole(alloc: Global, frame: Frame) -> Result<Piece, AllocError>
    ensures { IfOk result (λ p. piece_of p ≡ whole pieces (level_of frame)) }
{
    let Frame {
        before,
        branch,
        atom,
        ..
    } = frame;
    let branch = terms(alloc, branch, atom)?;
    match before {
        Some(before) => either_piece(alloc, before, branch),
        None => Ok(branch),
    }
}

fn with_atom(alloc: Global, frame: Frame, piece: Piece) -> Result<Frame, AllocError>
    ensures { IfOk result (λ f. level_of f ≡ with_atom pieces (level_of frame) (piece_of piece)) }
{
    let Frame {
        ahead,
        before,
        branch,
        atom,
    } = frame;
    let branch = terms(alloc, branch, atom)?;
    Ok(Frame {
        ahead,
        before,
        branch,
        atom: Some(piece),
    })
}

fn with_term(alloc: Global, frame: Frame, piece: Piece) -> Result<Frame, AllocError>
    ensures { IfOk result (λ f. level_of f ≡ with_term pieces (level_of frame) (piece_of piece)) }
{
    let Frame {
        ahead,
        before,
        branch,
        atom,
    } = frame;
    let branch = terms(alloc, branch, atom)?;
    let branch = next_piece(alloc, branch, piece)?;
    Ok(Frame {
        ahead,
        before,
        branch,
        atom: None,
    })
}

// The last atom with a quantifier; None where no atom stands there.
fn quantified(
    alloc: Global,
    frame: Frame,
    low: u32,
    high: High,
) -> Result<Option<Frame>, AllocError>
    ensures { IfOk result (λ o. option_map level_of o ≡ quantified pieces (level_of frame) low high (level_of frame).atom) }
{
    let Frame {
        ahead,
        before,
        branch,
        atom,
    } = frame;
    let Some(atom) = atom else {
        return Ok(None);
    };
    let atom = repeat_piece(alloc, low, high, atom)?;
    let branch = next_piece(alloc, branch, atom)?;
    Ok(Some(Frame {
        ahead,
        before,
        branch,
        atom: None,
    }))
}

// What was inside a group, put into the group around it.
fn inside(
    alloc: Global,
    ahead: Option<bool>,
    under: Frame,
    inner: Piece,
) -> Result<Frame, AllocError>
    ensures { IfOk result (λ f. level_of f ≡ inside pieces ahead (level_of under) (piece_of inner)) }
{
    match ahead {
        None => with_atom(alloc, under, inner),
        Some(absent) => {
            let piece = ahead_piece(alloc, absent, inner)?;
            with_term(alloc, under, piece)
        }
    }
}

// Opens a group, unless it is too deep.
fn opened(
    ahead: Option<bool>,
    top: Frame,
    stack: &mut Vec<Frame>,
) -> Result<Option<Frame>, AllocError>
    ensures { IfOk result (λ o. option_map (λ f. (level_of f, levels stack.new.items)) o ≡ opened pieces ahead (level_of top) (levels stack.old.items)) }
{
    if stack.len() < DEEPEST {
        stack.push(top)?;
        return Ok(Some(fresh(ahead, None)));
    }
    Ok(None)
}

// Closes the group on top.
fn closed(alloc: Global, top: Frame, stack: &mut Vec<Frame>) -> Result<Option<Frame>, AllocError>
    ensures { IfOk result (λ o. option_map (λ f. (level_of f, levels stack.new.items)) o ≡ closed pieces (level_of top) (levels stack.old.items)) }
{
    let Some(under) = stack.pop() else {
        return Ok(None);
    };
    let ahead = top.ahead;
    let inner = whole(alloc, top)?;
    let frame = inside(alloc, ahead, under, inner)?;
    Ok(Some(frame))
}

// One token, behind which so many are left.
fn turn(
    alloc: Global,
    left: usize,
    token: &Token,
    top: Frame,
    stack: &mut Vec<Frame>,
) -> Result<Option<Frame>, AllocError>
    ensures { IfOk result (λ o. option_map (λ f. (level_of f, levels stack.new.items)) o ≡ turn pieces left token.now (level_of top) (levels stack.old.items)) }
{
    match token {
        Token::Chars(_) => Ok(Some(with_atom(alloc, top, Piece::Light(1, Node::One(left)))?)),
        Token::Start => Ok(Some(with_term(alloc, top, Piece::Light(1, Node::Start))?)),
        Token::Finish => Ok(Some(with_term(alloc, top, Piece::Light(1, Node::Finish))?)),
        Token::Bar => {
            let ahead = top.ahead;
            let before = whole(alloc, top)?;
            Ok(Some(fresh(ahead, Some(before))))
        }
        Token::Open => opened(None, top, stack),
        Token::Ahead(absent) => opened(Some(*absent), top, stack),
        Token::Close => closed(alloc, top, stack),
        Token::Quantifier(low, high) => quantified(alloc, top, *low, *high),
    }
}

/// What the tokens spell, if they are a pattern.
pub fn read(alloc: Global, tokens: &[Token]) -> Result<Option<Piece>, AllocError>
    ensures { IfOk result (λ o. option_map piece_of o ≡ read pieces tokens.now) }
{
    let mut stack: Vec<Frame> = Vec::new(alloc);
    let mut top = fresh(None, None);
    let mut left = tokens.len();
    for token in tokens {
        left -= 1;
        match turn(alloc, left, token, top, &mut stack)? {
            Some(next) => top = next,
            None => return Ok(None),
        }
    }
    if stack.is_empty() {
        let piece = whole(alloc, top)?;
        return Ok(Some(piece));
    }
    Ok(None)
}
