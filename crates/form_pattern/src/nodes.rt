//! Patterns without quantifiers, as trees.
ghost use Rattle.std.specs.Prelude.{◌≡◌, ◌-◌, IfOk};
ghost use Rattle.form_pattern.specs.Pieces.{tree_of, next_tree, either_tree, many_tree, is_nothing, after_tree, copies, at_least, repeated};

use crate::tokens::High;
use std::alloc::{AllocError, Global};

/// What a node can do at a place of a value.
#[derive(Debug, Clone, Copy)]
pub struct Seen {
    /// It matches the empty stretch there.
    pub empty: bool,
    /// Through it, by a character at least, the end can be reached.
    pub on: bool,
}

/// A pattern without quantifiers. While a value is read, it also holds what is known of the place
/// that was read last.
#[derive(Debug, Drop)]
pub enum Node {
    Nothing,
    Start,
    Finish,
    /// The characters of the token that has so many tokens behind it.
    One(usize),
    /// One behind the other, and what the second can do.
    Next(Box<Node>, Box<Node>, Seen),
    Either(Box<Node>, Box<Node>),
    /// One time or more, and whether a round, by a character at least, leads to the end.
    Many(Box<Node>, bool),
    /// A lookahead; with true for `(?!`.
    Ahead(bool, Box<Node>),
}

pub fn next(alloc: Global, a: Node, b: Node) -> Result<Node, AllocError>
    ensures { IfOk result (λ n. tree_of n ≡ next_tree (tree_of a) (tree_of b)) }
{
    let unseen = Seen {
        empty: false,
        on: false,
    };
    Ok(Node::Next(Box::new(alloc, a)?, Box::new(alloc, b)?, unseen))
}

pub fn either(alloc: Global, a: Node, b: Node) -> Result<Node, AllocError>
    ensures { IfOk result (λ n. tree_of n ≡ either_tree (tree_of a) (tree_of b)) }
{
    Ok(Node::Either(Box::new(alloc, a)?, Box::new(alloc, b)?))
}

fn many(alloc: Global, a: Node) -> Result<Node, AllocError>
    ensures { IfOk result (λ n. tree_of n ≡ many_tree (tree_of a)) }
{
    Ok(Node::Many(Box::new(alloc, a)?, false))
}

// The same tree once more.
fn copy(alloc: Global, node: &Node) -> Result<Node, AllocError>
    ensures { IfOk result (λ n. tree_of n ≡ tree_of node.now) }
{
    match node {
        Node::Nothing => Ok(Node::Nothing),
        Node::Start => Ok(Node::Start),
        Node::Finish => Ok(Node::Finish),
        Node::One(left) => Ok(Node::One(*left)),
        Node::Next(a, b, behind) => {
            let a = copy(alloc, a)?;
            let b = copy(alloc, b)?;
            Ok(Node::Next(Box::new(alloc, a)?, Box::new(alloc, b)?, *behind))
        }
        Node::Either(a, b) => {
            let a = copy(alloc, a)?;
            let b = copy(alloc, b)?;
            Ok(Node::Either(Box::new(alloc, a)?, Box::new(alloc, b)?))
        }
        Node::Many(a, round) => {
            let a = copy(alloc, a)?;
            Ok(Node::Many(Box::new(alloc, a)?, *round))
        }
        Node::Ahead(absent, a) => {
            let a = copy(alloc, a)?;
            Ok(Node::Ahead(*absent, Box::new(alloc, a)?))
        }
    }
}

fn is_nothing(node: &Node) -> bool
    ensures { result ≡ is_nothing (tree_of node.now) }
{
    match node {
        Node::Nothing => true,
        Node::Start => false,
        Node::Finish => false,
        Node::One(_) => false,
        Node::Next(_, _, _) => false,
        Node::Either(_, _) => false,
        Node::Many(_, _) => false,
        Node::Ahead(_, _) => false,
    }
}

// One behind the other; behind nothing it stands alone.
fn after(alloc: Global, front: Node, node: Node) -> Result<Node, AllocError>
    ensures { IfOk result (λ n. tree_of n ≡ after_tree (tree_of front) (tree_of node)) }
{
    if is_nothing(&front) {
        return Ok(node);
    }
    next(alloc, front, node)
}

// A tree, and then a number of copies of another.
fn copies(alloc: Global, count: u32, node: &Node, front: Node) -> Result<Node, AllocError>
    ensures { IfOk result (λ n. tree_of n ≡ copies count (tree_of node.now) (tree_of front)) }
{
    let mut all = front;
    for _ in 0..count {
        let one = copy(alloc, node)?;
        all = after(alloc, all, one)?;
    }
    Ok(all)
}

// At least so many copies of a tree.
fn at_least(alloc: Global, low: u32, node: Node) -> Result<Node, AllocError>
    ensures { IfOk result (λ n. tree_of n ≡ at_least low (tree_of node)) }
{
    if low == 0 {
        let some = many(alloc, node)?;
        return either(alloc, some, Node::Nothing);
    }
    let front = copies(alloc, low - 1, &node, Node::Nothing)?;
    let last = many(alloc, node)?;
    after(alloc, front, last)
}

/// A tree with a quantifier.
#[tactic(auto, unfolding(crate::specs::Pieces::repeated))]
pub fn repeated(alloc: Global, low: u32, high: High, node: Node) -> Result<Node, AllocError>
    ensures { IfOk result (λ n. tree_of n ≡ repeated low high (tree_of node)) }
{
    match high {
        High::Times(high) => {
            let front = copies(alloc, low, &node, Node::Nothing)?;
            let some = either(alloc, node, Node::Nothing)?;
            copies(alloc, high.saturating_sub(low), &some, front)
        }
        High::Endless => at_least(alloc, low, node),
        High::Sign => at_least(alloc, low, node),
    }
}
