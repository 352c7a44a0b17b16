//! The elements of a page as a list of nodes in tree order, with keys that are never used again.
//!
//! Contracts see a `Tree` as the list of its nodes. Behind it stands an index from key numbers to
//! places, which agrees with the list by the tree's invariant and which no public clause names.
#![tactic(auto)]

mod attributes;
mod node;
mod tree;

pub use node::{Key, Node, Raw, State, Tag};
pub use tree::Tree;
