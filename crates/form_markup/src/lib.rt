//! The page reader: a text of strict markup, read into the list of its elements.
//!
//! The elements are given exactly where the text spells them, and else the first fault from the left
//! with its kind and its place. The rules stand in docs/profile/markup.md and as definitions in
//! `specs/`: pieces and how a text is cut into them (`Pieces`), what contents are and which elements
//! they have (`Contents`), what is a fault (`Faults`), and what a text spells (`Spelling`).
#![tactic(auto)]

mod fault;
mod machine;
mod names;
mod page;
mod piece;
mod raws;
mod reading;
mod stack;

pub use fault::PageFault;
pub use form_tokens::{MOST_ATTRIBUTES, MOST_VALUE};
pub use page::{one_answer, read, read_in};

/// The most elements that a text may have.
pub const MOST_ELEMENTS: usize = 65_536;

/// The greatest depth of an element; one at the top lies at depth 1.
pub const MOST_DEPTH: usize = 256;
