//! The smaller parts of markup: runs of bytes, references, characters and the attributes of a tag.
//!
//! Each reader takes what stands at the front of a text and gives what stands behind it. What it
//! gives is what its definition in `specs/` says, or the one fault that markup has below the level
//! of pieces, or memory was refused.
#![tactic(auto)]

mod ahead;
mod attributes;
mod characters;
mod chunk;
mod class;
mod cursor;
mod fault;
mod references;
mod writing;

pub use attributes::{Attributes, attributes_of};
pub use characters::goes_on;
pub use chunk::Context;
pub use class::Class;
pub use cursor::{after_byte, before, begins, begins_letter, behind_space, run_of};
pub use fault::{Fault, Halt, Stop};
pub use writing::write_text;

/// The most attributes of a tag, counted as they are written.
pub const MOST_ATTRIBUTES: usize = 64;

/// The most bytes of the value of an attribute, decoded.
pub const MOST_VALUE: usize = 1_048_576;
