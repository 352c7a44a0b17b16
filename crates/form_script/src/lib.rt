//! The text of a script, and the printed forms of its transcript.
//!
//! What a definition of `specs/` calls spelled is a relation between texts and values, by cases, on
//! whole texts; what it calls printed is a function. A printed text is one of those that spell it.
#![tactic(auto)]

mod boundary;
mod command;
mod fault;
mod flags;
mod line;
mod lists;
mod literal;
mod parse;
mod quoted;
mod reading;
mod verb;
mod views;
mod words;

pub use command::Command;
pub use fault::LineFault;
pub use flags::flag_words;
pub use literal::unquote;
pub use parse::parse_line;
pub use quoted::{push_quoted, quote};
pub use views::view_line;
