//! The patterns of text controls: which texts are patterns, and which values they match.
//!
//! The rules stand in docs/profile/patterns.md, as definitions in `specs/`: which text spells which
//! part (`Spelling`), how the parts make a tree (`Grammar`), what a tree weighs (`Pattern`), which
//! characters a part stands for (`Membership`), and which stretches of a value a tree matches
//! (`Matching`). `Compiled` joins them to what the two calls promise; `Deciding` has the same as
//! truth values, for definitions of the crates above, and `proofs/Laws.antt` joins the two.
//!
//! `compile` reads the text once, character for character into tokens (`Reading`), and the tokens
//! with a stack of open groups (`Grouping`) into a tree without quantifiers, whose copies are made
//! only where the weight allows (`Pieces`). `matches` goes over the value once, from its end: at
//! each place each node says what it can do there, from what the nodes could do one place behind
//! (`Steps`). So no pattern takes longer than nodes times characters, whatever its quantifiers and
//! lookaheads are.
#![tactic(auto)]

mod characters;
mod classes;
mod escapes;
mod groups;
mod matching;
mod nodes;
mod numbers;
mod pattern;
mod pieces;
mod ranges;
mod tables;
mod tokens;

pub use crate::pattern::Pattern;
