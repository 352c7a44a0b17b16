//! The ten flags of a control: in which ways it fails to satisfy its constraints (HTML, "Constraint
//! validation").
//!
//! Each flag is one definition of `specs/Flags`, over the node of the control and three facts about
//! the rest of the page. What depends on the state of an input is asked of the table of types and of
//! the rules of the states. [`judge`] is the one call that makes a [`Verdict`], and counts each in
//! [`Steps`].
#![tactic(auto)]

mod barring;
mod beginning;
mod control;
mod flags;
mod inputs;
mod judging;
mod lengths;
mod mismatches;
mod missing;
mod patterns;
mod ranges;
mod steps;
#[cfg(test)]
mod tests;

pub use barring::is_barred_by_itself;
pub use beginning::first_states;
pub use control::{is_button, is_input, is_textarea, kind_of, value_attr_or};
pub use flags::{Facts, Flags};
pub use judging::{Verdict, compile_pattern, judge};
pub use patterns::{all_patterns, fresh_patterns, put_patterns};
pub use steps::Steps;
