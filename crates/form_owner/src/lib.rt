//! Which form owns an element of a page, and which controls are disabled.
//!
//! `Owners` keeps an answer for each element, made in one pass in tree order: an element's answer
//! is made from that of its parent, which stands before it. Contracts see the list of the answers;
//! it stands for a page where it is `owners_of` of the page's nodes.
#![tactic(auto)]

mod answer;
mod moves;
mod owned;
mod owners;
mod search;

pub use answer::Answer;
pub use moves::Move;
pub use owned::Owned;
pub use owners::Owners;
