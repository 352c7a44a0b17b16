//! The radio button groups of a page: who is a member, in order of entering, which of them are
//! required, and which are checked.
//!
//! Contracts see a `Groups` as the list of its entries, of which a group is the filter by owner and
//! name. No clause tells a group that all members left from one that nobody entered.
//!
//! Beside them stand the elements that have each file among their selected files (`Holders`).
#![tactic(auto)]

mod group;
mod groups;
mod holders;

pub use groups::Groups;
pub use holders::Holders;
