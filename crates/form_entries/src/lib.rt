//! The entry list of a form: what its controls give to a submission (HTML, "Constructing the entry
//! list"). The rules stand in docs/profile/entry-list.md.
//!
//! The list is a filter and a map of the whole tree in tree order. Its bytes are counted before the
//! first entry is made, without memory.
#![tactic(auto)]

mod below;
mod collecting;
mod controls;
mod gift;
mod list;
mod measuring;

pub use list::{EntryFault, MOST_BYTES, entries};
