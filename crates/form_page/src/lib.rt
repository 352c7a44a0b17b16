//! A page of forms: its elements with what their controls keep, as it opens and as it is changed, and
//! what is seen of each control.
//!
//! Contracts see a [`Page`] as its tree and its files. What is kept beside these (the compiled patterns,
//! the owners, what each form owns, the radio button groups, the elements that have each file, and what
//! is seen of each element, with the verdict on each control) equals its definition over them by the
//! page's invariant, and no public clause names it.
#![tactic(auto)]

mod candidates;
mod changes;
mod edit;
mod facts;
mod file;
mod groups;
mod invalid;
mod kept;
mod opening;
mod owners;
mod page;
mod radios;
mod sight;
mod states;
mod values;
mod verdicts;
mod view;

pub use edit::Edit;
pub use file::File;
pub use page::Page;
pub use sight::Sight;
pub use view::View;
