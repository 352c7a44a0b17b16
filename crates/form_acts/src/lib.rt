//! What is done to a page of forms: the edits of its user and of its script, with all that follows
//! from them by the standard, and what a click or the enter key asks for.
#![tactic(auto)]

mod applying;
mod attributes;
mod clicked;
mod clicking;
mod elements;
mod marking;
mod option_attributes;
mod radio_attributes;
mod refusals;
mod single;
mod type_attribute;
mod value_attributes;

pub use applying::apply;
pub use clicked::Clicked;
pub use clicking::{click, implicit};
pub use elements::is_submitter;
pub use form_changes::{Act, ActFault, Role, role_of};
