//! The elements of a page while an act is made of raw changes: a draft, and the steps along radio
//! buttons, options and the controls of a form that is reset.
#![tactic(auto)]

mod changed;
mod draft;
mod elements;
mod marking;
mod options;
mod owners;
mod radios;
mod reset_states;
mod resetting;

pub use draft::Draft;
pub use elements::{is_disabled_option, is_multiple, is_radio, select_of};
pub use marking::{set_checked, set_selected};
pub use options::{is_selected_at, settle, settle_select_of, take_selected};
pub use radios::{take_moved_radios, take_new_radio, take_radio};
pub use resetting::{reset, sanitise};
