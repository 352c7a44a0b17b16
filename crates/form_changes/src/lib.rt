//! What the user or a script does to a page, and what each change makes of the one element that it is
//! made to.
#![tactic(auto)]

mod act;
mod counting;
mod elements;
mod following;
mod role;
mod states;
mod values;

pub use act::{Act, ActFault};
pub use counting::{
    changes_state, is_beyond_by_attr, is_beyond_by_text, is_given_by_attr, moves_value,
};
pub use elements::{has_kept_value, is_file_kind, is_input, is_range, is_textarea};
pub use following::{follows_checked, follows_selected, follows_value};
pub use role::{Role, role_of};
pub use states::{
    chosen, given, sanitised, set_checked, set_selected, typed, with_checked, with_kind,
    with_message, with_selected, with_value_text, without_file_number,
};

/// The most attributes that an element may have.
pub const MOST_ATTRIBUTES: usize = 64;
