//! The options of a select element, and what the selectedness setting algorithm leaves selected; and
//! which elements stand in a datalist.
//!
//! Each call on a tree reads the nodes that stand directly behind the select: its descendants.
#![tactic(auto)]

mod behind;
mod datalists;
mod elements;
mod options;
mod selects;
mod settling;
mod states;
mod walk;

pub use behind::elements_behind;
pub use datalists::in_datalists;
pub use options::{is_option_of, option_disabled, option_value, select_of};
pub use selects::{display_size, first_selected, missing, placeholder, select_value};
pub use settling::{settle, settled};
pub use states::settled_states;
