//! Dates, months, weeks, times and local dates and times of a form, as texts and as numbers.
#![tactic(auto)]

mod date;
mod digits;
mod local;
mod month;
mod time;
mod week;

pub use date::{print_date, read_date};
pub use local::{print_local, read_local};
pub use month::{print_month, read_month};
pub use time::{print_time, read_time};
pub use week::{print_week, read_week, weeks_in};
