//! A generated page of controls, ten commands on each, and what is counted of the run over them.
//!
//! The page and its commands are functions of the number of controls: what [`generate`] gives is the
//! page and the lines of the definitions `generated_page` and `generated_lines`. The four kinds of
//! controls take turns. What [`print_counts`] writes is `counts_text` of the counts.
//!
//! Want of memory is the one free answer: a body that always gives it meets the contracts too. The
//! tests of `form_worked_streams` show that with ample memory it is not given.
#![tactic(auto)]

mod counts;
mod generator;

pub use counts::{Counts, print_counts};
pub use generator::{Control, Generated, generate};
