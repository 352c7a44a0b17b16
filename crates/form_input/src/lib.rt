//! What comes in: the words of a call, and the input, cut into a page and the lines of its script.
//!
//! [`task_of`] answers what the words ask for by the definition of the same name; [`read_all`] gives
//! all that a source has, or why not; [`split_script`] cuts a text at its first line that says
//! `%script`; [`first_line`] takes one line from a text, and [`without_cr`] is what that line says.
//!
//! Want of memory is the one free answer: bodies of `task_of` and `read_all` that always give it meet
//! their contracts too. The tests of `form_worked_streams` show that with ample memory it is not given.
#![tactic(auto)]

mod input;
mod lines;
mod moves;
mod words;

pub use input::split_script;
pub use lines::{first_line, without_cr};
pub use moves::{ReadStop, read_all};
pub use words::{Task, TaskStop, task_of};
