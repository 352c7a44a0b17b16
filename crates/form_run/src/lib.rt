//! The top call: a page and a script of commands in, a transcript out.
//!
//! [`run`] reads the whole input, cuts it into a page and lines, and writes the transcript: what it
//! wrote is a text of the relation `IsExpected`, whose end is the status, and every other ending has
//! its cause. It stands in layers. `asked_of` says what a command asks for, and `Session` does it;
//! `serve` says the reply to one line; `serve_all` folds over the lines and never names a command;
//! `transcribe` reads the page and says the transcript of an input; and `run` reads first.
//!
//! The texts are those of `form_replies`. What is said is kept until there is much of it
//! (`form_pending`); it is written before a file is read or a request is printed, and at each ending.
//!
//! A command to come is a variant of `Asked`, a case in `asked_of` and a case in the one `match` of
//! `serve_asked`, each beside its definition in `specs/`.
#![tactic(auto)]

mod asked;
mod counting;
mod running;
mod serving;
mod session;
mod status;
mod taken;
mod texts;
mod top;
mod transcript;

pub use form_generator::{Generated, generate};
pub use status::{Status, code};
pub use top::run;
