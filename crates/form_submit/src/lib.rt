//! The submission of a form, and how a request is written.
//!
//! The bytes of a request's body are gathered in a buffer of 1,024 bytes and printed in pieces, the lines of
//! 64 of them in one write, so that neither a body nor a file is ever held whole.
//!
//! The URL Standard and the writing of pairs are those of the crates `url` and `form_urlencoded`:
//! the definitions cite their own.
#![tactic(auto)]

mod attributes;
mod body;
mod direct;
mod file;
mod gatherer;
mod invalid;
mod lines;
mod multipart;
mod outcome;
mod parts;
mod request;
mod requests;
mod route;
mod sending;
mod submission;

pub use outcome::{Outcome, SubmitFault, Why};
pub use request::{Piece, Request, SendFault};
pub use sending::write_request;
pub use submission::submit;
