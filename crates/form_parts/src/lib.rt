//! The parts of a multipart body, read for the boundary that the body may have. Each entry has one
//! part: its text, or the bytes of its file.
//!
//! A file is rewound and read in pieces, and never held whole; only files that an entry names are
//! read, in entry order, and at the byte that passes the limit reading stops.
#![tactic(auto)]

mod entry;
mod file;
mod parts;

pub use parts::{Parts, PartsStop, read_parts};
