//! How the entries of a form are encoded: as pairs, form-urlencoded, as plain text, and the parts of
//! a multipart body. The rules stand in docs/profile/encoding.md.
//!
//! Each call equals a definition over the whole list. The escapes of a urlencoded text are those of
//! the crate `form_urlencoded`, and delimiters are searched by `memchr`.
#![tactic(auto)]

mod boundaries;
mod entry;
mod multipart;
mod pairing;
mod plain_text;
mod scanning;
mod url_encoding;

pub use boundaries::choose_boundary;
pub use entry::{Entry, Given, Pair};
pub use multipart::{closing_line, part_head};
pub use pairing::pairs;
pub use plain_text::plain;
pub use scanning::Scan;
pub use url_encoding::urlencoded;
