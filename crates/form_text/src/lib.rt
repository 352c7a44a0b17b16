//! Small texts: the two types in which every crate above keeps its strings and lists, and the
//! small text rules of forms.
//!
//! Each call answers its definition in `specs/`; what no clause says is how much memory a string is
//! given when it begins.
#![tactic(auto)]

mod front;
mod integers;
mod line_ends;
mod sequence;
mod text;
mod utf16;
mod whitespace;

pub use front::behind;
pub use integers::parse_nonneg;
pub use line_ends::{normalise_crlf, normalise_lf, strip_newlines};
pub use sequence::Sequence;
pub use text::Text;
pub use utf16::utf16_len;
pub use whitespace::{eq_ascii_case, strip_collapse, strip_whitespace};
