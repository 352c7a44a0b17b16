// What is sent.
use form_text::{Sequence, Text};

/// A piece of a request's body.
#[derive(Debug, Drop)]
pub enum Piece {
    /// Bytes that are held.
    Bytes(Sequence<u8>),
    /// The bytes of a file: its number in the list of files, from 1, and how many bytes it has.
    File { number: u32, size: u64 },
}

/// A request (HTML, "Form submission algorithm").
#[derive(Debug, Drop)]
pub struct Request {
    /// Whether it is a POST request, which has a kind and a body; else it is a GET request.
    pub post: bool,
    pub url: Text,
    /// The type of the body.
    pub kind: Option<Text>,
    pub body: Sequence<Piece>,
}

/// Why a request was not written whole.
#[derive(Clone, Copy, Debug, PartialEq, Eq)]
pub enum SendFault {
    /// The sink failed.
    Sink,
    /// A file failed.
    Blob,
    /// A file that should have given so many bytes, the first number, gave another number of them, the
    /// second. A file that gives more is read up to one byte past the first number.
    Changed(u64, u64),
}
