// What a submission comes to.
use crate::request::Request;
use form_text::Sequence;
use form_tree::Key;
use thiserror::Error;

/// What the submission of a form comes to (HTML, "Form submission algorithm").
#[derive(Debug, Drop)]
pub enum Outcome {
    /// It was stopped, since these controls are invalid, in tree order.
    Stopped(Sequence<Key>),
    /// There is no request.
    NoRequest(Why),
    /// The request.
    Request(Request),
}

/// Why a submission makes no request.
#[derive(Clone, Copy, Debug, PartialEq, Eq)]
pub enum Why {
    /// Its method is `dialog`.
    Dialog,
    /// The action is no URL.
    Action,
    /// The scheme of the action is none that takes a request.
    Scheme,
    /// The names, values and files have more than 67,108,864 bytes.
    Long,
    /// Each boundary that was handed in stands in some part of the multipart body.
    Clash,
}

/// Why the outcome of a submission is not known.
#[derive(Clone, Copy, Debug, PartialEq, Eq, Error)]
pub enum SubmitFault {
    /// A file failed.
    #[error("a file failed")]
    Blob,
    /// There is no memory, or a URL would have 4 GB or more.
    #[error("no memory")]
    Memory,
}
