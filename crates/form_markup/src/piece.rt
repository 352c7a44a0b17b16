use form_text::{Sequence, Text};

/// A start tag or the tag of a void element: the element's name as it is written, and of the
/// attributes of each name the first.
#[derive(Drop)]
pub struct Head<'a> {
    pub name: &'a str,
    pub attrs: Sequence<(Text, Text)>,
}

/// A piece of the text that begins with `<`, as the reader finds it.
#[derive(Drop)]
pub enum Found<'a> {
    Start(Head<'a>),
    Void(Head<'a>),
    /// A tag with too many attributes or too long a value.
    Oversized,
    /// An end tag, with its name as it is written.
    End(&'a str),
    /// A comment or a doctype.
    Ignored,
}
