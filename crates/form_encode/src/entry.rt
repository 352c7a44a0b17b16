// Entries and pairs, as plain data.
use form_text::Text;

/// The value of an entry (HTML, "Constructing the entry list").
#[derive(Debug, Drop)]
pub enum Given {
    /// A text.
    Text(Text),
    /// A file: its number in the list of files, and its name. The empty file, which a control
    /// without files gives, has no number and an empty name.
    File { number: Option<u32>, name: Text },
}

/// An entry of an entry list.
#[derive(Debug, Drop)]
pub struct Entry {
    pub name: Text,
    pub value: Given,
}

/// A name and a value.
#[derive(Debug, Drop)]
pub struct Pair {
    pub name: Text,
    pub value: Text,
}
