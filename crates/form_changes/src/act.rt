use form_text::{Sequence, Text};
use form_tree::Key;

/// What the user or a script does to a page. Keys name elements; files are named by their number,
/// counted from 1.
#[derive(Debug, Drop)]
pub enum Act {
    /// The user's text in an input or a textarea.
    User {
        key: Key,
        text: Text,
    },
    /// The script sets the `value` of an input or a textarea.
    Set {
        key: Key,
        text: Text,
    },
    /// An attribute is set, or taken away where there is no value.
    Attr {
        key: Key,
        name: Text,
        value: Option<Text>,
    },
    /// The text that stands directly in a textarea or an option.
    Text {
        key: Key,
        text: Text,
    },
    /// The user checks a checkbox or a radio button, or unchecks a checkbox.
    Check {
        key: Key,
        on: bool,
    },
    /// The script sets the checkedness of an input.
    SetChecked {
        key: Key,
        on: bool,
    },
    /// The user picks an option of a select; in one that is `multiple` it is toggled.
    Pick {
        key: Key,
    },
    /// The script sets the selectedness of an option of a select.
    SetSelected {
        key: Key,
        on: bool,
    },
    /// The custom validity message of a control.
    Custom {
        key: Key,
        text: Text,
    },
    /// The user selects these files in a file input.
    Choose {
        key: Key,
        files: Sequence<u32>,
    },
    /// A file is gone, from the page and from each element that has it selected.
    Withdraw {
        file: u32,
    },
    /// A form is reset.
    Reset {
        key: Key,
    },
}

/// Why an act is refused: the first of these that holds, in this order.
#[derive(Clone, Copy, Debug, PartialEq, Eq)]
pub enum ActFault {
    /// The page has no element of that key.
    NoElement,
    /// The act is for elements of another kind.
    WrongKind,
    /// The user cannot change the element: it is disabled or read-only.
    Immutable,
    /// The input would come to the state email, which this engine does not have.
    Email,
    /// A file of that number is not there.
    NoFile,
    /// The element would have more than [`MOST_ATTRIBUTES`](crate::MOST_ATTRIBUTES) attributes, or more than one file without `multiple`.
    Limit,
    /// There was no memory.
    Memory,
}
