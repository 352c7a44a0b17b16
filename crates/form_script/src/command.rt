use form_changes::Act;
use form_text::{Sequence, Text};
use form_tree::Key;

/// What a line of a script asks for.
#[derive(Debug, Drop)]
pub enum Command {
    /// Something is done to the page.
    Act(Act),
    /// A click of the element.
    Click(Key),
    /// A click of an image button, at this place of the image, from its left and from its top.
    ClickAt(Key, u32, u32),
    /// The enter key, pressed in the element (HTML, "Implicit submission").
    Enter(Key),
    /// The script submits the form, without validation (HTML, `submit()`).
    Submit(Key),
    /// The script requests the form's submission, by a submitter or none (HTML, `requestSubmit()`).
    RequestSubmit(Key, Option<Key>),
    /// What is seen of the element is shown.
    Show(Key),
    /// The boundaries that multipart bodies may have from now on.
    Boundary(Sequence<Text>),
}
