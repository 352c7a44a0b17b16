use form_tree::Key;

/// What a click or implicit submission asks for.
#[derive(Clone, Copy, Debug, PartialEq, Eq)]
pub enum Clicked {
    Nothing,
    Reset {
        form: Key,
    },
    /// The form is to be submitted, by a submit button or by itself; `at` is where an image button
    /// was clicked.
    Submit {
        form: Key,
        submitter: Option<Key>,
        at: (u32, u32),
    },
}
