use form_text::Text;

/// A file that was handed in with a page: its name, and whether it is still there.
#[derive(Clone, Debug, Drop)]
pub struct File {
    pub name: Text,
    pub there: bool,
}
