ghost use Rattle.std.specs.Prelude.{◌≡◌, option_copied};
ghost use Rattle.form_text.specs.Front.{behind};

/// What stands behind the front, if the text begins with it.
pub fn behind<'a>(text: &'a str, front: &str) -> Option<&'a str>
    ensures { option_copied result ≡ behind front.now text.now }
{
    match text.strip_prefix(front) {
        Some(rest) => Some(rest),
        None => None,
    }
}
