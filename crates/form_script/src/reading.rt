// Small readers of the front of a text.
ghost use Rattle.std.specs.Prelude.{◌≡◌, ◌<◌, is_some, option_map};
ghost use Rattle.form_script.specs.Reading.{before_last, cut, first_at};

/// What stands before the first such character, and what stands behind it.
pub fn cut(text: &str, mark: char) -> Option<(&str, &str)>
    requires { mark < 128 }
    ensures { option_map (λ parts. (parts.0.now, parts.1.now)) result ≡ cut mark text.now }
{
    text.split_once(mark)
}

/// Whether such a character stands in the text.
pub fn has(text: &str, mark: char) -> bool
    requires { mark < 128 }
    ensures { result ≡ is_some (cut mark text.now) }
{
    cut(text, mark).is_some()
}

/// The first character, where it is of ASCII, and what stands behind it.
pub fn split_first(text: &str) -> Option<(u8, &str)>
    ensures { option_map (λ first. (first.0, first.1.now)) result ≡ first_at text.now }
{
    let [first, ..] = text.as_bytes() else {
        return None;
    };
    if *first >= 128 {
        return None;
    }
    let (_, rest) = text.split_at(1);
    Some((*first, rest))
}

/// What stands before such a last character.
pub fn before_last(text: &str, mark: char) -> Option<&str>
    requires { mark < 128 }
    ensures { option_map (λ front. front.now) result ≡ before_last mark text.now }
{
    text.strip_suffix(mark)
}
