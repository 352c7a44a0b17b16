ghost use Rattle.std.specs.Prelude.{◌≡◌, ◌≤◌, length};
ghost use Rattle.std.specs.Char.{encode_utf8};
ghost use Rattle.form_text.specs.Utf16.{code_units, utf16_length};

/// How many UTF-16 code units the text has, which is the length that `maxlength` and `minlength`
/// count (Infra, "length" of a string).
pub fn utf16_len(text: &str) -> usize
    ensures { result ≡ utf16_length text.now }
{
    let mut units = 0;
    for c in text.chars() {
        units += code_units(c);
    }
    units
}

// A character has no more code units than bytes in UTF-8.
fn code_units(c: char) -> usize
    ensures value { result ≡ code_units c }
    ensures short { result ≤ length (encode_utf8 c) }
{
    c.len_utf16()
}
