ghost use Rattle.std.specs.Prelude.{◌≡◌, IfOk, OnOk, string_bytes};
ghost use Rattle.std.specs.Str.{str_eq_ignore_ascii_case};
ghost use Rattle.form_text.specs.Whitespace.{stripped, stripped_and_collapsed, written_word};

use std::alloc::{AllocError, Global};

/// The text without the ASCII whitespace at its two ends, lent (Infra, "strip leading and trailing
/// ASCII whitespace").
pub fn strip_whitespace(text: &str) -> &str
    ensures { result.now ≡ stripped text.now }
{
    text.trim_ascii()
}

/// The words of the text, which ASCII whitespace parts, with one space between each two (Infra,
/// "strip and collapse ASCII whitespace").
pub fn strip_collapse(alloc: Global, text: &str) -> Result<String, AllocError>
    ensures { IfOk result (λ s. string_bytes s ≡ stripped_and_collapsed text.now) }
{
    let mut out = String::with_capacity(alloc, text.len())?;
    for word in text.split_ascii_whitespace() {
        push_word(&mut out, word)?;
    }
    Ok(out)
}

// Writes a word, behind a space where something is written already.
fn push_word(out: &mut String, word: &str) -> Result<(), AllocError>
    ensures { OnOk result (string_bytes out.new ≡ written_word (string_bytes out.old) word.now) }
{
    if out.is_empty() {
        return out.push_str(word);
    }
    out.push(' ')?;
    out.push_str(word)
}

/// Whether two texts are one when the ASCII letters are lower-cased (Infra, "ASCII
/// case-insensitive").
pub fn eq_ascii_case(a: &str, b: &str) -> bool
    ensures { result ≡ str_eq_ignore_ascii_case a.now b.now }
{
    a.eq_ignore_ascii_case(b)
}
