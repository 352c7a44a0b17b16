ghost use Rattle.std.specs.Prelude.{◌≡◌, ◌<◌, ℕ, List, ◌++◌, length, IfOk, IfSome, MatchOption, position, string_bytes};
ghost use Rattle.form_text.specs.LineEnds.{without_newlines, with_lf, with_crlf, with_line_ends, is_newline, behind_newline};

use std::alloc::{AllocError, Global};

/// The text without its LF and CR (Infra, "strip newlines").
pub fn strip_newlines(alloc: Global, text: &str) -> Result<String, AllocError>
    ensures { IfOk result (λ s. string_bytes s ≡ without_newlines text.now) }
{
    rewritten(alloc, text, "", text.len())
}

/// The text with each line end, CR LF or a CR or an LF alone, made LF (Infra, "normalize
/// newlines").
pub fn normalise_lf(alloc: Global, text: &str) -> Result<String, AllocError>
    ensures { IfOk result (λ s. string_bytes s ≡ with_lf text.now) }
{
    rewritten(alloc, text, "\n", text.len())
}

/// The text with each line end, CR LF or a CR or an LF alone, made CR LF (HTML, "Converting an
/// entry list to a list of name-value pairs").
pub fn normalise_crlf(alloc: Global, text: &str) -> Result<String, AllocError>
    ensures { IfOk result (λ s. string_bytes s ≡ with_crlf text.now) }
{
    let newlines = text.bytes().filter(|b| is_newline(*b)).count();
    rewritten(alloc, text, "\r\n", text.len().saturating_add(newlines))
}

// The text with `end` for each line end, in a string that begins with room for `room` bytes.
fn rewritten(alloc: Global, text: &str, end: &str, room: usize) -> Result<String, AllocError>
    ensures { IfOk result (λ s. string_bytes s ≡ with_line_ends end.now text.now) }
{
    let mut out = String::with_capacity(alloc, room)?;
    let mut rest = text;
    while let Some((line, behind)) = cut_at_line_end(rest) {
        out.push_str(line)?;
        out.push_str(end)?;
        rest = behind;
    }
    out.push_str(rest)?;
    Ok(out)
}

// What stands before the first line end of the text, and what stands behind it.
fn cut_at_line_end(text: &str) -> Option<(&str, &str)>
    ensures cut { MatchOption result
        ((end : List ℕ) → with_line_ends end text.now ≡ text.now)
        (λ parts. (end : List ℕ) → with_line_ends end text.now
        ≡ parts.0.now ++ (end ++ with_line_ends end parts.1.now)) }
    ensures shorter { IfSome result (λ parts. length parts.1.now < length text.now) }
{
    let Some(at) = newline_place(text) else {
        return None;
    };
    let newline = text.as_bytes()[at];
    let behind = behind_line_end(newline, &text[at + 1..]);
    Some((&text[..at], behind))
}

// Where the first LF or CR stands.
fn newline_place(text: &str) -> Option<usize>
    ensures { result ≡ position is_newline text.now }
{
    text.as_bytes().iter().position(|byte| is_newline(*byte))
}

// What stands behind a line end, where `rest` stands behind its first byte.
fn behind_line_end(newline: u8, rest: &str) -> &str
    ensures { result.now ≡ behind_newline newline rest.now }
{
    if newline != b'\r' {
        return rest;
    }
    match rest.strip_prefix('\n') {
        Some(behind) => behind,
        None => rest,
    }
}

fn is_newline(byte: u8) -> bool
    ensures { result ≡ is_newline byte }
{
    byte == b'\n' || byte == b'\r'
}
