// Texts between quotes, as they are printed.
ghost use Rattle.std.specs.Prelude.{◌≡◌, ◌++◌, ◌∷◌, ◌<◌, [], IfOk, IfSome, IsTrue, MatchOption, OnOk, flat_map, length, position, string_bytes};
ghost use Rattle.form_script.specs.Bytes.{backslash};
ghost use Rattle.form_script.specs.Quoted.{IsQuoted, escape, is_control, is_escaped, quoted, shown};

use std::alloc::{AllocError, Global};

/// The text between quotes, as it is printed and as a script may spell it.
pub fn quote(alloc: Global, text: &str) -> Result<String, AllocError>
    ensures printed { IfOk result (λ literal. string_bytes literal ≡ quoted text.now) }
    ensures read_back { IfOk result (λ literal. IsQuoted (string_bytes literal) text.now) }
{
    let mut literal = String::new(alloc);
    push_quoted(&mut literal, text)?;
    Ok(literal)
}

/// Writes the text between quotes behind what is written.
pub fn push_quoted(out: &mut String, text: &str) -> Result<(), AllocError>
    ensures { OnOk result (string_bytes out.new ≡ string_bytes out.old ++ quoted text.now) }
{
    out.push('"')?;
    push_shown(out, text)?;
    out.push('"')
}

fn push_shown(out: &mut String, text: &str) -> Result<(), AllocError>
    ensures { OnOk result (string_bytes out.new ≡ string_bytes out.old ++ flat_map shown text.now) }
{
    let mut rest = text;
    while let Some((plain, byte, behind)) = cut_at_escaped(rest) {
        out.push_str(plain)?;
        push_escape(out, byte)?;
        rest = behind;
    }
    out.push_str(rest)
}

// What stands before the first byte that is printed as its escape, that byte, and what stands behind.
fn cut_at_escaped(text: &str) -> Option<(&str, u8, &str)>
    ensures cut { MatchOption result
        (flat_map shown text.now ≡ text.now)
        (λ parts. flat_map shown text.now
        ≡ parts.0.now ++ (backslash ∷ (escape parts.1 ++ flat_map shown parts.2.now))) }
    ensures escaped { IfSome result (λ parts. IsTrue (is_escaped parts.1)) }
    ensures shorter { IfSome result (λ parts. length parts.2.now < length text.now) }
{
    let Some(at) = escaped_place(text) else {
        return None;
    };
    let byte = text.as_bytes()[at];
    Some((&text[..at], byte, &text[at + 1..]))
}

// Where the first byte stands that is printed as its escape.
fn escaped_place(text: &str) -> Option<usize>
    ensures { result ≡ position is_escaped text.now }
{
    text.as_bytes().iter().position(|byte| is_escaped(*byte))
}

fn is_escaped(byte: u8) -> bool
    ensures { result ≡ is_escaped byte }
{
    byte == b'"' || byte == b'\\' || is_control(byte)
}

fn is_control(byte: u8) -> bool
    ensures { result ≡ is_control byte }
{
    byte < b' ' || byte == 0x7F
}

// Writes the escape of a byte that has one.
fn push_escape(out: &mut String, byte: u8) -> Result<(), AllocError>
    ensures { OnOk result (string_bytes out.new ≡ string_bytes out.old ++ (backslash ∷ escape byte)) }
{
    if byte == b'"' {
        return out.push_str("\\\"");
    }
    if byte == b'\\' {
        return out.push_str("\\\\");
    }
    if byte == b'\n' {
        return out.push_str("\\n");
    }
    if byte == b'\r' {
        return out.push_str("\\r");
    }
    if byte == b'\t' {
        return out.push_str("\\t");
    }
    write!(out, "\\u{{{byte:x}}}")
}
