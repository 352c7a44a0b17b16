// The parts of a multipart body.
ghost use Rattle.std.specs.Prelude.{◌≡◌, ◌<◌, ◌++◌, length, true, IfOk, IfSome, MatchOption, OnOk, position, string_bytes};
ghost use Rattle.form_text.specs.LineEnds.{with_crlf};
ghost use Rattle.form_encode.specs.Boundaries.{delimiter};
ghost use Rattle.form_encode.specs.Multipart.{closing_line, disposition, disposition_start, escaped, escaped_byte, file_name_parameter, has_escape, head_of, head_with, parameter, type_line};

use crate::entry::{Entry, Given};
use form_text::normalise_crlf;
use std::alloc::{AllocError, Global};

fn has_escape(byte: u8) -> bool
    ensures { result ≡ has_escape byte }
{
    byte == b'\n' || byte == b'\r' || byte == b'"'
}

// What stands for a byte that has an escape.
fn escape(byte: u8) -> &'static str
    requires { has_escape byte ≡ true }
    ensures { result.now ≡ escaped_byte byte }
{
    match byte {
        b'\n' => "%0A",
        b'\r' => "%0D",
        _ => "%22",
    }
}

// Where the first byte stands that has an escape.
fn escape_place(name: &str) -> Option<usize>
    ensures { result ≡ position has_escape name.now }
{
    name.as_bytes().iter().position(|byte| has_escape(*byte))
}

// What stands before the first byte of a name that has an escape, the escape, and what stands behind.
fn cut_at_escape(name: &str) -> Option<(&str, &'static str, &str)>
    ensures cut { MatchOption result (escaped name.now ≡ name.now)
        (λ parts. escaped name.now ≡ parts.0.now ++ (parts.1.now ++ escaped parts.2.now)) }
    ensures shorter { IfSome result (λ parts. length parts.2.now < length name.now) }
{
    let Some(at) = escape_place(name) else {
        return None;
    };
    Some((&name[..at], escape(name.as_bytes()[at]), &name[at + 1..]))
}

// Writes a name, escaped.
fn push_escaped(out: &mut String, name: &str) -> Result<(), AllocError>
    ensures { OnOk result (string_bytes out.new ≡ string_bytes out.old ++ escaped name.now) }
{
    let mut rest = name;
    while let Some((front, escape, behind)) = cut_at_escape(rest) {
        out.push_str(front)?;
        out.push_str(escape)?;
        rest = behind;
    }
    out.push_str(rest)
}

// Writes a delimiter.
fn push_delimiter(out: &mut String, boundary: &str) -> Result<(), AllocError>
    ensures { OnOk result (string_bytes out.new ≡ string_bytes out.old ++ delimiter boundary.now) }
{
    out.push_str("--")?;
    out.push_str(boundary)
}

// Writes a parameter of that name, with an escaped text.
#[tactic(auto, unfolding(crate::specs::Multipart::parameter))]
fn push_parameter(out: &mut String, name: &str, text: &str) -> Result<(), AllocError>
    ensures { OnOk result (string_bytes out.new ≡ string_bytes out.old ++ parameter name.now text.now) }
{
    out.push_str("; ")?;
    out.push_str(name)?;
    out.push_str("=\"")?;
    push_escaped(out, text)?;
    out.push_str("\"")
}

// Writes the parameter of a file's name.
fn push_file_name(out: &mut String, value: &Given) -> Result<(), AllocError>
    ensures { OnOk result (string_bytes out.new ≡ string_bytes out.old ++ file_name_parameter value.now) }
{
    match value {
        Given::Text(_) => Ok(()),
        Given::File { name, .. } => push_parameter(out, "filename", name.as_str()),
    }
}

// Writes the line of a file's type.
fn push_type(out: &mut String, value: &Given) -> Result<(), AllocError>
    ensures { OnOk result (string_bytes out.new ≡ string_bytes out.old ++ type_line value.now) }
{
    match value {
        Given::Text(_) => Ok(()),
        Given::File { .. } => out.push_str("Content-Type: application/octet-stream\r\n"),
    }
}

// How many bytes a name has once it is escaped.
fn escaped_len(name: &str) -> usize {
    let escapes = name
        .bytes()
        .filter(|b| matches!(b, b'\n' | b'\r' | b'"'))
        .count();
    name.len().saturating_add(2usize.saturating_mul(escapes))
}

// Room for the head of a part; the texts that stand in each have fewer than 128 bytes.
fn room_of(name: &str, value: &Given, boundary: &str) -> usize {
    let file_name = match value {
        Given::Text(_) => 0,
        Given::File { name, .. } => escaped_len(name.as_str()),
    };
    escaped_len(name)
        .saturating_add(file_name)
        .saturating_add(boundary.len())
        .saturating_add(128)
}

// How the line begins that says which control the part is of.
#[tactic(auto, unfolding(crate::specs::Multipart::disposition_start))]
fn disposition_start() -> &'static str
    ensures { result.now ≡ disposition_start }
{
    "Content-Disposition: form-data"
}

// Writes the line that says which control the part is of.
#[tactic(auto, unfolding(crate::specs::Multipart::disposition))]
fn push_disposition(out: &mut String, name: &str, value: &Given) -> Result<(), AllocError>
    ensures { OnOk result (string_bytes out.new ≡ string_bytes out.old ++ disposition name.now value.now) }
{
    out.push_str(disposition_start())?;
    push_parameter(out, "name", name)?;
    push_file_name(out, value)?;
    out.push_str("\r\n")
}

// Writes what stands before the bytes of an entry with that name.
#[tactic(auto, unfolding(crate::specs::Multipart::head_with))]
fn push_head(out: &mut String, name: &str, value: &Given, boundary: &str) -> Result<(), AllocError>
    ensures { OnOk result (string_bytes out.new ≡ string_bytes out.old ++ head_with name.now value.now boundary.now) }
{
    push_delimiter(out, boundary)?;
    out.push_str("\r\n")?;
    push_disposition(out, name, value)?;
    push_type(out, value)?;
    out.push_str("\r\n")
}

/// What stands before the bytes of an entry in a multipart body: the line of the delimiter, the
/// header lines and an empty line (HTML, "Multipart form data"; RFC 7578).
pub fn part_head(alloc: Global, entry: &Entry, boundary: &str) -> Result<String, AllocError>
    ensures { IfOk result (λ text. string_bytes text ≡ head_of entry.now boundary.now) }
{
    let name = normalise_crlf(alloc, entry.name.as_str())?;
    let mut out = String::with_capacity(alloc, room_of(&name, &entry.value, boundary))?;
    push_head(&mut out, &name, &entry.value, boundary)?;
    Ok(out)
}

/// What stands behind the last part of a multipart body.
pub fn closing_line(alloc: Global, boundary: &str) -> Result<String, AllocError>
    ensures { IfOk result (λ text. string_bytes text ≡ closing_line boundary.now) }
{
    let mut out = String::with_capacity(alloc, boundary.len().saturating_add(6))?;
    push_delimiter(&mut out, boundary)?;
    out.push_str("--\r\n")?;
    Ok(out)
}
