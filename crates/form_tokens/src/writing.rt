// Characters and references are written, decoded, behind a text.
ghost use Rattle.std.specs.Prelude.{◌≡◌, ◌≤◌, ◌++◌, ◌<◌, ◌∷◌, [], ℕ, List, drop, length, string_bytes, false, true, IfErr, IfOk, IsUtf8, MatchOption, OnOk};
ghost use Rattle.std.specs.Char.{encode_utf8};
ghost use Rattle.form_tokens.specs.declared.chunk.Context.{Context};
ghost use Rattle.std.specs.List.{prefix_len};
ghost use Rattle.form_tokens.specs.Readers.{Fails, Gives};
ghost use Rattle.form_tokens.specs.Bytes.{ampersand};
ghost use Rattle.form_tokens.specs.Characters.{HaltsIn, IsReadTo, chunk_at, chunk_of, decoded, goes_on, joined, shown_len};
ghost use Rattle.form_tokens.specs.Ahead.{AreParts, IsClear};
ghost use Rattle.form_tokens.specs.Runs.{begins, is_other};

use crate::ahead::plain_len;
use crate::characters::{common_chunk, goes_on, goes_on_in, part_of};
use crate::chunk::{Chunk, Context};
use crate::cursor::before;
use crate::fault::{Halt, Stop};
use form_text::Text;
use std::alloc::{AllocError, Global};

// For so many bytes there is room before the first characters are written: no more stand before the next
// tag.
fn room_of(context: Context, chunk: Chunk<'_>, rest: &str) -> usize {
    let ahead = match context {
        Context::Value => rest.len(),
        _ => before(b'<', rest.as_bytes()),
    };
    match chunk {
        Chunk::Run(text) => ahead.saturating_add(text.len()),
        Chunk::Character(c) => ahead.saturating_add(c.len_utf8()),
    }
}

// Writes characters behind a text. Where it has none yet, room is made for those to come.
#[inline(always)]
fn write_chunk(
    out: &mut String,
    context: Context,
    chunk: Chunk<'_>,
    rest: &str,
) -> Result<(), AllocError>
    ensures { OnOk result (string_bytes out.new ≡ string_bytes out.old ++ chunk_of chunk.entry) }
{
    if out.is_empty() {
        out.reserve(room_of(context, chunk, rest))?;
    }
    chunk.write(out)
}

// How many bytes there are up to the next tag or the end, where all of them are characters and few; else 0.
#[inline(always)]
fn plain_end(context: Context, bytes: &[u8]) -> usize
    ensures value { 0 < result → result ≡ shown_len context bytes.now }
    ensures ends { 0 < result → goes_on context (drop result bytes.now) ≡ false }
{
    let count = plain_len(context, bytes);
    let (_, rest) = bytes.split_at(count);
    if goes_on_in(context, rest) {
        return 0;
    }
    count
}

// All characters up to the next tag or the end, and what stands behind them, where they are few and none of
// them is a `&`.
#[inline(always)]
fn plain_of(context: Context, text: &str) -> Option<(&str, &str)>
    ensures value { MatchOption result (Unit {0})
        (λ x. IsReadTo context (x.0.now ∷ []) text.now x.1.now) }
    ensures utf8 { MatchOption result (Unit {0}) (λ x. IsUtf8 x.1.now) }
{
    let count = plain_end(context, text.as_bytes());
    if count == 0 {
        return None;
    }
    Some(text.split_at(count))
}

// Whether characters stand at the front, where so many bytes are clear.
#[inline(always)]
fn goes_on_from(context: Context, text: &str, clear: usize) -> bool
    requires { IsClear context clear text.now }
    ensures { result ≡ goes_on context text.now }
{
    if clear > 0 {
        return true;
    }
    goes_on(context, text)
}

// How many of the bytes that are clear stand before the first `&`, where there is one.
#[inline(always)]
fn clear_run(bytes: &[u8], clear: usize) -> Option<usize>
    requires { clear ≤ length bytes.now }
    ensures bound { MatchOption result (Unit {0}) (λ count. count < clear) }
    ensures none { MatchOption result (Unit {0}) (λ count. count ≤ prefix_len (is_other ampersand) bytes.now) }
    ensures next { MatchOption result (Unit {0}) (λ count. begins ampersand (drop count bytes.now) ≡ true) }
{
    let (front, _) = bytes.split_at(clear);
    let count = before(b'&', front);
    if count == clear { None } else { Some(count) }
}

// The characters up to the first `&` and the common reference that stands there, as far as the text is
// clear; what stands behind it, and how much of that is clear.
#[inline(always)]
fn common_run(context: Context, text: &str, clear: usize) -> Option<(&str, char, &str, usize)>
    requires { IsClear context clear text.now }
    ensures parts { MatchOption result (Unit {0}) (λ x. (parts : List (List ℕ))
        × AreParts context parts text.now x.2.now × (x.0.now ++ encode_utf8 x.1 ≡ joined parts)) }
    ensures less { MatchOption result (Unit {0}) (λ x. length x.2.now < length text.now) }
    ensures utf8 { MatchOption result (Unit {0}) (λ x. IsUtf8 x.2.now) }
    ensures clear { MatchOption result (Unit {0}) (λ x. IsClear context x.3 x.2.now) }
{
    let Some(count) = clear_run(text.as_bytes(), clear) else {
        return None;
    };
    let (shown, rest) = text.split_at(count);
    let Some((c, behind, left)) = common_chunk(context, rest, clear - count) else {
        return None;
    };
    Some((shown, c, behind, left))
}

// Writes the characters up to a common reference and it, or else another part; gives what stands behind, and
// how much of it is clear.
#[inline(always)]
fn write_some<'a>(
    out: &mut String,
    context: Context,
    text: &'a str,
    clear: usize,
) -> Result<(&'a str, usize), Stop>
    requires clear { IsClear context clear text.now }
    requires goes { goes_on context text.now ≡ true }
    ensures parts { IfOk result (λ x. (parts : List (List ℕ)) × AreParts context parts text.now x.0.now
        × (string_bytes out.new ≡ string_bytes out.old ++ joined parts)) }
    ensures less { IfOk result (λ x. length x.0.now < length text.now) }
    ensures utf8 { IfOk result (λ x. IsUtf8 x.0.now) }
    ensures clear { IfOk result (λ x. IsClear context x.1 x.0.now) }
    ensures halt { IfErr result (λ stop. Fails stop (chunk_at context text.now)) }
{
    if let Some((shown, c, rest, left)) = common_run(context, text, clear) {
        write_chunk(out, context, Chunk::Run(shown), rest)?;
        out.push(c)?;
        return Ok((rest, left));
    }
    let (chunk, rest, left) = part_of(context, text, clear)?;
    write_chunk(out, context, chunk, rest)?;
    Ok((rest, left))
}

// Writes all characters and references at the front, a part or two at a time.
#[inline(never)]
fn write_parts<'a>(out: &mut String, context: Context, text: &'a str) -> Result<&'a str, Halt>
    ensures value { IfOk result (λ rest. (chunks : List (List ℕ))
        × IsReadTo context chunks text.now rest.now
        × (string_bytes out.new ≡ string_bytes out.old ++ joined chunks)) }
    ensures utf8 { IfOk result (λ rest. IsUtf8 rest.now) }
    ensures halt { IfErr result (λ halt. HaltsIn context text.now halt) }
{
    let mut rest = text;
    let mut clear = 0;
    'parts: while goes_on_from(context, rest, clear) {
        match write_some(out, context, rest, clear) {
            Ok((after, left)) => {
                rest = after;
                clear = left;
            }
            Err(stop) => {
                return Err(Halt {
                    stop,
                    left: rest.len(),
                });
            }
        }
    }
    Ok(rest)
}

/// Writes the characters and references at the front of a text behind what was written, decoded, and
/// gives what stands behind them: a tag, the end tag of the textarea, or nothing where the value ends.
/// An error says where it stopped, unless memory was refused; of what was written then nothing is said.
pub fn write_text<'a>(out: &mut String, context: Context, text: &'a str) -> Result<&'a str, Halt>
    ensures value { IfOk result (λ rest. (chunks : List (List ℕ))
        × IsReadTo context chunks text.now rest.now
        × (string_bytes out.new ≡ string_bytes out.old ++ joined chunks)) }
    ensures utf8 { IfOk result (λ rest. IsUtf8 rest.now) }
    ensures halt { IfErr result (λ halt. HaltsIn context text.now halt) }
{
    if let Some((plain, rest)) = plain_of(context, text) {
        out.push_str(plain)?;
        return Ok(rest);
    }
    write_parts(out, context, text)
}

/// The value of an attribute, decoded.
pub fn decode(alloc: Global, text: &str) -> Result<Text, Stop>
    ensures { Gives (λ x. x) result (decoded text.now) }
{
    let mut out = String::new(alloc);
    match write_text(&mut out, Context::Value, text) {
        Ok(_) => Ok(Text::from_string(out)),
        Err(halt) => Err(halt.stop),
    }
}
