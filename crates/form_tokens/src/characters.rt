// Characters as they are written, and references.
ghost use Rattle.std.specs.Prelude.{◌≡◌, ◌≤◌, ◌+◌, ◌<◌, ◌∷◌, ℕ, List, drop, length, false, true, IfErr, IfOk, IsUtf8, MatchOption, Ok};
ghost use Rattle.std.specs.Char.{encode_utf8};
ghost use Rattle.form_tokens.specs.declared.chunk.Context.{Context};
ghost use Rattle.form_tokens.specs.Readers.{Fails};
ghost use Rattle.form_tokens.specs.Bytes.{ampersand};
ghost use Rattle.form_tokens.specs.Characters.{begins_shown, chunk_at, chunk_of, closes_textarea, ends_name, goes_on, is_reference, is_shown_angle, shown_len};
ghost use Rattle.form_tokens.specs.Ahead.{IsClear, IsPart, ends_run};
ghost use Rattle.form_tokens.specs.Runs.{begins, begins_so, in_class, is_other};
ghost use Rattle.form_tokens.specs.declared.class.Class.TheVariants as classes;
ghost use Rattle.form_tokens.specs.References.{begins_named, begins_reference};

use crate::ahead::some_clear;
use crate::chunk::{Chunk, Context};
use crate::class::Class;
use crate::cursor::{after_byte, before, begins, run_len};
use crate::fault::{Fault, Stop};
use crate::references::{common_of, reference_of};

fn begins_byte(bytes: &[u8], byte: u8) -> bool
    ensures { result ≡ begins byte bytes.now }
{
    match bytes {
        [first, ..] => *first == byte,
        [] => false,
    }
}

// Whether one or more letters and digits and then `;` stand at the front.
fn begins_named(bytes: &[u8]) -> bool
    ensures { result ≡ begins_named bytes.now }
{
    let count = run_len(Class::Alphanumeric, bytes);
    if count == 0 {
        return false;
    }
    let (_, rest) = bytes.split_at(count);
    begins_byte(rest, b';')
}

// Whether a name and `;` stand at the front.
#[inline(never)]
fn begins_name(bytes: &[u8]) -> bool
    ensures { result ≡ begins_named bytes.now }
{
    if common_of(bytes).is_some() {
        return true;
    }
    begins_named(bytes)
}

fn begins_alphanumeric(bytes: &[u8]) -> bool
    ensures { result ≡ begins_so (in_class classes.Alphanumeric) bytes.now }
{
    match bytes {
        [first, ..] => Class::Alphanumeric.has(*first),
        [] => false,
    }
}

// Whether a `&` before these bytes must be a reference.
#[inline(always)]
#[tactic(auto, using(crate::proofs::Frequent::no_name), unfolding(crate::specs::References::begins_reference))]
fn begins_reference(bytes: &[u8]) -> bool
    ensures { result ≡ begins_reference bytes.now }
{
    if begins_byte(bytes, b'#') {
        return true;
    }
    if !begins_alphanumeric(bytes) {
        return false;
    }
    begins_name(bytes)
}

fn begins_end_of_name(bytes: &[u8]) -> bool
    ensures { result ≡ begins_so ends_name bytes.now }
{
    match bytes {
        [first, ..] => Class::Space.has(*first) || *first == b'/' || *first == b'>',
        [] => false,
    }
}

// Whether the end tag of a textarea, or what seems to be one, stands at the front.
#[tactic(auto, using(crate::proofs::Angles::no_solidus), unfolding(crate::specs::Characters::closes_textarea))]
fn closes_textarea(bytes: &[u8]) -> bool
    ensures { result ≡ closes_textarea bytes.now }
{
    if bytes.len() < 10 {
        return false;
    }
    // Most `<` have another byte here.
    if bytes[1] != b'/' {
        return false;
    }
    let (front, rest) = bytes.split_at(10);
    if !front.eq_ignore_ascii_case(b"</textarea") {
        return false;
    }
    begins_end_of_name(rest)
}

// Whether the `<` at the front is a character.
fn is_shown_angle(context: Context, bytes: &[u8]) -> bool
    ensures { result ≡ is_shown_angle context bytes.now }
{
    match context {
        Context::Content => false,
        Context::Textarea => !closes_textarea(bytes),
        Context::Value => true,
    }
}

// Whether the byte at the front, which is no `&`, is a character.
fn begins_shown(context: Context, first: u8, bytes: &[u8]) -> bool
    requires first { (rest : List ℕ) × (bytes.now ≡ first ∷ rest) }
    requires other { is_other ampersand first ≡ true }
    ensures { result ≡ begins_shown context bytes.now }
{
    if first == b'<' {
        return is_shown_angle(context, bytes);
    }
    first != 0
}

// How many bytes of characters stand at the front, one or as many as need no further look; and how many
// bytes behind them are clear. A `&` that begins no reference is one of them where it is to be passed.
#[inline(always)]
fn shown_step(context: Context, bytes: &[u8], clear: usize, passes: bool) -> (usize, usize)
    requires { IsClear context clear bytes.now }
    ensures value { shown_len context bytes.now
        ≡ result.0 + shown_len context (drop result.0 bytes.now) }
    ensures none { result.0 ≡ 0 → ends_run passes context bytes.now ≡ true }
    ensures bound { result.0 ≤ length bytes.now }
    ensures clear { IsClear context result.1 (drop result.0 bytes.now) }
{
    let Some((first, rest)) = bytes.split_first() else {
        return (0, 0);
    };
    if *first == b'&' {
        if !passes || begins_reference(rest) {
            return (0, clear);
        }
        return (1, clear.saturating_sub(1));
    }
    let clear = some_clear(context, bytes, clear);
    if clear == 0 {
        return if begins_shown(context, *first, bytes) {
            (1, 0)
        } else {
            (0, 0)
        };
    }
    let (front, _) = bytes.split_at(clear);
    let count = before(b'&', front);
    (count, clear - count)
}

// How many bytes of characters stand at the front, all of them or those up to the first `&`, and how many
// bytes behind them are clear.
#[inline(always)]
fn shown_run(context: Context, bytes: &[u8], clear: usize, passes: bool) -> (usize, usize)
    requires { IsClear context clear bytes.now }
    ensures value { shown_len context bytes.now
        ≡ result.0 + shown_len context (drop result.0 bytes.now) }
    ensures ends { ends_run passes context (drop result.0 bytes.now) ≡ true }
    ensures bound { result.0 ≤ length bytes.now }
    ensures clear { IsClear context result.1 (drop result.0 bytes.now) }
{
    let mut done = 0;
    let mut clear = clear;
    'steps: while done < bytes.len() {
        let (_, rest) = bytes.split_at(done);
        let (count, left) = shown_step(context, rest, clear, passes);
        if count == 0 {
            return (done, left);
        }
        done += count;
        clear = left;
    }
    (done, clear)
}

// Some characters, what stands behind them, and how much of it is clear.
#[inline(always)]
fn run_part(context: Context, text: &str, clear: usize) -> Result<(Chunk<'_>, &str, usize), Stop>
    requires clear { IsClear context clear text.now }
    requires other { begins ampersand text.now ≡ false }
    ensures part { IfOk result (λ x. IsPart context text.now (chunk_of x.0) x.1.now) }
    ensures utf8 { IfOk result (λ x. IsUtf8 x.1.now) }
    ensures clear { IfOk result (λ x. IsClear context x.2 x.1.now) }
    ensures halt { IfErr result (λ stop. Fails stop (chunk_at context text.now)) }
{
    let (count, left) = shown_run(context, text.as_bytes(), clear, false);
    if count == 0 {
        return Err(Stop::At(Fault::Lexical));
    }
    let (shown, rest) = text.split_at(count);
    Ok((Chunk::Run(shown), rest, left))
}

// All characters behind a `&` that begins no reference, and it; what stands behind them, and how much of
// it is clear.
#[inline(never)]
fn ampersand_part(context: Context, text: &str, clear: usize) -> (Chunk<'_>, &str, usize)
    requires clear { IsClear context clear text.now }
    requires first { begins ampersand text.now ≡ true }
    requires none { is_reference text.now ≡ false }
    ensures part { IsPart context text.now (chunk_of result.0) result.1.now }
    ensures utf8 { IsUtf8 result.1.now }
    ensures clear { IsClear context result.2 result.1.now }
{
    let (count, left) = shown_run(context, text.as_bytes(), clear, true);
    let (shown, rest) = text.split_at(count);
    (Chunk::Run(shown), rest, left)
}

/// A common reference at the front, what stands behind it, and how much of it is clear.
#[inline(always)]
pub fn common_chunk(context: Context, text: &str, clear: usize) -> Option<(char, &str, usize)>
    requires { IsClear context clear text.now }
    ensures value { MatchOption result (Unit {0})
        (λ x. chunk_at context text.now ≡ Ok (encode_utf8 x.0, x.1.now)) }
    ensures utf8 { MatchOption result (Unit {0}) (λ x. IsUtf8 x.1.now) }
    ensures clear { MatchOption result (Unit {0}) (λ x. IsClear context x.2 x.1.now) }
{
    let Some((first, rest)) = text.as_bytes().split_first() else {
        return None;
    };
    if *first != b'&' {
        return None;
    }
    let Some((c, count)) = common_of(rest) else {
        return None;
    };
    let (_, rest) = text.split_at(count + 1);
    Some((c, rest, clear.saturating_sub(count + 1)))
}

fn is_reference(text: &str) -> bool
    ensures { result ≡ is_reference text.now }
{
    match text.as_bytes() {
        [first, rest @ ..] => *first == b'&' && begins_reference(rest),
        [] => false,
    }
}

// What stands at the front and begins with a `&`.
#[inline(always)]
#[tactic(auto, unfolding(crate::specs::Characters::chunk_at))]
fn reference_part<'a>(
    context: Context,
    text: &'a str,
    clear: usize,
) -> Result<(Chunk<'a>, &'a str, usize), Stop>
    requires clear { IsClear context clear text.now }
    requires first { begins ampersand text.now ≡ true }
    ensures part { IfOk result (λ x. IsPart context text.now (chunk_of x.0) x.1.now) }
    ensures utf8 { IfOk result (λ x. IsUtf8 x.1.now) }
    ensures clear { IfOk result (λ x. IsClear context x.2 x.1.now) }
    ensures halt { IfErr result (λ stop. Fails stop (chunk_at context text.now)) }
{
    if let Some((c, rest, left)) = common_chunk(context, text, clear) {
        return Ok((Chunk::Character(c), rest, left));
    }
    if !is_reference(text) {
        return Ok(ampersand_part(context, text, clear));
    }
    let rest = after_byte(text, b'&')?;
    let (c, rest) = reference_of(rest)?;
    let count = text.len().saturating_sub(rest.len());
    Ok((Chunk::Character(c), rest, clear.saturating_sub(count)))
}

/// The characters up to the first `&`, or what begins with a `&`; what stands behind, and how much of it
/// is clear.
#[inline(never)]
pub fn part_of<'a>(
    context: Context,
    text: &'a str,
    clear: usize,
) -> Result<(Chunk<'a>, &'a str, usize), Stop>
    requires { IsClear context clear text.now }
    ensures part { IfOk result (λ x. IsPart context text.now (chunk_of x.0) x.1.now) }
    ensures utf8 { IfOk result (λ x. IsUtf8 x.1.now) }
    ensures clear { IfOk result (λ x. IsClear context x.2 x.1.now) }
    ensures halt { IfErr result (λ stop. Fails stop (chunk_at context text.now)) }
{
    if begins(text, b'&') {
        reference_part(context, text, clear)
    } else {
        run_part(context, text, clear)
    }
}

/// Whether characters stand at the front.
#[inline(always)]
pub fn goes_on_in(context: Context, bytes: &[u8]) -> bool
    ensures { result ≡ goes_on context bytes.now }
{
    match context {
        Context::Content => !bytes.is_empty() && !begins_byte(bytes, b'<'),
        Context::Textarea => !bytes.is_empty() && !closes_textarea(bytes),
        Context::Value => !bytes.is_empty(),
    }
}

/// Whether characters stand at the front: not a tag, nor the end tag of the textarea, nor the end of the
/// text.
pub fn goes_on(context: Context, text: &str) -> bool
    ensures { result ≡ goes_on context text.now }
{
    goes_on_in(context, text.as_bytes())
}
