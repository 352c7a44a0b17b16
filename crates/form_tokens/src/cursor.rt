// Small readers of the front of a text.
ghost use Rattle.std.specs.Prelude.{◌≡◌, ◌≤◌, ◌<◌, length, take, drop, ◌==◌};
ghost use Rattle.std.specs.Char.{is_ascii_alphabetic};
ghost use Rattle.std.specs.List.{prefix_len};
ghost use Rattle.form_tokens.specs.Readers.{Gives};
ghost use Rattle.form_tokens.specs.Runs.{IsLow, begins, begins_so, behind, behind_space, in_class, is_other, run_at, run_len};
ghost use Rattle.form_tokens.specs.Attributes.{begins_attribute};
ghost use Rattle.form_tokens.specs.declared.class.Class.TheVariants as classes;

use crate::class::Class;
use crate::fault::{Fault, Stop};
use memchr::memchr;

/// How many bytes stand before the first of the kind.
pub fn before(byte: u8, bytes: &[u8]) -> usize
    ensures value { result ≡ prefix_len (is_other byte) bytes.now }
    ensures bound { result ≤ length bytes.now }
{
    match memchr(byte, bytes) {
        Some(place) => place,
        None => bytes.len(),
    }
}

// How many bytes stand before the quote or U+0000.
fn quoted_len(quote: u8, bytes: &[u8]) -> usize
    ensures value { result ≡ run_len (classes.Quoted quote) bytes.now }
    ensures bound { result ≤ length bytes.now }
{
    let (front, _) = bytes.split_at(before(quote, bytes));
    before(0, front)
}

// How many bytes of the class stand at the front, one after another.
#[inline(always)]
fn counted_len(class: Class, bytes: &[u8]) -> usize
    ensures value { result ≡ run_len class bytes.now }
    ensures bound { result ≤ length bytes.now }
{
    for (i, b) in bytes.iter().enumerate() {
        if !class.has(*b) {
            return i;
        }
    }
    bytes.len()
}

/// How many bytes of the class stand at the front.
#[inline(always)]
pub fn run_len(class: Class, bytes: &[u8]) -> usize
    ensures value { result ≡ run_len class bytes.now }
    ensures bound { result ≤ length bytes.now }
{
    match class {
        Class::Quoted(quote) => quoted_len(quote, bytes),
        _ => counted_len(class, bytes),
    }
}

/// The front of the text that is of the class, and what stands behind it.
#[inline(always)]
pub fn split_run(class: Class, text: &str) -> (&str, &str)
    requires { IsLow class }
    ensures front { result.0.now ≡ take (run_len class text.now) text.now }
    ensures back { result.1.now ≡ drop (run_len class text.now) text.now }
    ensures len { length result.0.now ≡ run_len class text.now }
{
    text.split_at(run_len(class, text.as_bytes()))
}

/// As many bytes of the class as there are, at least one, and what stands behind them.
#[inline(always)]
#[tactic(auto, unfolding(crate::specs::Runs::run_at))]
pub fn run_of(class: Class, text: &str) -> Result<(&str, &str), Stop>
    requires { IsLow class }
    ensures { Gives (λ x. (x.0.now, x.1.now)) result (run_at class text.now) }
{
    let (run, rest) = split_run(class, text);
    if run.is_empty() {
        return Err(Stop::At(Fault::Lexical));
    }
    Ok((run, rest))
}

/// What stands behind whitespace, of which there may be none.
pub fn behind_space(text: &str) -> &str
    ensures { result.now ≡ behind_space text.now }
{
    let (_, rest) = split_run(Class::Space, text);
    rest
}

/// Whether the text begins with the byte.
pub fn begins(text: &str, byte: u8) -> bool
    ensures { result ≡ begins byte text.now }
{
    match text.as_bytes() {
        [first, ..] => *first == byte,
        [] => false,
    }
}

/// Whether the text begins with an ASCII letter.
pub fn begins_letter(text: &str) -> bool
    ensures { result ≡ begins_so is_ascii_alphabetic text.now }
{
    match text.as_bytes() {
        [first, ..] => first.is_ascii_alphabetic(),
        [] => false,
    }
}

fn begins_attribute_name(text: &str) -> bool
    ensures { result ≡ begins_so (in_class classes.AttributeName) text.now }
{
    match text.as_bytes() {
        [first, ..] => Class::AttributeName.has(*first),
        [] => false,
    }
}

/// Whether whitespace and then the name of an attribute stand at the front.
pub fn begins_attribute(text: &str) -> bool
    ensures { result ≡ begins_attribute text.now }
{
    let (space, rest) = split_run(Class::Space, text);
    if space.is_empty() {
        return false;
    }
    begins_attribute_name(rest)
}

/// What stands behind the byte.
pub fn after_byte(text: &str, byte: u8) -> Result<&str, Stop>
    requires { byte < 128 }
    ensures { Gives (λ x. x.now) result (behind byte text.now) }
{
    if !begins(text, byte) {
        return Err(Stop::At(Fault::Lexical));
    }
    let (_, rest) = text.split_at(1);
    Ok(rest)
}
