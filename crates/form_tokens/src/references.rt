// References to characters.
ghost use Rattle.std.specs.Prelude.{◌≤◌, ◌||◌, MatchOption};
ghost use Rattle.std.specs.Str.Parse.{IsNumeral, digits_value};
ghost use Rattle.form_tokens.specs.Readers.{Gives};
ghost use Rattle.form_tokens.specs.References.{IsCommon, character, named, named_at, number_at, numeric_at, reference_at};
ghost use Rattle.form_tokens.specs.declared.class.Class.TheVariants as classes;

use crate::class::Class;
use crate::cursor::{after_byte, begins, run_of};
use crate::fault::{Fault, Stop};

// The character of a number that digits write.
fn character_of(digits: &str, radix: u32) -> Result<char, Stop>
    requires low { 2 ≤ radix }
    requires high { radix ≤ 36 }
    requires numeral { IsNumeral radix digits.now }
    ensures { Gives (λ c. c) result (character (digits_value radix digits.now)) }
{
    let Ok(code) = u32::from_str_radix(digits, radix) else {
        return Err(Stop::At(Fault::Lexical));
    };
    let Some(c) = char::from_u32(code) else {
        return Err(Stop::At(Fault::Lexical));
    };
    if code == 0 || (code >= 0x80 && code <= 0x9F) {
        return Err(Stop::At(Fault::Lexical));
    }
    Ok(c)
}

#[tactic(auto, unfolding(crate::specs::References::number_at))]
fn decimal_of(text: &str) -> Result<(char, &str), Stop>
    ensures { Gives (λ x. (x.0, x.1.now)) result (number_at 10 classes.Digit text.now) }
{
    let (digits, rest) = run_of(Class::Digit, text)?;
    let rest = after_byte(rest, b';')?;
    let c = character_of(digits, 10)?;
    Ok((c, rest))
}

#[tactic(auto, unfolding(crate::specs::References::number_at))]
fn hexadecimal_of(text: &str) -> Result<(char, &str), Stop>
    ensures { Gives (λ x. (x.0, x.1.now)) result (number_at 16 classes.Hexadecimal text.now) }
{
    let (digits, rest) = run_of(Class::Hexadecimal, text)?;
    let rest = after_byte(rest, b';')?;
    let c = character_of(digits, 16)?;
    Ok((c, rest))
}

// What stands behind `&#`.
#[tactic(auto, unfolding(crate::specs::References::numeric_at))]
fn numeric_of(text: &str) -> Result<(char, &str), Stop>
    ensures { Gives (λ x. (x.0, x.1.now)) result (numeric_at text.now) }
{
    if begins(text, b'x') {
        let rest = after_byte(text, b'x')?;
        return hexadecimal_of(rest);
    }
    if begins(text, b'X') {
        let rest = after_byte(text, b'X')?;
        return hexadecimal_of(rest);
    }
    decimal_of(text)
}

#[tactic(auto, unfolding(crate::specs::References::named))]
fn named(name: &str) -> Result<char, Stop>
    ensures { Gives (λ c. c) result (named name.now) }
{
    if name == "amp" {
        return Ok('&');
    }
    if name == "lt" {
        return Ok('<');
    }
    if name == "gt" {
        return Ok('>');
    }
    if name == "quot" {
        return Ok('"');
    }
    if name == "apos" {
        return Ok('\'');
    }
    if name == "nbsp" {
        return Ok('\u{A0}');
    }
    Err(Stop::At(Fault::Lexical))
}

#[tactic(auto, unfolding(crate::specs::References::named_at))]
fn named_of(text: &str) -> Result<(char, &str), Stop>
    ensures { Gives (λ x. (x.0, x.1.now)) result (named_at text.now) }
{
    let (name, rest) = run_of(Class::Alphanumeric, text)?;
    let rest = after_byte(rest, b';')?;
    let c = named(name)?;
    Ok((c, rest))
}

/// The character of one of the references that pages have most, and how many bytes it takes behind its
/// `&`; these are asked first, since that is faster than to look for the end of a name.
#[inline(always)]
pub fn common_of(bytes: &[u8]) -> Option<(char, usize)>
    ensures { MatchOption result (Unit {0}) (λ x. IsCommon x.0 x.1 bytes.now) }
{
    let Some(first) = bytes.first() else {
        return None;
    };
    if !first.is_ascii_lowercase() {
        return None;
    }
    if bytes.starts_with(b"amp;") {
        return Some(('&', 4));
    }
    if bytes.starts_with(b"lt;") {
        return Some(('<', 3));
    }
    if bytes.starts_with(b"gt;") {
        return Some(('>', 3));
    }
    if bytes.starts_with(b"quot;") {
        return Some(('"', 5));
    }
    None
}

/// The character that a reference stands for; the text stands behind its `&`.
#[tactic(auto, unfolding(crate::specs::References::reference_at))]
pub fn reference_of(text: &str) -> Result<(char, &str), Stop>
    ensures { Gives (λ x. (x.0, x.1.now)) result (reference_at text.now) }
{
    if begins(text, b'#') {
        let rest = after_byte(text, b'#')?;
        return numeric_of(rest);
    }
    named_of(text)
}
