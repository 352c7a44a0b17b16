//! Escapes.
ghost use Rattle.std.specs.Prelude.{◌≡◌, option_map};
ghost use Rattle.form_pattern.specs.Reading.{scalar_of, null, braced, unicode, byte, escape, set_escape, member};

use crate::characters::{Letter, Set, begins, escape_letter, is_doubled, is_member};
use crate::numbers::{four_hex, number, two_hex};

// The character of a number that was read.
fn scalar_of(code: u32, rest: &[char]) -> Option<(char, &[char])>
    ensures { option_map (λ r. (r.0, r.1.now)) result ≡ scalar_of (code, rest.now) }
{
    let Some(c) = char::from_u32(code) else {
        return None;
    };
    Some((c, rest))
}

// U+0000, behind which no digit may stand.
fn null(text: &[char]) -> Option<(char, &[char])>
    ensures { option_map (λ r. (r.0, r.1.now)) result ≡ null text.now }
{
    if let Some((c, _)) = text.split_first() {
        if c.is_ascii_digit() {
            return None;
        }
    }
    Some(('\0', text))
}

// What stands behind `\u{`.
#[tactic(auto, unfolding(crate::specs::Reading::braced))]
fn braced(text: &[char]) -> Option<(char, &[char])>
    ensures { option_map (λ r. (r.0, r.1.now)) result ≡ braced text.now }
{
    let Some((code, rest)) = number(text, 16, 0x10_FFFF) else {
        return None;
    };
    let Some((c, rest)) = rest.split_first() else {
        return None;
    };
    if *c != '}' {
        return None;
    }
    scalar_of(code, rest)
}

// What stands behind `\u`.
#[tactic(auto, unfolding(crate::specs::Reading::unicode))]
fn unicode(text: &[char]) -> Option<(char, &[char])>
    ensures { option_map (λ r. (r.0, r.1.now)) result ≡ unicode text.now }
{
    let Some((c, rest)) = text.split_first() else {
        return None;
    };
    if *c == '{' {
        return braced(rest);
    }
    let Some((code, rest)) = four_hex(text) else {
        return None;
    };
    scalar_of(code, rest)
}

// What stands behind `\x`.
#[tactic(auto, unfolding(crate::specs::Reading::byte))]
fn byte(text: &[char]) -> Option<(char, &[char])>
    ensures { option_map (λ r. (r.0, r.1.now)) result ≡ byte text.now }
{
    let Some((code, rest)) = two_hex(text) else {
        return None;
    };
    scalar_of(code, rest)
}

/// The character that an escape stands for, from behind its `\`.
#[tactic(auto, unfolding(crate::specs::Reading::escape))]
pub fn escape(text: &[char], in_class: bool) -> Option<(char, &[char])>
    ensures { option_map (λ r. (r.0, r.1.now)) result ≡ escape in_class text.now }
{
    let Some((letter, rest)) = text.split_first() else {
        return None;
    };
    match escape_letter(*letter) {
        Letter::Character(c) => Some((c, rest)),
        Letter::InClass(c) => if in_class { Some((c, rest)) } else { None },
        Letter::Null => null(rest),
        Letter::Byte => byte(rest),
        Letter::Unicode => unicode(rest),
        Letter::Set(_, _) | Letter::Other => None,
    }
}

/// The set that an escape stands for, and whether its complement is meant.
#[tactic(auto, unfolding(crate::specs::Reading::set_escape))]
pub fn set_escape(text: &[char]) -> Option<(bool, Set, &[char])>
    ensures { option_map (λ r. ((r.0, r.1), r.2.now)) result ≡ set_escape text.now }
{
    let [slash, letter, rest @ ..] = text else {
        return None;
    };
    if *slash != '\\' {
        return None;
    }
    match escape_letter(*letter) {
        Letter::Set(absent, set) => Some((absent, set, rest)),
        _ => None,
    }
}

/// A character as it stands in a class, or its escape.
#[tactic(auto, unfolding(crate::specs::Reading::member))]
pub fn member(text: &[char]) -> Option<(char, &[char])>
    ensures { option_map (λ r. (r.0, r.1.now)) result ≡ member text.now }
{
    let Some((c, rest)) = text.split_first() else {
        return None;
    };
    if *c == '\\' {
        return escape(rest, true);
    }
    if !is_member(*c) {
        return None;
    }
    if is_doubled(*c) {
        if begins(rest, *c) {
            return None;
        }
    }
    Some((*c, rest))
}
