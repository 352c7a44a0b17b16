//! The tokens of a pattern.
ghost use Rattle.std.specs.Prelude.{◌≡◌, IfOk, length, option_map};
ghost use Rattle.form_pattern.specs.Reading.{opening, lazily, upper_bound, bounds, escaped, small_token, read_token, tokens};

use crate::characters::{Set, after, begins, is_plain};
use crate::classes::{Class, read_class};
use crate::escapes::{escape, set_escape};
use crate::numbers::number;
use std::alloc::{AllocError, Global};

/// The characters that may stand at one place.
#[derive(Drop)]
pub enum Chars {
    /// This one.
    One(char),
    /// Each but the ends of lines.
    Any,
    /// Those of a set, or all others.
    Set(bool, Set),
    /// Those of a class.
    Class(Class),
}

/// How often at most a quantified atom may stand.
#[derive(Clone, Copy)]
pub enum High {
    /// So many times, as in `{n}`, `{n,m}` and `?`.
    Times(u32),
    /// Any number of times, as in `{n,}`.
    Endless,
    /// Any number of times, as in `*` and `+`, which have a weight of their own.
    Sign,
}

#[derive(Drop)]
pub enum Token {
    /// `^`
    Start,
    /// `$`
    Finish,
    /// `|`
    Bar,
    /// `(` or `(?:`
    Open,
    /// `(?=`, or with true `(?!`
    Ahead(bool),
    /// `)`
    Close,
    /// The least and the greatest count; a `?` behind it belongs to it.
    Quantifier(u32, High),
    Chars(Chars),
}

/// The greatest bound of a quantifier.
pub const MOST: u32 = 2_000;

// What stands behind a `(`.
#[tactic(auto, unfolding(crate::specs::Reading::opening))]
fn opening(text: &[char]) -> Option<(Token, &[char])>
    ensures { option_map (λ r. (r.0, r.1.now)) result ≡ opening text.now }
{
    if !begins(text, '?') {
        return Some((Token::Open, text));
    }
    let [_, sign, rest @ ..] = text else {
        return None;
    };
    match *sign {
        ':' => Some((Token::Open, rest)),
        '=' => Some((Token::Ahead(false), rest)),
        '!' => Some((Token::Ahead(true), rest)),
        _ => None,
    }
}

// A quantifier: a `?` behind it changes nothing.
#[tactic(auto, unfolding(crate::specs::Reading::lazily))]
fn lazily(low: u32, high: High, text: &[char]) -> (Token, &[char])
    ensures { (result.0, result.1.now) ≡ lazily low high text.now }
{
    (
        Token::Quantifier(low, high),
        after(text, '?').unwrap_or(text),
    )
}

// What stands behind `{n,`.
#[tactic(auto, unfolding(crate::specs::Reading::upper_bound))]
fn upper_bound(low: u32, text: &[char]) -> Option<(Token, &[char])>
    ensures { option_map (λ r. (r.0, r.1.now)) result ≡ upper_bound low text.now }
{
    let Some((c, rest)) = text.split_first() else {
        return None;
    };
    if *c == '}' {
        return Some(lazily(low, High::Endless, rest));
    }
    let Some((high, rest)) = number(text, 10, MOST) else {
        return None;
    };
    let Some((c, rest)) = rest.split_first() else {
        return None;
    };
    if *c != '}' {
        return None;
    }
    if high < low {
        return None;
    }
    Some(lazily(low, High::Times(high), rest))
}

// What stands behind `{`.
#[tactic(auto, unfolding(crate::specs::Reading::bounds))]
fn bounds(text: &[char]) -> Option<(Token, &[char])>
    ensures { option_map (λ r. (r.0, r.1.now)) result ≡ bounds text.now }
{
    let Some((low, rest)) = number(text, 10, MOST) else {
        return None;
    };
    let Some((c, rest)) = rest.split_first() else {
        return None;
    };
    match *c {
        '}' => Some(lazily(low, High::Times(low), rest)),
        ',' => upper_bound(low, rest),
        _ => None,
    }
}

// An escape outside of classes.
#[tactic(auto, unfolding(crate::specs::Reading::escaped, crate::specs::Reading::escape))]
fn escaped(text: &[char]) -> Option<(Token, &[char])>
    ensures { option_map (λ r. (r.0, r.1.now)) result ≡ escaped text.now }
{
    if let Some((absent, set, rest)) = set_escape(text) {
        return Some((Token::Chars(Chars::Set(absent, set)), rest));
    }
    let Some((_, rest)) = text.split_first() else {
        return None;
    };
    let Some((c, rest)) = escape(rest, false) else {
        return None;
    };
    Some((Token::Chars(Chars::One(c)), rest))
}

// A token that takes no memory: each but a class.
#[tactic(auto, unfolding(crate::specs::Reading::small_token))]
fn small_token(text: &[char]) -> Option<(Token, &[char])>
    ensures { option_map (λ r. (r.0, r.1.now)) result ≡ small_token text.now }
{
    let Some((c, rest)) = text.split_first() else {
        return None;
    };
    if is_plain(*c) {
        return Some((Token::Chars(Chars::One(*c)), rest));
    }
    match *c {
        '^' => Some((Token::Start, rest)),
        '$' => Some((Token::Finish, rest)),
        '|' => Some((Token::Bar, rest)),
        ')' => Some((Token::Close, rest)),
        '(' => opening(rest),
        '.' => Some((Token::Chars(Chars::Any), rest)),
        '*' => Some(lazily(0, High::Sign, rest)),
        '+' => Some(lazily(1, High::Sign, rest)),
        '?' => Some(lazily(0, High::Times(1), rest)),
        '{' => bounds(rest),
        '\\' => escaped(text),
        _ => None,
    }
}

/// The token at the front, and what is behind it.
#[tactic(auto, unfolding(crate::specs::Reading::read_token))]
fn read_token(alloc: Global, text: &[char]) -> Result<Option<(Token, &[char])>, AllocError>
    ensures { IfOk result (λ o. option_map (λ r. (r.0, r.1.now)) o ≡ read_token text.now) }
{
    let Some(inside) = after(text, '[') else {
        return Ok(small_token(text));
    };
    let Some((class, rest)) = read_class(alloc, inside)? else {
        return Ok(None);
    };
    Ok(Some((Token::Chars(Chars::Class(class)), rest)))
}

/// The tokens of the text, if it has nothing else.
#[tactic(auto, unfolding(crate::specs::Reading::tokens))]
pub fn tokens(alloc: Global, text: &[char]) -> Result<Option<Vec<Token>>, AllocError>
    ensures { IfOk result (λ o. option_map (λ v. v.items) o ≡ tokens (length text.now) text.now) }
{
    let mut found: Vec<Token> = Vec::new(alloc);
    let mut rest = text;
    for _ in 0..text.len() {
        if rest.is_empty() {
            return Ok(Some(found));
        }
        let Some((one, behind)) = read_token(alloc, rest)? else {
            return Ok(None);
        };
        found.push(one)?;
        rest = behind;
    }
    if rest.is_empty() {
        return Ok(Some(found));
    }
    Ok(None)
}
