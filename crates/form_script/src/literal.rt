// Text literals.
ghost use Rattle.std.specs.Prelude.{◌≡◌, is_some, option_and_then, option_map, None, Err, IfOk, IfSome, List, ℕ, true};
ghost use Rattle.std.specs.Char.{is_ascii_hexdigit};
ghost use Rattle.std.specs.List.{list_all};
ghost use Rattle.std.specs.Str.Parse.{IsNumeral, digits_value};
ghost use Rattle.form_script.specs.Gives.{Gives};
ghost use Rattle.form_script.specs.Quoted.{IsQuoted, named_escape};
ghost use Rattle.form_script.specs.declared.fault.LineFault.TheVariants.{Syntax};
ghost use Rattle.form_script.specs.Reading.{character_at, character_of, cut, escape_at, inside_of, is_hexadecimal, literal_text, numbered_at, text_in};
ghost use Rattle.form_script.specs.Steps.{Begins, IsShorter};

use crate::fault::LineFault;
use crate::reading::{before_last, cut, has, split_first};
use form_text::Text;
use std::alloc::Global;

// The most digits of the number of a character.
const MOST_DIGITS: usize = 6;

// What the inside of a literal begins with: bytes that stand for themselves up to its end, or up to
// an escape, with its character and what stands behind it; or what no literal has.
#[derive(Clone, Copy)]
pub enum Step<'a> {
    Last(&'a str),
    Escape(&'a str, char, &'a str),
    Wrong,
}

fn all_hexadecimal(digits: &[u8]) -> bool
    ensures { result ≡ list_all is_ascii_hexdigit digits.now }
{
    digits.iter().all(|b| b.is_ascii_hexdigit())
}

fn is_hexadecimal(digits: &str) -> bool
    ensures { result ≡ is_hexadecimal digits.now }
{
    if digits.is_empty() || digits.len() > MOST_DIGITS {
        return false;
    }
    all_hexadecimal(digits.as_bytes())
}

// The character of a number.
fn character_at(digits: &str) -> Option<char>
    requires { IsNumeral 16 digits.now }
    ensures { result ≡ character_at (digits_value 16 digits.now) }
{
    match u32::from_str_radix(digits, 16) {
        Ok(number) => char::from_u32(number),
        Err(_) => None,
    }
}

// The character that digits write the number of.
#[tactic(auto, unfolding(crate::specs::Reading::character_of))]
fn character_of(digits: &str) -> Option<char>
    ensures { result ≡ character_of digits.now }
{
    if !is_hexadecimal(digits) {
        return None;
    }
    character_at(digits)
}

// What stands behind `\u`.
#[tactic(auto, unfolding(crate::specs::Reading::numbered_at))]
fn numbered_of(text: &str) -> Option<(char, &str)>
    ensures { option_map (λ x. (x.0, x.1.now)) result ≡ numbered_at text.now }
{
    let (first, rest) = split_first(text)?;
    if first != b'{' {
        return None;
    }
    let (digits, rest) = cut(rest, '}')?;
    let c = character_of(digits)?;
    Some((c, rest))
}

fn named_escape(letter: u8) -> Option<char>
    ensures { result ≡ named_escape letter }
{
    match letter {
        b'"' => Some('"'),
        b'\\' => Some('\\'),
        b'n' => Some('\n'),
        b'r' => Some('\r'),
        b't' => Some('\t'),
        _ => None,
    }
}

// What stands behind `\`.
#[tactic(auto, unfolding(crate::specs::Reading::escape_at))]
fn escape_of(text: &str) -> Option<(char, &str)>
    ensures { option_map (λ x. (x.0, x.1.now)) result ≡ escape_at text.now }
{
    let (first, rest) = split_first(text)?;
    if first == b'u' {
        return numbered_of(rest);
    }
    let c = named_escape(first)?;
    Some((c, rest))
}

pub fn first_step(inside: &str) -> Step<'_>
    ensures begins { Begins inside.now result }
    ensures shorter { IsShorter inside.now result }
{
    let Some((plain, escaped)) = cut(inside, '\\') else {
        return last(inside);
    };
    if has(plain, '"') {
        return Step::Wrong;
    }
    match escape_of(escaped) {
        Some((c, rest)) => Step::Escape(plain, c, rest),
        None => Step::Wrong,
    }
}

// The last step, without a `\`.
fn last(inside: &str) -> Step<'_>
    requires { cut 92 inside.now ≡ None }
    ensures begins { Begins inside.now result }
    ensures shorter { IsShorter inside.now result }
{
    if has(inside, '"') {
        return Step::Wrong;
    }
    Step::Last(inside)
}

// Whether the inside of a literal is one.
fn is_inside(inside: &str) -> bool
    ensures { result ≡ is_some (text_in inside.now) }
{
    let mut rest = inside;
    'steps: loop {
        match first_step(rest) {
            Step::Last(_) => return true,
            Step::Escape(_, _, behind) => rest = behind,
            Step::Wrong => return false,
        }
    }
}

// What stands between the quotes of a literal.
#[tactic(auto, unfolding(crate::specs::Reading::inside_of))]
pub fn between_quotes(literal: &str) -> Option<&str>
    ensures { option_map (λ inside. inside.now) result ≡ inside_of literal.now }
{
    let (first, rest) = split_first(literal)?;
    if first != b'"' {
        return None;
    }
    before_last(rest, '"')
}

/// The inside of a literal, which stands for some text; it takes no memory.
#[tactic(auto, unfolding(crate::specs::Reading::literal_text))]
pub fn inside_of(literal: &str) -> Option<&str>
    ensures value { option_and_then (λ inside. text_in inside.now) result ≡ literal_text literal.now }
    ensures some { IfSome result (λ inside. is_some (text_in inside.now) ≡ true) }
{
    let inside = between_quotes(literal)?;
    if !is_inside(inside) {
        return None;
    }
    Some(inside)
}

/// The text that the inside of a literal stands for.
pub fn text_of(alloc: Global, inside: &str) -> Result<Text, LineFault>
    ensures { Gives (λ text. text) result (text_in inside.now) }
{
    let mut text = String::new(alloc);
    let mut rest = inside;
    'steps: loop {
        match first_step(rest) {
            Step::Last(plain) => {
                text.push_str(plain)?;
                return Ok(Text::from_string(text));
            }
            Step::Escape(plain, c, behind) => {
                text.push_str(plain)?;
                text.push(c)?;
                rest = behind;
            }
            Step::Wrong => return Err(LineFault::Syntax),
        }
    }
}

/// The text that a literal spells: the text that [`crate::quote`] prints so, or spelled in another
/// way. What spells no text is refused without memory.
#[tactic(auto, unfolding(crate::specs::Reading::literal_text))]
pub fn unquote(alloc: Global, literal: &str) -> Result<Text, LineFault>
    ensures ok { IfOk result (λ text. IsQuoted literal.now text) }
    ensures syntax { result ≡ Err Syntax → (text : List ℕ) → ¬ (IsQuoted literal.now text) }
    ensures refused { ((text : List ℕ) → ¬ (IsQuoted literal.now text)) → result ≡ Err Syntax }
{
    match inside_of(literal) {
        Some(inside) => text_of(alloc, inside),
        None => Err(LineFault::Syntax),
    }
}
