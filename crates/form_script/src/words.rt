// The parts of a line: numbers, keys, names, marks.
ghost use Rattle.std.specs.Char.{is_ascii_digit};
ghost use Rattle.std.specs.List.{list_all};
ghost use Rattle.std.specs.Prelude.{◌≡◌};
ghost use Rattle.std.specs.Str.Parse.{IsNumeral, digits_value};
ghost use Rattle.form_script.specs.Words.{is_name_byte};
ghost use Rattle.form_script.specs.Reading.{begins_name, is_boundary, is_name, is_numeral, key_of, leads_with_zero, mark_of, number_of, positive_of, within};

use crate::reading::split_first;
use form_tree::Key;

// The most bytes of an attribute's name.
const LONGEST_NAME: usize = 64;

// The most bytes of a boundary (RFC 2046, "Common Syntax").
pub const LONGEST_BOUNDARY: usize = 70;

fn all_digits(bytes: &[u8]) -> bool
    ensures { result ≡ list_all is_ascii_digit bytes.now }
{
    bytes.iter().all(|b| b.is_ascii_digit())
}

fn leads_with_zero(bytes: &[u8]) -> bool
    ensures { result ≡ leads_with_zero bytes.now }
{
    match bytes {
        [first, _, ..] => *first == b'0',
        _ => false,
    }
}

fn is_numeral(text: &str) -> bool
    ensures { result ≡ is_numeral text.now }
{
    if text.is_empty() {
        return false;
    }
    if leads_with_zero(text.as_bytes()) {
        return false;
    }
    all_digits(text.as_bytes())
}

fn value_of(digits: &str) -> Option<u32>
    requires { IsNumeral 10 digits.now }
    ensures { result ≡ within (digits_value 10 digits.now) }
{
    match u32::from_str_radix(digits, 10) {
        Ok(number) => Some(number),
        Err(_) => None,
    }
}

/// A number in decimal digits without leading zeros.
#[tactic(auto, unfolding(crate::specs::Reading::number_of))]
pub fn number_of(text: &str) -> Option<u32>
    ensures { result ≡ number_of text.now }
{
    if !is_numeral(text) {
        return None;
    }
    value_of(text)
}

/// A number from 1 on.
#[tactic(auto, unfolding(crate::specs::Reading::positive_of))]
pub fn positive_of(text: &str) -> Option<u32>
    ensures { result ≡ positive_of text.now }
{
    let number = number_of(text)?;
    if number == 0 {
        return None;
    }
    Some(number)
}

/// A key: `@` and its number.
#[tactic(auto, unfolding(crate::specs::Reading::key_of))]
pub fn key_of(text: &str) -> Option<Key>
    ensures { result ≡ key_of text.now }
{
    let (first, digits) = split_first(text)?;
    if first != b'@' {
        return None;
    }
    let number = positive_of(digits)?;
    Some(Key(number))
}

fn is_name_byte(b: u8) -> bool
    ensures { result ≡ is_name_byte b }
{
    b.is_ascii_alphanumeric() || b == b'-' || b == b'_'
}

pub fn all_name_bytes(bytes: &[u8]) -> bool
    ensures { result ≡ list_all is_name_byte bytes.now }
{
    bytes.iter().all(|b| is_name_byte(*b))
}

fn begins_name(bytes: &[u8]) -> bool
    ensures { result ≡ begins_name bytes.now }
{
    match bytes {
        [first, others @ ..] => first.is_ascii_alphabetic() && all_name_bytes(others),
        [] => false,
    }
}

/// Whether the text is the name of an attribute.
pub fn is_name(text: &str) -> bool
    ensures { result ≡ is_name text.now }
{
    text.len() <= LONGEST_NAME && begins_name(text.as_bytes())
}

/// `yes` or `no`.
#[tactic(auto, unfolding(crate::specs::Reading::mark_of))]
pub fn mark_of(text: &str) -> Option<bool>
    ensures { result ≡ mark_of text.now }
{
    if text == "yes" {
        return Some(true);
    }
    if text == "no" {
        return Some(false);
    }
    None
}

/// Whether a text is a boundary.
pub fn is_boundary(text: &str) -> bool
    ensures { result ≡ is_boundary text.now }
{
    if text.is_empty() {
        return false;
    }
    if text.len() > LONGEST_BOUNDARY {
        return false;
    }
    all_name_bytes(text.as_bytes())
}
