//! Reading a number from a text.
ghost use Rattle.std.specs.Prelude.{◌≡◌, ℤ, IfSome, Some};
ghost use Rattle.form_decimal.specs.Numeral.{behind_whitespace, IsValidNumber, IsLenientNumber, IsLenientForm};
ghost use Rattle.form_decimal.specs.Plain.{plain};
ghost use Rattle.form_decimal.specs.Reading.{meant, valid_number, lenient_number};

use crate::decimal::Decimal;
use crate::scaling::magnitude;
use crate::spelling::{Spelled, is_minus, numeral_of};

// The number that a numeral means.
fn number(numeral: &Spelled<'_>) -> Option<Decimal>
    requires form { IsLenientForm (plain numeral.now) }
    ensures { result ≡ meant (plain numeral.now) }
{
    let Some(units) = magnitude(numeral) else {
        return None;
    };
    Some(Decimal::from_magnitude(is_minus(numeral.sign), units))
}

#[tactic(auto, unfolding(crate::specs::Reading::valid_number))]
fn alone(text: &str) -> Option<Decimal>
    ensures { result ≡ valid_number text.now }
{
    let Some((numeral, rest)) = numeral_of(text.as_bytes()) else {
        return None;
    };
    if !rest.is_empty() {
        return None;
    }
    if !numeral.is_valid() {
        return None;
    }
    number(&numeral)
}

// The text behind its ASCII whitespace.
fn behind_whitespace(text: &str) -> &[u8]
    ensures { result.now ≡ behind_whitespace text.now }
{
    text.trim_ascii_start().as_bytes()
}

#[tactic(auto, unfolding(crate::specs::Reading::lenient_number))]
fn front(text: &str) -> Option<Decimal>
    ensures { result ≡ lenient_number text.now }
{
    let Some((numeral, _)) = numeral_of(behind_whitespace(text)) else {
        return None;
    };
    number(&numeral)
}

/// The number of a valid text (HTML, "Valid floating-point number"); `None` exactly where the
/// text is not valid, or its value is no whole number of units of magnitude at most 10^17.
pub fn read_valid(text: &str) -> Option<Decimal>
    ensures found { IfSome result (IsValidNumber text.now) }
    ensures only { (c : ℤ) → IsValidNumber text.now c → result ≡ Some c }
    ensures value { result ≡ valid_number text.now }
{
    alone(text)
}

/// The number of the longest numeral at the front of the text, behind ASCII whitespace (HTML,
/// "Rules for parsing floating-point number values"); `None` exactly where there is none, or its
/// value is no whole number of units of magnitude at most 10^17.
pub fn read_lenient(text: &str) -> Option<Decimal>
    ensures found { IfSome result (IsLenientNumber text.now) }
    ensures only { (c : ℤ) → IsLenientNumber text.now c → result ≡ Some c }
    ensures value { result ≡ lenient_number text.now }
{
    front(text)
}
