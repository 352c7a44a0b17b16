//! The units that a coefficient and an exponent mean.
ghost use Rattle.std.specs.Prelude.{◌≡◌, ◌+◌, ◌*◌, ◌^◌, ◌<◌, ◌≤◌, ℕ, IfSome, IfNone, if◌then◌else◌};
ghost use Rattle.std.specs.Str.Parse.{digits_value, AllDigits};
ghost use Rattle.form_decimal.specs.Numeral.{IsLenientForm};
ghost use Rattle.form_decimal.specs.Plain.{plain};
ghost use Rattle.form_decimal.specs.Scaled.{IsCapped, IsUnits, Units};

use crate::coefficient::{Trimmed, coefficient};
use crate::decimal::LIMIT;
use crate::spelling::{Spelled, is_minus, places_of};

// More than any coefficient that counts.
const CAP: u128 = 1_000_000_000_000_000_000_000_000_000_000;

/// The value with that many zeros behind it, where that is below the cap.
pub fn raised(value: u128, by: u128) -> Option<u128>
    requires { value < 10 ^ 30 }
    ensures some { IfSome result (λ r. (r ≡ value * 10 ^ by) × (r < 10 ^ 30)) }
    ensures none { IfNone result (10 ^ 30 ≤ value * 10 ^ by) }
{
    let mut result = value;
    for turn in 0..by {
        result *= 10;
        if result >= CAP {
            return None;
        }
    }
    Some(result)
}

// The number that digits write, up to the cap.
fn capped(digits: &[u8]) -> u128
    requires { AllDigits 10 digits.now }
    ensures { IsCapped (digits_value 10 digits.now) result }
{
    let mut value = 0u128;
    for d in digits {
        if value >= CAP {
            return value;
        }
        value = value * 10 + (*d - b'0') as u128;
    }
    value
}

// The units of a coefficient with so many places behind the point and such an exponent.
fn scaled(t: Trimmed, places: u128, up: u128, down: u128) -> Option<u128>
    requires zeros { t.zeros < 2 ^ 90 }
    requires places { places < 2 ^ 90 }
    requires up { up < 10 ^ 30 }
    requires down { down < 10 ^ 30 }
    ensures some { IfSome result (IsUnits (t.value * 10 ^ t.zeros) places up down) }
    ensures none { IfNone result
        ((m : ℕ) → IsUnits (t.value * 10 ^ t.zeros) places up down m → ⊥) }
{
    if t.value == 0 {
        return Some(0);
    }
    let have = t.zeros + up + 12;
    let want = places + down;
    if have < want {
        return None;
    }
    let Some(units) = raised(t.value, have - want) else {
        return None;
    };
    if units > LIMIT as u128 {
        None
    } else {
        Some(units)
    }
}

// The units of a coefficient with so many places behind the point and an exponent of these digits.
fn powered(t: Trimmed, places: u128, lowers: bool, digits: &[u8]) -> Option<u128>
    requires zeros { t.zeros < 2 ^ 90 }
    requires places { places < 2 ^ 90 }
    requires digits { AllDigits 10 digits.now }
    ensures some { IfSome result (IsUnits (t.value * 10 ^ t.zeros) places
        (if lowers then 0 else digits_value 10 digits.now)
        (if lowers then digits_value 10 digits.now else 0)) }
    ensures none { IfNone result ((m : ℕ) → IsUnits (t.value * 10 ^ t.zeros) places
        (if lowers then 0 else digits_value 10 digits.now)
        (if lowers then digits_value 10 digits.now else 0) m → ⊥) }
{
    if t.value == 0 {
        return Some(0);
    }
    let by = capped(digits);
    if by >= CAP {
        return None;
    }
    if lowers {
        scaled(t, places, 0, by)
    } else {
        scaled(t, places, by, 0)
    }
}

/// The units of a numeral without its sign.
pub fn magnitude(numeral: &Spelled<'_>) -> Option<u128>
    requires form { IsLenientForm (plain numeral.now) }
    ensures some { IfSome result (λ m. Units (plain numeral.now) m) }
    ensures none { IfNone result ((m : ℕ) → Units (plain numeral.now) m → ⊥) }
{
    let fraction = places_of(numeral.fraction);
    let Some(t) = coefficient(numeral.whole, fraction) else {
        return None;
    };
    let places = fraction.len() as u128;
    match numeral.exponent {
        None => scaled(t, places, 0, 0),
        Some(power) => powered(t, places, is_minus(power.sign), power.digits),
    }
}
