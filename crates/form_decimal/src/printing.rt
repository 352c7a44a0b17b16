//! Printing a number.
ghost use Rattle.std.specs.Prelude.{ℕ, List, Some, unsigned_abs, ◌≡◌, ◌*◌, ◌≤◌, ◌<◌, ◌^◌, ◌++◌, ◌+◌, ◌/◌, IfOk, string_bytes};
ghost use Rattle.form_decimal.specs.Numeral.{point_text};
ghost use Rattle.form_decimal.specs.Reading.{valid_number};
ghost use Rattle.form_decimal.specs.Printed.{IsPrinted, fraction_digits, fraction_of, minus_text, whole_text, printed};

use crate::decimal::Decimal;
use std::alloc::{AllocError, Global};

const ONE: u128 = 1_000_000_000_000;

fn next_digit(rest: u128) -> char
    requires { rest < 10 ^ 12 }
    ensures value { result ≡ 48 + rest * 10 / 10 ^ 12 }
    ensures ascii { result < 58 }
{
    (b'0' + (rest * 10 / ONE) as u8) as char
}

// The text with the digits of a fraction behind it.
fn with_digits(text: String, fraction: u128) -> Result<String, AllocError>
    requires { fraction < 10 ^ 12 }
    ensures { IfOk result (λ s. string_bytes s ≡ string_bytes text ++ fraction_digits 12 fraction) }
{
    let mut out = text;
    let mut rest = fraction;
    for place in 0..12u32 {
        if rest == 0 {
            return Ok(out);
        }
        out.push(next_digit(rest))?;
        rest = rest * 10 % ONE;
    }
    Ok(out)
}

fn with_fraction(text: String, fraction: u128) -> Result<String, AllocError>
    requires { fraction < 10 ^ 12 }
    ensures { IfOk result (λ s. string_bytes s
        ≡ string_bytes text ++ point_text (fraction_of (fraction_digits 12 fraction))) }
{
    let mut out = text;
    if fraction == 0 {
        return Ok(out);
    }
    out.push('.')?;
    with_digits(out, fraction)
}

// `-` in front of a number below 0.
fn minus(n: Decimal) -> &'static str
    ensures { result.now ≡ minus_text n }
{
    if n.units() < 0 { "-" } else { "" }
}

fn whole_text(alloc: Global, n: Decimal) -> Result<String, AllocError>
    ensures { IfOk result (λ s. string_bytes s ≡ whole_text n) }
{
    let minus = minus(n);
    let whole = n.units().unsigned_abs() / ONE;
    format!(in alloc; "{minus}{whole}")
}

fn printed(alloc: Global, n: Decimal) -> Result<String, AllocError>
    ensures text { IfOk result (λ s. string_bytes s ≡ printed n) }
    ensures fits { unsigned_abs n ≤ 10 ^ 29 }
{
    let text = whole_text(alloc, n)?;
    with_fraction(text, n.units().unsigned_abs() % ONE)
}

/// The printed form of a number: no exponent, no zero in front that is not needed, none at the
/// end of the fraction. It is the one text of that form that reads back as the number.
pub fn print(alloc: Global, n: Decimal) -> Result<String, AllocError>
    ensures form { IfOk result (λ s. IsPrinted n (string_bytes s)) }
    ensures only { IfOk result (λ s. (t : List ℕ) → IsPrinted n t → t ≡ string_bytes s) }
    ensures reads_back { IfOk result (λ s. valid_number (string_bytes s) ≡ Some n) }
    ensures text { IfOk result (λ s. string_bytes s ≡ printed n) }
{
    printed(alloc, n)
}
