//! What states with numbers share.
ghost use Rattle.std.specs.Prelude.{◌≡◌, ◌^◌, ◌≤◌, IfOk, IfSome, string_bytes, option_map, unsigned_abs};
ghost use Rattle.form_states.specs.Numbers.{in_units, whole_of, decimal_text};
ghost use Rattle.form_states.specs.Sanitised.{kept_if_number};

use form_decimal::{Decimal, print};
use std::alloc::{AllocError, Global};

/// The units of 10^-12 in one.
pub const ONE: i128 = 1_000_000_000_000;

/// A whole number as a decimal.
pub fn whole(n: i64) -> Decimal
    requires { unsigned_abs n ≤ 10 ^ 15 }
    ensures { result ≡ in_units n }
{
    match Decimal::of_units(n as i128 * ONE) {
        Some(n) => n,
        None => unreachable!(),
    }
}

/// The same of a number that was read.
pub fn in_units(n: Option<i64>) -> Option<Decimal>
    requires { IfSome n (λ n. unsigned_abs n ≤ 10 ^ 15) }
    ensures { result ≡ option_map in_units n }
{
    match n {
        Some(n) => Some(whole(n)),
        None => None,
    }
}

/// The whole number that a decimal is, if it is one.
#[tactic(auto, unfolding(crate::specs::Numbers::whole_of))]
pub fn whole_of(n: Decimal) -> Option<i64>
    ensures { result ≡ whole_of n }
{
    let units = n.units();
    if units.rem_euclid(ONE) != 0 {
        return None;
    }
    Some(units.div_euclid(ONE) as i64)
}

/// The text, where it has a number, and else nothing.
pub fn kept_if_number(
    alloc: Global,
    number: Option<Decimal>,
    text: &str,
) -> Result<String, AllocError>
    ensures { IfOk result (λ s. string_bytes s ≡ kept_if_number number text.now) }
{
    match number {
        Some(_) => String::from_str(alloc, text),
        None => Ok(String::new(alloc)),
    }
}

/// The printed form of a decimal.
pub fn decimal_text(alloc: Global, n: Decimal) -> Result<Option<String>, AllocError>
    ensures { IfOk result (λ o. option_map string_bytes o ≡ decimal_text n) }
{
    let _units = n.units();
    let text = print(alloc, n)?;
    Ok(Some(text))
}
