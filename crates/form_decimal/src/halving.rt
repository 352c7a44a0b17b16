//! Half of what lies between two numbers.
ghost use Rattle.std.specs.Prelude.{◌≡◌, ◌*◌, ◌^◌, ◌≤◌, pos, neg_ℤ, ◌-ℤ◌, ◌+ℤ◌, ◌≤ℤ◌, unsigned_abs};
ghost use Rattle.form_decimal.specs.Halving.{IsHalfBetween};

use crate::decimal::Decimal;

fn half(apart: i128) -> i128
    requires low { pos 0 ≤ℤ apart }
    requires high { apart ≤ℤ pos (2 * 10 ^ 29) }
    ensures low { (result +ℤ result) ≤ℤ apart }
    ensures high { apart ≤ℤ ((result +ℤ result) +ℤ pos 1) }
{
    ((apart as u128) / 2) as i128
}

// Half of what lies between two numbers, rounded down.
fn half_apart(low: Decimal, high: Decimal) -> Decimal
    requires { low ≤ℤ high }
    ensures low { (result +ℤ result) ≤ℤ (high -ℤ low) }
    ensures high { (high -ℤ low) ≤ℤ ((result +ℤ result) +ℤ pos 1) }
    ensures low_fits { unsigned_abs low ≤ 10 ^ 29 }
    ensures high_fits { unsigned_abs high ≤ 10 ^ 29 }
{
    Decimal {
        units: half(high.units() - low.units()),
    }
}

fn sum(a: Decimal, b: Decimal) -> Decimal
    requires low { neg_ℤ (pos (10 ^ 29)) ≤ℤ (a +ℤ b) }
    requires high { (a +ℤ b) ≤ℤ pos (10 ^ 29) }
    ensures { result ≡ a +ℤ b }
{
    Decimal {
        units: a.units() + b.units(),
    }
}

/// The lower number and half of what lies between, the half rounded down to a unit: the default
/// value of a range control (HTML, "Range state").
pub fn half_between(low: Decimal, high: Decimal) -> Decimal
    requires { low ≤ℤ high }
    ensures { IsHalfBetween low high result }
{
    sum(low, half_apart(low, high))
}
