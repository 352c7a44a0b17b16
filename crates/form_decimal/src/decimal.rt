//! The numbers themselves.
ghost use Rattle.std.specs.Prelude.{◌≡◌, ◌^◌, ◌≤◌, ◌↔◌, pos, neg_ℤ, unsigned_abs, IfSome, IsSome};
ghost use Rattle.form_decimal.specs.Numeral.{signed};

use std::marker::Model;

/// An exact number: so many units of 10^-12, at most 10^29 of them, which is 10^17 in magnitude.
#[derive(Clone, Copy, Debug, PartialEq, Eq, PartialOrd, Ord)]
pub struct Decimal {
    pub(crate) units: i128,
}

impl Model for Decimal {
    ghost use Rattle.std.specs.Prelude.{ℤ, unsigned_abs, ◌≤◌, ◌^◌};

    ghost Value = { ℤ };

    ghost view = { λ d. d.units };

    ghost invariant = { λ d. unsigned_abs d.units ≤ 10 ^ 29 };

    ghost inverse = { λ c. record { units = c } };
}

// The greatest magnitude, 10^17 in units.
pub(crate) const LIMIT: i128 = 100_000_000_000_000_000_000_000_000_000;

impl Decimal {
    /// The number of that many units; `None` exactly where the magnitude is too great.
    pub fn of_units(units: i128) -> Option<Decimal>
        ensures some { IsSome result ↔ (unsigned_abs units ≤ 10 ^ 29) }
        ensures value { IfSome result (λ d. d ≡ units) }
        ensures fits { IfSome result (λ d. unsigned_abs d ≤ 10 ^ 29) }
    {
        if units < -LIMIT || units > LIMIT {
            return None;
        }
        Some(Decimal { units })
    }

    /// How many units it is.
    pub fn units(self) -> i128
        ensures value { result ≡ self }
        ensures bound { unsigned_abs result ≤ 10 ^ 29 }
    {
        self.units
    }

    /// Zero.
    pub fn zero() -> Decimal
        ensures { result ≡ pos 0 }
    {
        Decimal { units: 0 }
    }

    /// The greatest number, 10^17.
    pub fn greatest() -> Decimal
        ensures { result ≡ pos (10 ^ 29) }
    {
        Decimal { units: LIMIT }
    }

    /// The number with the other sign.
    pub fn negated(self) -> Decimal
        ensures value { result ≡ neg_ℤ self }
        ensures fits { unsigned_abs result ≤ 10 ^ 29 }
    {
        Decimal { units: -self.units }
    }

    // The number of that magnitude, with a sign.
    pub(crate) fn from_magnitude(negative: bool, magnitude: u128) -> Decimal
        requires { magnitude ≤ 10 ^ 29 }
        ensures { result ≡ signed negative magnitude }
    {
        let units = magnitude as i128;
        if negative {
            Decimal { units: -units }
        } else {
            Decimal { units }
        }
    }
}
