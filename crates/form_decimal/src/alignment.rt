//! Numbers that are a whole number of steps from a base.
ghost use Rattle.std.specs.Prelude.{◌≡◌, ◌↔◌, ◌≤ℤ◌, ◌+ℤ◌, pos, IsTrue, ◌*◌, ◌<ℤ◌, ◌^◌, neg_ℤ};
ghost use Rattle.form_decimal.specs.Alignment.{IsAligned};
ghost use Rattle.form_decimal.specs.Nearest.{is_aligned};

use crate::decimal::Decimal;

/// Whether a whole number of steps, each of so many units, leads from the base to the number
/// (HTML, "The step attribute").
pub fn aligned(n: Decimal, base: Decimal, step: i128) -> bool
    requires least { pos 1 ≤ℤ step }
    requires greatest { step ≤ℤ pos (6048 * 10 ^ 34) }
    ensures meaning { IsTrue result ↔ IsAligned n base step }
    ensures value { result ≡ is_aligned n base step }
{
    (n.units() - base.units()).rem_euclid(step) == 0
}

/// The greatest aligned number that is not above the limit.
pub fn at_or_below(limit: i128, base: i128, step: i128) -> i128
    requires limit_low { neg_ℤ (pos (2 * 10 ^ 29)) ≤ℤ limit }
    requires limit_high { limit ≤ℤ pos (2 * 10 ^ 29) }
    requires base_low { neg_ℤ (pos (10 ^ 29)) ≤ℤ base }
    requires base_high { base ≤ℤ pos (10 ^ 29) }
    requires least { pos 1 ≤ℤ step }
    requires greatest { step ≤ℤ pos (6048 * 10 ^ 34) }
    ensures aligned { IsAligned result base step }
    ensures below { result ≤ℤ limit }
    ensures near { limit <ℤ (result +ℤ step) }
{
    limit - (limit - base).rem_euclid(step)
}
