//! The aligned number that is nearest to another.
ghost use Rattle.std.specs.Prelude.{◌≡◌, ◌≤ℤ◌, ℤ, pos, ◌≤◌, ◌*◌, ◌^◌, unsigned_abs, IfSome, IfNone, Some};
ghost use Rattle.form_decimal.specs.Nearest.{nearest_of};
ghost use Rattle.form_decimal.specs.Alignment.{IsAligned, IsCandidate, IsNearestAligned};
ghost use Rattle.form_decimal.specs.Neighbours.{IsGreatest, IsLeast, IsLower, IsUpper, IsNearer};

use crate::alignment::at_or_below;
use crate::decimal::Decimal;
use std::marker::Model;

// A step; a type of its own is seen as its number, without a cast at each call.
#[derive(Clone, Copy)]
struct Step {
    units: i128,
}

impl Model for Step {
    ghost use Rattle.std.specs.Prelude.{ℤ};

    ghost Value = { ℤ };

    ghost view = { λ s. s.units };

    ghost inverse = { λ c. record { units = c } };
}

impl Step {
    fn units(self) -> i128
        ensures { result ≡ self }
    {
        self.units
    }
}

// The greatest aligned number that is not above the limit.
fn greatest_to(limit: Decimal, base: Decimal, step: Step) -> Option<Decimal>
    requires least { pos 1 ≤ℤ step }
    requires greatest { step ≤ℤ pos (6048 * 10 ^ 34) }
    ensures some { IfSome result (IsGreatest base step limit) }
    ensures fits { IfSome result (λ d. unsigned_abs d ≤ 10 ^ 29) }
    ensures none { IfNone result
        ((d : ℤ) → IsAligned d base step → unsigned_abs d ≤ 10 ^ 29 → d ≤ℤ limit → ⊥) }
{
    Decimal::of_units(at_or_below(limit.units(), base.units(), step.units()))
}

// The least aligned number that is not below the limit.
fn least_from(limit: Decimal, base: Decimal, step: Step) -> Option<Decimal>
    requires least { pos 1 ≤ℤ step }
    requires greatest { step ≤ℤ pos (6048 * 10 ^ 34) }
    ensures some { IfSome result (IsLeast base step limit) }
    ensures fits { IfSome result (λ d. unsigned_abs d ≤ 10 ^ 29) }
    ensures none { IfNone result
        ((d : ℤ) → IsAligned d base step → unsigned_abs d ≤ 10 ^ 29 → limit ≤ℤ d → ⊥) }
{
    let Some(found) = greatest_to(limit.negated(), base.negated(), step) else {
        return None;
    };
    Some(found.negated())
}

// The smaller one.
fn smaller(a: Decimal, b: Decimal) -> Decimal
    ensures left { result ≤ℤ a }
    ensures right { result ≤ℤ b }
    ensures greatest { (d : ℤ) → d ≤ℤ a → d ≤ℤ b → d ≤ℤ result }
{
    if a < b { a } else { b }
}

// The greater one.
fn greater(a: Decimal, b: Decimal) -> Decimal
    ensures left { a ≤ℤ result }
    ensures right { b ≤ℤ result }
    ensures least { (d : ℤ) → a ≤ℤ d → b ≤ℤ d → result ≤ℤ d }
{
    if a < b { b } else { a }
}

// The greatest candidate up to the number.
fn lower(n: Decimal, base: Decimal, step: Step, low: Decimal, top: Decimal) -> Option<Decimal>
    requires least { pos 1 ≤ℤ step }
    requires greatest { step ≤ℤ pos (6048 * 10 ^ 34) }
    ensures some { IfSome result (IsLower n base step low top) }
    ensures none { IfNone result
        ((d : ℤ) → IsCandidate base step low (Some top) d → d ≤ℤ n → ⊥) }
{
    let Some(found) = greatest_to(smaller(n, top), base, step) else {
        return None;
    };
    if found < low {
        return None;
    }
    Some(found)
}

// The least candidate from the number.
fn upper(n: Decimal, base: Decimal, step: Step, low: Decimal, top: Decimal) -> Option<Decimal>
    requires least { pos 1 ≤ℤ step }
    requires greatest { step ≤ℤ pos (6048 * 10 ^ 34) }
    ensures some { IfSome result (IsUpper n base step low top) }
    ensures none { IfNone result
        ((d : ℤ) → IsCandidate base step low (Some top) d → n ≤ℤ d → ⊥) }
{
    let Some(found) = least_from(greater(n, low), base, step) else {
        return None;
    };
    if top < found {
        return None;
    }
    Some(found)
}

// The nearer one of two, and the upper one at a tie.
fn nearer(n: Decimal, below: Decimal, above: Decimal) -> Decimal
    ensures { IsNearer n below above result }
{
    if n.units() - below.units() < above.units() - n.units() {
        below
    } else {
        above
    }
}

// The nearest candidate up to a number.
fn nearest_up_to(
    n: Decimal,
    base: Decimal,
    step: Step,
    low: Decimal,
    top: Decimal,
) -> Option<Decimal>
    requires least { pos 1 ≤ℤ step }
    requires greatest { step ≤ℤ pos (6048 * 10 ^ 34) }
    ensures some { IfSome result (IsNearestAligned n base step low (Some top)) }
    ensures none { IfNone result ((d : ℤ) → IsCandidate base step low (Some top) d → ⊥) }
{
    let Some(below) = lower(n, base, step, low, top) else {
        return upper(n, base, step, low, top);
    };
    let Some(above) = upper(n, base, step, low, top) else {
        return Some(below);
    };
    Some(nearer(n, below, above))
}

// The nearest candidate, up to the greatest decimal where there is no `high`.
fn nearest_within(
    n: Decimal,
    base: Decimal,
    step: Step,
    low: Decimal,
    high: Option<Decimal>,
) -> Option<Decimal>
    requires least { pos 1 ≤ℤ step }
    requires greatest { step ≤ℤ pos (6048 * 10 ^ 34) }
    ensures some { IfSome result (IsNearestAligned n base step low high) }
    ensures none { IfNone result ((d : ℤ) → IsCandidate base step low high d → ⊥) }
{
    match high {
        Some(top) => nearest_up_to(n, base, step, low, top),
        None => nearest_up_to(n, base, step, low, Decimal::greatest()),
    }
}

/// Of the decimals that are a whole number of steps, each of so many units, from the base, not
/// below `low` and not above `high` where that is there: the one nearest to the number, the
/// greater one at a tie (HTML, "Range state"); `None` exactly where there is no such decimal.
pub fn nearest_aligned(
    n: Decimal,
    base: Decimal,
    step: i128,
    low: Decimal,
    high: Option<Decimal>,
) -> Option<Decimal>
    requires least { pos 1 ≤ℤ step }
    requires greatest { step ≤ℤ pos (6048 * 10 ^ 34) }
    ensures some { IfSome result (IsNearestAligned n base step low high) }
    ensures none { IfNone result ((d : ℤ) → IsCandidate base step low high d → ⊥) }
    ensures value { result ≡ nearest_of n base step low high }
{
    nearest_within(n, base, Step { units: step }, low, high)
}
