// Suffering from an underflow, from an overflow and from a step mismatch.
ghost use Rattle.std.specs.Prelude.{◌≡◌, IfSome, false, int_lt};
ghost use Rattle.std.specs.Option.{option_map_or};
ghost use Rattle.form_states.specs.Limits.{IsLimits, IsStep, are_crossed, is_reversed};
ghost use Rattle.form_tree.specs.Elements.{kind_of};
ghost use Rattle.form_judge.specs.Flags.{is_above, is_below, is_off_step, overflows, suffers_from_a_step_mismatch, suffers_from_an_overflow, suffers_from_an_underflow, underflows};

use crate::control::{own_limits, own_number};
use form_decimal::{Decimal, aligned};
use form_states::Limits;
use form_tree::Node;
use form_types::Kind;

/// The flags that the number of a control has by the control's limits.
#[derive(Clone, Copy, Debug)]
pub struct RangeFlags {
    pub underflow: bool,
    pub overflow: bool,
    pub off_step: bool,
}

/// Whether the control suffers from an underflow, from an overflow and from a step mismatch (HTML,
/// "The min and max attributes", "The step attribute").
pub fn range_flags(node: &Node, kind: Kind) -> RangeFlags
    requires { kind ≡ kind_of node.now }
    ensures underflow { result.underflow ≡ suffers_from_an_underflow node.now }
    ensures overflow { result.overflow ≡ suffers_from_an_overflow node.now }
    ensures off_step { result.off_step ≡ suffers_from_a_step_mismatch node.now }
{
    match own_number(node, kind) {
        Some(number) => flags_by_limits(kind, &own_limits(node, kind), number),
        None => RangeFlags {
            underflow: false,
            overflow: false,
            off_step: false,
        },
    }
}

// The flags of a number by limits.
fn flags_by_limits(kind: Kind, limits: &Limits, number: Decimal) -> RangeFlags
    requires { IfSome limits.now.step IsStep }
    ensures underflow { result.underflow ≡ underflows (is_reversed kind limits.now) limits.now number }
    ensures overflow { result.overflow ≡ overflows (is_reversed kind limits.now) limits.now number }
    ensures off_step { result.off_step ≡ is_off_step limits.now number }
{
    let reversed = is_reversed(kind, limits);
    let below = is_below(limits, number);
    let above = is_above(limits, number);
    RangeFlags {
        underflow: below && (!reversed || above),
        overflow: above && (!reversed || below),
        off_step: is_off_step(limits, number),
    }
}

// Whether the range is reversed: in a state with a periodic domain, the maximum is below the minimum.
fn is_reversed(kind: Kind, limits: &Limits) -> bool
    ensures { result ≡ is_reversed kind limits.now }
{
    kind.has_periodic_domain() && are_crossed(limits.min, limits.max)
}

fn are_crossed(min: Option<Decimal>, max: Option<Decimal>) -> bool
    ensures { result ≡ are_crossed min max }
{
    let Some(min) = min else {
        return false;
    };
    let Some(max) = max else {
        return false;
    };
    max < min
}

fn is_below(limits: &Limits, number: Decimal) -> bool
    ensures { result ≡ is_below limits.now number }
{
    match limits.min {
        Some(min) => number < min,
        None => false,
    }
}

fn is_above(limits: &Limits, number: Decimal) -> bool
    ensures { result ≡ is_above limits.now number }
{
    match limits.max {
        Some(max) => max < number,
        None => false,
    }
}

// Whether no whole number of steps leads from the step base to the number.
fn is_off_step(limits: &Limits, number: Decimal) -> bool
    requires { IfSome limits.now.step IsStep }
    ensures { result ≡ is_off_step limits.now number }
{
    match limits.step {
        Some(step) => !aligned(number, limits.base, step),
        None => false,
    }
}
