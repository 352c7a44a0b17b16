//! The limits of a control, by its attributes (HTML, "The min and max attributes", "The step
//! attribute").
ghost use Rattle.std.specs.Prelude.{◌≡◌, true, false, ℤ, pos, ◌*ℤ◌, ◌≤ℤ◌, None, IfSome, unwrap_or, option_map, codes};
ghost use Rattle.std.specs.Str.{str_eq_ignore_ascii_case};
ghost use Rattle.form_types.specs.declared.kind.Kind.{Kind};
ghost use Rattle.form_states.specs.Numbers.{IsDecimal};
ghost use Rattle.form_states.specs.States.{rules_of};
ghost use Rattle.form_states.specs.Limits.{attribute_number, number_in, step_by, positive_or, allowed_value_step, limits_of, IsScale, IsDefaultStep, IsStep, IsLimits, HasDecimals};

use crate::input_state::InputState;
use crate::number;
use crate::whole::whole;
use form_decimal::{Decimal, read_lenient};
use form_types::{Kind, default_step, scale, with_state};

/// The limits of a control, as numbers: its minimum, maximum, allowed value step and step base.
/// A decimal counts units of 10^-12, and so does the step.
#[derive(Clone, Copy, Debug)]
pub struct Limits {
    pub min: Option<Decimal>,
    pub max: Option<Decimal>,
    pub step: Option<i128>,
    pub base: Decimal,
}

impl Limits {
    /// The limits that these attributes give a control in that state.
    ///
    /// `min`, `max` and `value` are read by the rules for parsing floating-point number values in
    /// number and range, and as valid strings in the date and time states; `step` by these rules
    /// in each state with numbers. What does not read is as if it were missing.
    pub fn of(
        kind: Kind,
        min: Option<&str>,
        max: Option<&str>,
        step: Option<&str>,
        value: Option<&str>,
    ) -> Limits
        ensures value { result ≡ limits_of kind (option_map (λ t. t.now) min.entry)
            (option_map (λ t. t.now) max.entry) (option_map (λ t. t.now) step.entry)
            (option_map (λ t. t.now) value.entry) }
        ensures limits { IsLimits kind result }
        ensures decimals { HasDecimals result }
    {
        let limits = from_attributes(kind, min, max, step, value);
        limits.decimals();
        limits
    }

    /// Each number of these limits is a decimal.
    pub(crate) fn decimals(&self)
        ensures { HasDecimals self.now }
    {
        is_decimal(self.min);
        is_decimal(self.max);
        let _units = self.base.units();
    }
}

fn is_decimal(n: Option<Decimal>)
    ensures { IfSome n IsDecimal }
{
    match n {
        Some(n) => {
            let _units = n.units();
        }
        None => {}
    }
}

#[tactic(auto, unfolding(crate::specs::Limits::limits_of))]
fn from_attributes(
    kind: Kind,
    min: Option<&str>,
    max: Option<&str>,
    step: Option<&str>,
    value: Option<&str>,
) -> Limits
    ensures value { result ≡ limits_of kind (option_map (λ t. t.now) min.entry)
        (option_map (λ t. t.now) max.entry) (option_map (λ t. t.now) step.entry)
        (option_map (λ t. t.now) value.entry) }
    ensures step { IfSome result.step IsStep }
{
    let own = defaults_of(kind);
    Limits {
        min: number_in(kind, min).or(own.min),
        max: number_in(kind, max).or(own.max),
        step: allowed_value_step(kind, step),
        base: number_in(kind, min)
            .or(number_in(kind, value))
            .unwrap_or(own.base),
    }
}

/// Whether the attributes of a state are read by the rules for parsing floating-point number values,
/// and its default minimum, maximum and step base.
#[derive(Drop)]
pub struct Defaults {
    pub(crate) lenient: bool,
    pub(crate) min: Option<Decimal>,
    pub(crate) max: Option<Decimal>,
    pub(crate) base: Decimal,
}

impl Defaults {
    /// No ends, and 0 as the step base.
    pub(crate) fn none(lenient: bool) -> Defaults
        ensures { result ≡ record { lenient = lenient; min = None; max = None; base = pos 0 } }
    {
        Defaults {
            lenient,
            min: None,
            max: None,
            base: Decimal::zero(),
        }
    }
}

fn attribute_number(kind: Kind, text: &str) -> Option<Decimal>
    ensures { result ≡ attribute_number kind text.now }
{
    if defaults_of(kind).lenient {
        read_lenient(text)
    } else {
        number(kind, text)
    }
}

fn number_in(kind: Kind, attribute: Option<&str>) -> Option<Decimal>
    ensures { result ≡ number_in kind (option_map (λ t. t.now) attribute.entry) }
{
    match attribute {
        Some(text) => attribute_number(kind, text),
        None => None,
    }
}

fn state_defaults<S: InputState>() -> Defaults
    ensures lenient { result.lenient ≡ (rules_of S.KIND).lenient }
    ensures min { result.min ≡ (rules_of S.KIND).minimum }
    ensures max { result.max ≡ (rules_of S.KIND).maximum }
    ensures base { result.base ≡ (rules_of S.KIND).base }
{
    S::defaults()
}

fn defaults_of(kind: Kind) -> Defaults
    ensures lenient { result.lenient ≡ (rules_of kind).lenient }
    ensures min { result.min ≡ (rules_of kind).minimum }
    ensures max { result.max ≡ (rules_of kind).maximum }
    ensures base { result.base ≡ (rules_of kind).base }
{
    with_state!(kind, state_defaults, ())
}

/// The allowed value step. The step scale factor and the default step are those of the table.
fn allowed_value_step(kind: Kind, attribute: Option<&str>) -> Option<i128>
    ensures value { result ≡ allowed_value_step kind (option_map (λ t. t.now) attribute.entry) }
    ensures step { IfSome result IsStep }
{
    let Some(scale) = scale(kind) else {
        return None;
    };
    let Some(default) = default_step(kind) else {
        return None;
    };
    step_by(scale, default, attribute)
}

fn step_by(scale: i64, default: i64, attribute: Option<&str>) -> Option<i128>
    requires scale { IsScale scale }
    requires default { IsDefaultStep default }
    ensures value { result ≡ step_by scale default (option_map (λ t. t.now) attribute.entry) }
    ensures step { IfSome result IsStep }
{
    let Some(text) = attribute else {
        return Some(scaled(whole(default), scale));
    };
    if is_any(text) {
        return None;
    }
    Some(scaled(positive_or(whole(default), read_lenient(text)), scale))
}

fn is_any(text: &str) -> bool
    ensures { result ≡ str_eq_ignore_ascii_case text.now (codes "any") }
{
    text.eq_ignore_ascii_case("any")
}

fn positive_or(default: Decimal, n: Option<Decimal>) -> Decimal
    requires { pos 1 ≤ℤ default }
    ensures value { result ≡ positive_or default n }
    ensures positive { pos 1 ≤ℤ result }
{
    match n {
        Some(n) => { if Decimal::zero() < n { n } else { default } }
        None => default,
    }
}

fn scaled(n: Decimal, scale: i64) -> i128
    requires positive { pos 1 ≤ℤ n }
    requires scale { IsScale scale }
    ensures value { result ≡ n *ℤ scale }
    ensures step { IsStep result }
{
    times(n, scale)
}

fn times(n: Decimal, scale: i64) -> i128
    requires { IsScale scale }
    ensures value { result ≡ n *ℤ scale }
    ensures bound { IsDecimal n }
{
    n.units() * scale as i128
}
