//! The state `range`: there is always a number from the minimum to the maximum, on a step where one
//! is near enough. The four steps of sanitising are in turn: the default for a text without a
//! number, the minimum for a number below it, the maximum for one above it, and the nearest candidate
//! for one that is not aligned.

#![tactic(auto, unfolding(form_types::specs::TypeTable::row_of))]

ghost use Rattle.std.specs.Prelude.{◌≡◌, ◌≤ℤ◌, ℤ, pos, IfOk, IfSome, Some, None, string_bytes, unwrap_or};
ghost use Rattle.form_types.specs.declared.kind.Kind.{Kind};
ghost use Rattle.form_decimal.specs.Nearest.{nearest_of};
ghost use Rattle.form_states.specs.Range.{top_of, middle, up_to, raised_to, clamped, stepped, low_of, high_of, top_in, default_in, corrected_in, corrected_text, range_sanitised};
ghost use Rattle.form_states.specs.Limits.{IsStep};
ghost use Rattle.form_states.specs.NumberLaws.{text_back};
ghost use Rattle.form_states.specs.RangeLaws.{range_again};

use crate::input_state::InputState;
use crate::limits::{Defaults, Limits};
use crate::whole::{decimal_text, whole};
use form_decimal::{Decimal, aligned, half_between, nearest_aligned, print, read_valid};
use form_types::RangeRow;
use std::alloc::{AllocError, Global};

impl InputState for RangeRow {
    fn sanitise(alloc: Global, text: &str, limits: &Limits) -> Result<String, AllocError> {
        sanitised(alloc, text, limits)
    }

    fn number(text: &str) -> Option<Decimal> {
        read_valid(text)
    }

    fn text_of(alloc: Global, n: Decimal) -> Result<Option<String>, AllocError> {
        decimal_text(alloc, n)
    }

    fn defaults() -> Defaults {
        Defaults {
            min: Some(Decimal::zero()),
            max: Some(whole(100)),
            ..Defaults::none(true)
        }
    }

    ghost idempotent = { range_again };

    ghost reads_back = { text_back Kind.Range };
}

#[tactic(auto, unfolding(crate::specs::Range::range_sanitised))]
fn sanitised(alloc: Global, text: &str, limits: &Limits) -> Result<String, AllocError>
    requires { IfSome limits.now.step IsStep }
    ensures { IfOk result (λ s. string_bytes s ≡ range_sanitised limits.now text.now) }
{
    match read_valid(text) {
        Some(n) => kept_or_printed(alloc, text, limits, n),
        None => print(alloc, corrected(limits, default_value(limits))),
    }
}

fn kept_or_printed(
    alloc: Global,
    text: &str,
    limits: &Limits,
    n: Decimal,
) -> Result<String, AllocError>
    requires { IfSome limits.now.step IsStep }
    ensures { IfOk result (λ s. string_bytes s ≡ corrected_text limits.now text.now (Some n)) }
{
    let fixed = corrected(limits, n);
    if n == fixed {
        String::from_str(alloc, text)
    } else {
        print(alloc, fixed)
    }
}

/// The second to the fourth step.
#[tactic(auto, unfolding(crate::specs::Range::corrected_in))]
fn corrected(limits: &Limits, n: Decimal) -> Decimal
    requires { IfSome limits.now.step IsStep }
    ensures { result ≡ corrected_in limits.now n }
{
    let within = clamped(low(limits), top(limits), n);
    stepped(low(limits), top(limits), limits.base, limits.step, within)
}

fn stepped(
    low: Decimal,
    top: Option<Decimal>,
    base: Decimal,
    step: Option<i128>,
    n: Decimal,
) -> Decimal
    requires { IfSome step IsStep }
    ensures { result ≡ stepped low top base step n }
{
    match step {
        Some(step) => moved(low, top, base, step, n),
        None => n,
    }
}

fn moved(low: Decimal, top: Option<Decimal>, base: Decimal, step: i128, n: Decimal) -> Decimal
    requires { IsStep step }
    ensures { result ≡ stepped low top base (Some step) n }
{
    if aligned(n, base, step) {
        n
    } else {
        nearest(n, base, step, low, top)
    }
}

fn nearest(n: Decimal, base: Decimal, step: i128, low: Decimal, top: Option<Decimal>) -> Decimal
    requires { IsStep step }
    ensures { result ≡ unwrap_or (nearest_of n base step low top) n }
{
    match nearest_aligned(n, base, step, low, top) {
        Some(candidate) => candidate,
        None => n,
    }
}

fn clamped(low: Decimal, top: Option<Decimal>, n: Decimal) -> Decimal
    ensures { result ≡ clamped low top n }
{
    up_to(top, raised_to(low, n))
}

fn raised_to(low: Decimal, n: Decimal) -> Decimal
    ensures { result ≡ raised_to low n }
{
    if n < low { low } else { n }
}

fn up_to(top: Option<Decimal>, n: Decimal) -> Decimal
    ensures { result ≡ up_to top n }
{
    match top {
        Some(high) => { if high < n { high } else { n } }
        None => n,
    }
}

fn default_value(limits: &Limits) -> Decimal
    ensures { result ≡ default_in limits.now }
{
    middle(low(limits), top(limits))
}

fn middle(low: Decimal, top: Option<Decimal>) -> Decimal
    requires { IfSome top (λ h. low ≤ℤ h) }
    ensures { result ≡ middle low top }
{
    match top {
        Some(high) => half_between(low, high),
        None => low,
    }
}

fn low(limits: &Limits) -> Decimal
    ensures { result ≡ low_of limits.now }
{
    or_zero(limits.min)
}

fn high(limits: &Limits) -> Decimal
    ensures { result ≡ high_of limits.now }
{
    or_zero(limits.max)
}

fn or_zero(end: Option<Decimal>) -> Decimal
    ensures { result ≡ unwrap_or end (pos 0) }
{
    match end {
        Some(end) => end,
        None => Decimal::zero(),
    }
}

/// The maximum, where it is not below the minimum.
fn top(limits: &Limits) -> Option<Decimal>
    ensures value { result ≡ top_in limits.now }
    ensures above { IfSome result (λ h. low_of limits.now ≤ℤ h) }
{
    top_of(low(limits), high(limits))
}

fn top_of(low: Decimal, high: Decimal) -> Option<Decimal>
    ensures value { result ≡ top_of low high }
    ensures above { IfSome result (λ h. low ≤ℤ h) }
{
    if high < low { None } else { Some(high) }
}
