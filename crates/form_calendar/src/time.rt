//! Times.
ghost use Rattle.form_calendar.specs.Digits.{padded, pair_text};
ghost use Rattle.std.specs.Prelude.{codes, ◌∷◌, ◌≡◌, ◌<◌, ◌≤◌, ◌++◌, IfSome, IfNone, IfOk, OnOk, Some, option_map, ℕ, ℤ, List, string_bytes, unsigned_abs, ◌^◌};
ghost use Rattle.form_calendar.specs.Time.{IsValidTime, fraction_unit, fraction_number, seconds_number, clock_read, time_number, shortest_fraction, shortest_seconds, clock_text, time_text};
ghost use Rattle.form_calendar.specs.Shortest.{IsShortest};

use crate::date::DAY;
use crate::digits::{number, number_front, pair_front};
use std::alloc::{AllocError, Global};

// How many milliseconds the last of so many digits of a fraction counts.
fn unit_of(count: usize) -> Option<u32>
    ensures value { result ≡ fraction_unit count }
    ensures bound { IfSome result (λ u. u ≤ 100) }
    ensures count_in { IfSome result (λ u. count ≤ 3) }
{
    match count {
        1 => Some(100),
        2 => Some(10),
        3 => Some(1),
        _ => None,
    }
}

// The milliseconds of a fraction.
#[tactic(auto, unfolding(crate::specs::Time::fraction_number))]
fn fraction_in(text: &[u8]) -> Option<u32>
    ensures value { result ≡ fraction_number text.now }
    ensures bound { IfSome result (λ n. n < 1_000_000) }
{
    match text {
        [] => Some(0),
        [b'.', digits @ ..] => {
            let Some(unit) = unit_of(digits.len()) else {
                return None;
            };
            let Some(value) = number(digits) else {
                return None;
            };
            Some(value as u32 * unit)
        }
        _ => None,
    }
}

// The milliseconds of what stands behind the minute.
#[tactic(auto, unfolding(crate::specs::Time::seconds_number))]
fn seconds_in(text: &[u8]) -> Option<u32>
    ensures value { result ≡ seconds_number text.now }
    ensures bound { IfSome result (λ n. n < 1_100_000) }
{
    match text {
        [] => Some(0),
        [b':', rest @ ..] => {
            let Some((second, rest)) = number_front(rest, 2) else {
                return None;
            };
            if second > 59 {
                return None;
            }
            let Some(millisecond) = fraction_in(rest) else {
                return None;
            };
            Some(second as u32 * 1000 + millisecond)
        }
        _ => None,
    }
}

// The milliseconds from midnight of a valid time string.
#[tactic(auto, unfolding(crate::specs::Time::clock_read))]
pub fn time_in(text: &[u8]) -> Option<u32>
    ensures value { result ≡ clock_read text.now }
    ensures bound { IfSome result (λ n. n < 90_000_000) }
{
    let Some(((hour, minute), rest)) = pair_front(text, 2, b":") else {
        return None;
    };
    if hour > 23 {
        return None;
    }
    if minute > 59 {
        return None;
    }
    let Some(seconds) = seconds_in(rest) else {
        return None;
    };
    Some((hour as u32 * 60 + minute as u32) * 60_000 + seconds)
}

// The same as a number of milliseconds.
fn milliseconds_in(text: &[u8]) -> Option<i64>
    ensures { result ≡ time_number text.now }
{
    let Some(milliseconds) = time_in(text) else {
        return None;
    };
    Some(milliseconds as i64)
}

// Appends the shortest fraction of a second.
#[tactic(auto, using(crate::proofs::PrintLemmas::hole_padded), unfolding(crate::specs::Time::shortest_fraction))]
fn push_fraction(out: &mut String, millisecond: u32) -> Result<(), AllocError>
    requires { millisecond < 1000 }
    ensures { OnOk result
        (string_bytes out.new ≡ string_bytes out.old ++ shortest_fraction millisecond) }
{
    if millisecond == 0 {
        return Ok(());
    }
    if millisecond % 100 == 0 {
        return write!(out, ".{:01}", millisecond / 100);
    }
    if millisecond % 10 == 0 {
        return write!(out, ".{:02}", millisecond / 10);
    }
    write!(out, ".{millisecond:03}")
}

// Appends a colon and a number in two digits.
#[tactic(auto, using(crate::proofs::PrintLemmas::hole_padded))]
fn push_second(out: &mut String, second: u32) -> Result<(), AllocError>
    ensures { OnOk result (string_bytes out.new ≡ string_bytes out.old ++ (58 ∷ padded 2 second)) }
{
    write!(out, ":{second:02}")
}

// Appends the hour and minute.
#[tactic(auto, using(crate::proofs::PrintLemmas::hole_padded), unfolding(crate::specs::Digits::pair_text))]
fn push_minute(out: &mut String, hour: u32, minute: u32) -> Result<(), AllocError>
    ensures { OnOk result
        (string_bytes out.new ≡ string_bytes out.old ++ pair_text 2 (codes ":") hour minute) }
{
    write!(out, "{hour:02}:{minute:02}")
}

// Appends the shortest seconds, which are none where they and the milliseconds are zero.
#[tactic(auto, unfolding(crate::specs::Time::shortest_seconds))]
fn push_seconds(out: &mut String, milliseconds: u32) -> Result<(), AllocError>
    requires { milliseconds < 60_000 }
    ensures { OnOk result
        (string_bytes out.new ≡ string_bytes out.old ++ shortest_seconds milliseconds) }
{
    if milliseconds == 0 {
        return Ok(());
    }
    push_second(out, milliseconds / 1000)?;
    push_fraction(out, milliseconds % 1000)
}

// Appends the shortest time of so many milliseconds from midnight.
#[tactic(auto, unfolding(crate::specs::Time::clock_text))]
pub fn push_clock(out: &mut String, n: u32) -> Result<(), AllocError>
    requires { n < 86_400_000 }
    ensures { OnOk result (string_bytes out.new ≡ string_bytes out.old ++ clock_text n) }
{
    push_minute(out, n / 3_600_000, n / 60_000 % 60)?;
    push_seconds(out, n % 60_000)
}

// The shortest valid time string of the number, if there is one.
#[tactic(auto, unfolding(crate::specs::Time::time_text))]
fn time_string(alloc: Global, n: i64) -> Result<Option<String>, AllocError>
    ensures { IfOk result (λ o. option_map string_bytes o ≡ time_text n) }
{
    if n < 0 {
        return Ok(None);
    }
    if n >= DAY {
        return Ok(None);
    }
    let mut text = String::new(alloc);
    push_clock(&mut text, n as u32)?;
    Ok(Some(text))
}

/// The number of a valid time string (HTML, "valid time string"), in milliseconds from midnight;
/// None for every other text.
pub fn read_time(text: &str) -> Option<i64>
    ensures found { IfSome result (IsValidTime text.now) }
    ensures only { (n : ℤ) → IsValidTime text.now n → result ≡ Some n }
    ensures value { result ≡ time_number text.now }
    ensures bound { IfSome result (λ n. unsigned_abs n ≤ 10 ^ 15) }
{
    milliseconds_in(text.as_bytes())
}

/// The shortest valid time string of a number of milliseconds from midnight; None where it is below
/// 0 or above 86,399,999.
pub fn print_time(alloc: Global, n: i64) -> Result<Option<String>, AllocError>
    ensures text { IfOk result (λ o. option_map string_bytes o ≡ time_text n) }
    ensures shortest { IfOk result
        (λ o. IfSome o (λ s. IsShortest IsValidTime (string_bytes s) n)) }
    ensures none { IfOk result (λ o. IfNone o ((text : List ℕ) → IsValidTime text n → ⊥)) }
{
    time_string(alloc, n)
}
