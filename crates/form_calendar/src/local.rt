//! Local dates and times.
ghost use Rattle.std.specs.Prelude.{◌≡◌, IfSome, IfNone, IfOk, option_map, Some, ℕ, ℤ, List, string_bytes, pos, ◌+ℤ◌, unsigned_abs, ◌≤◌, ◌^◌};
ghost use Rattle.jiff_core.specs.Calendar.{IsWithin};
ghost use Rattle.form_calendar.specs.Reading.{behind_separator};
ghost use Rattle.form_calendar.specs.LocalDateTime.{IsValidLocal, local_number, local_text};
ghost use Rattle.form_calendar.specs.Shortest.{IsShortestLocal};

use crate::date::{clock_of, date_in, day_of, day_string};
use crate::time::{push_clock, time_in};
use std::alloc::{AllocError, Global};

// What stands behind a `T` or a space.
fn after_separator(text: &[u8]) -> Option<&[u8]>
    ensures { option_map (λ s. s.now) result ≡ behind_separator text.now }
{
    match text {
        [b'T' | b' ', rest @ ..] => Some(rest),
        _ => None,
    }
}

// The milliseconds of a time of a day.
fn moment(day: i64, time: u32) -> i64
    requires { IsWithin 400_000_000_000_000 day }
    ensures { result ≡ day +ℤ pos time }
{
    day + time as i64
}

// The number of a valid local date and time string, whose date has ten bytes.
#[tactic(auto, unfolding(crate::specs::LocalDateTime::local_number))]
fn local_in(text: &[u8]) -> Option<i64>
    ensures { result ≡ local_number text.now }
{
    if text.len() < 10 {
        return None;
    }
    let (date, rest) = text.split_at(10);
    let Some(day) = date_in(date) else {
        return None;
    };
    let Some(rest) = after_separator(rest) else {
        return None;
    };
    let Some(time) = time_in(rest) else {
        return None;
    };
    Some(moment(day, time))
}

// The valid normalised local date and time string of the number, if there is one.
#[tactic(auto, unfolding(crate::specs::LocalDateTime::local_text))]
fn local_string(alloc: Global, n: i64) -> Result<Option<String>, AllocError>
    ensures { IfOk result (λ o. option_map string_bytes o ≡ local_text n) }
{
    let Some(mut text) = day_string(alloc, day_of(n))? else {
        return Ok(None);
    };
    text.push('T')?;
    push_clock(&mut text, clock_of(n))?;
    Ok(Some(text))
}

/// The number of a valid local date and time string (HTML, "valid local date and time string"), in
/// milliseconds from 1970-01-01T00:00; None for every other text.
pub fn read_local(text: &str) -> Option<i64>
    ensures found { IfSome result (IsValidLocal text.now) }
    ensures only { (n : ℤ) → IsValidLocal text.now n → result ≡ Some n }
    ensures value { result ≡ local_number text.now }
    ensures bound { IfSome result (λ n. unsigned_abs n ≤ 10 ^ 15) }
{
    local_in(text.as_bytes())
}

/// The valid normalised local date and time string of a number of milliseconds from
/// 1970-01-01T00:00 (HTML, "valid normalized local date and time string"): the date, `T` and the
/// shortest time. None where the number lies in no day of the years 1 to 9999.
pub fn print_local(alloc: Global, n: i64) -> Result<Option<String>, AllocError>
    ensures text { IfOk result (λ o. option_map string_bytes o ≡ local_text n) }
    ensures shortest { IfOk result (λ o. IfSome o (λ s. IsShortestLocal (string_bytes s) n)) }
    ensures none { IfOk result (λ o. IfNone o ((text : List ℕ) → IsValidLocal text n → ⊥)) }
{
    local_string(alloc, n)
}
