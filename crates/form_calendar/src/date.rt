//! Days.
ghost use Rattle.std.specs.Prelude.{◌≡◌, ◌<◌, ◌≤ℤ◌, IfSome, IfNone, IfOk, option_map, Some, pos, ℕ, ℤ, List, string_bytes, unsigned_abs, ◌≤◌, ◌^◌};
ghost use Rattle.jiff_core.specs.Date.{epoch_day};
ghost use Rattle.jiff_core.specs.Calendar.{IsWithin};
ghost use Rattle.form_calendar.specs.Reading.{date_at};
ghost use Rattle.form_calendar.specs.Date.{IsValidDate, date_number, day_number_of, day_of, clock_of, civil_text, day_text, date_text};
ghost use Rattle.jiff_core.specs.declared.civil.date.Date.{Date};
ghost use Rattle.form_calendar.specs.Shortest.{IsShortest};

use crate::digits::{behind, number_front, pair_front};
use jiff_core::civil::Date;
use std::alloc::{AllocError, Global};

/// How many milliseconds a day has.
pub const DAY: i64 = 86_400_000;

// The day in which a number of milliseconds lies.
pub fn day_of(n: i64) -> i64
    ensures { result ≡ day_of n }
{
    n.div_euclid(DAY)
}

// The milliseconds from that day's midnight.
pub fn clock_of(n: i64) -> u32
    ensures value { result ≡ clock_of n }
    ensures bound { result < 86_400_000 }
{
    n.rem_euclid(DAY) as u32
}

// The year, month and day of `YYYY-MM-DD`, and what stands behind it.
#[tactic(auto, unfolding(crate::specs::Reading::date_at))]
fn date_front(text: &[u8]) -> Option<((u16, u16, u16), &[u8])>
    ensures value { option_map (λ x. (x.0, x.1.now)) result ≡ date_at text.now }
    ensures bound { IfSome result (λ x. (x.0.0 < 10000) × (x.0.1 < 10000) × (x.0.2 < 10000)) }
{
    let ((year, month), rest) = pair_front(text, 4, b"-")?;
    let rest = behind(rest, b"-")?;
    let (day, rest) = number_front(rest, 2)?;
    Some(((year, month, day), rest))
}

// The date of a year from 1 on, a month and a day, if the calendar has it.
fn date_of(year: u16, month: u16, day: u16) -> Option<Date>
    requires year_in { year < 10000 }
    requires month_in { month < 10000 }
    requires day_in { day < 10000 }
    ensures { option_map epoch_day result ≡ day_number_of year month day }
{
    if year == 0 {
        return None;
    }
    if month > 12 {
        return None;
    }
    if day > 31 {
        return None;
    }
    match Date::new(year as i16, month as i8, day as i8) {
        Ok(date) => Some(date),
        Err(_) => None,
    }
}

// The number of a valid date string.
#[tactic(auto, unfolding(crate::specs::Date::date_number))]
pub fn date_in(text: &[u8]) -> Option<i64>
    ensures value { result ≡ date_number text.now }
    ensures bound { IfSome result (IsWithin 400_000_000_000_000) }
{
    let Some(((year, month, day), rest)) = date_front(text) else {
        return None;
    };
    if !rest.is_empty() {
        return None;
    }
    let Some(date) = date_of(year, month, day) else {
        return None;
    };
    Some(date.to_unix_epoch_day() as i64 * DAY)
}

// The text of a year, month and day.
#[tactic(auto, using(crate::proofs::PrintLemmas::date_holes), unfolding(crate::specs::Date::civil_text))]
fn civil_string(alloc: Global, year: u16, month: u8, day: u8) -> Result<String, AllocError>
    ensures { IfOk result (λ s. string_bytes s ≡ civil_text year month day) }
{
    format!(in alloc; "{year:04}-{month:02}-{day:02}")
}

// The date from the year 1 on that has the day number, if there is one.
fn date_on(day: i64) -> Option<Date>
    ensures found { IfSome result (λ d. (pos 1 ≤ℤ d.year) × (epoch_day d ≡ day)) }
    ensures none { IfNone result ((d : Date) → pos 1 ≤ℤ d.year → epoch_day d ≡ day → ⊥) }
{
    let Ok(date) = Date::from_unix_epoch_day(day) else {
        return None;
    };
    if date.year < 1 {
        return None;
    }
    Some(date)
}

// The valid date string of a day number, if there is one.
pub fn day_string(alloc: Global, day: i64) -> Result<Option<String>, AllocError>
    ensures { IfOk result (λ o. option_map string_bytes o ≡ day_text day) }
{
    let Some(date) = date_on(day) else {
        return Ok(None);
    };
    let text = civil_string(alloc, date.year as u16, date.month, date.day)?;
    Ok(Some(text))
}

// The valid date string of the number, if there is one.
fn date_string(alloc: Global, n: i64) -> Result<Option<String>, AllocError>
    ensures { IfOk result (λ o. option_map string_bytes o ≡ date_text n) }
{
    if clock_of(n) != 0 {
        return Ok(None);
    }
    day_string(alloc, day_of(n))
}

/// The number of a valid date string (HTML, "valid date string"), in milliseconds from 1970-01-01
/// to the day's midnight; None for every other text.
pub fn read_date(text: &str) -> Option<i64>
    ensures found { IfSome result (IsValidDate text.now) }
    ensures only { (n : ℤ) → IsValidDate text.now n → result ≡ Some n }
    ensures value { result ≡ date_number text.now }
    ensures bound { IfSome result (λ n. unsigned_abs n ≤ 10 ^ 15) }
{
    date_in(text.as_bytes())
}

/// The valid date string of a number of milliseconds from 1970-01-01; None where it is the midnight
/// of no day of the years 1 to 9999.
pub fn print_date(alloc: Global, n: i64) -> Result<Option<String>, AllocError>
    ensures text { IfOk result (λ o. option_map string_bytes o ≡ date_text n) }
    ensures shortest { IfOk result
        (λ o. IfSome o (λ s. IsShortest IsValidDate (string_bytes s) n)) }
    ensures none { IfOk result (λ o. IfNone o ((text : List ℕ) → IsValidDate text n → ⊥)) }
{
    date_string(alloc, n)
}
