//! Weeks.
ghost use Rattle.std.specs.Prelude.{◌≡◌, ◌<◌, ◌≤ℤ◌, IfSome, IfNone, IfOk, Some, option_map, pos, ℕ, ℤ, List, string_bytes, unsigned_abs, ◌≤◌, ◌^◌};
ghost use Rattle.form_calendar.specs.Week.{IsValidWeek, week_number, week_number_of, weeks_of, year_week_text, monday_text, week_text};
ghost use Rattle.form_calendar.specs.Shortest.{IsShortest};

use crate::date::{DAY, clock_of, day_of};
use crate::digits::whole_pair;
use jiff_core::civil::{Date, ISOWeekDate, Weekday};
use std::alloc::{AllocError, Global};

/// The weeks of a year from 1 to 9999: 52 or 53 (HTML, "Weeks").
pub fn weeks_in(year: i64) -> u32
    requires low { pos 1 ≤ℤ year }
    requires high { year ≤ℤ pos 9999 }
    ensures { result ≡ weeks_of year }
{
    ISOWeekDate::weeks_in_year(year as i16) as u32
}

// The milliseconds from 1970-01-01 to the Monday of a week of a year from 1 on, if the year has it.
fn monday_of(year: u16, week: u16) -> Option<i64>
    requires year_in { year < 10000 }
    requires week_in { week < 10000 }
    ensures { result ≡ week_number_of year week }
{
    if year == 0 {
        return None;
    }
    if week > 53 {
        return None;
    }
    match ISOWeekDate::new(year as i16, week as i8, Weekday::Monday) {
        Ok(monday) => Some(monday.to_date().to_unix_epoch_day() as i64 * DAY),
        Err(_) => None,
    }
}

#[tactic(auto, unfolding(crate::specs::Week::week_number))]
fn week_in(text: &[u8]) -> Option<i64>
    ensures { result ≡ week_number text.now }
{
    let Some((year, week)) = whole_pair(text, b"-W") else {
        return None;
    };
    monday_of(year, week)
}

// The text of a year and week.
#[tactic(auto, using(crate::proofs::PrintLemmas::hole_padded), unfolding(crate::specs::Digits::pair_text))]
fn year_week(alloc: Global, year: u16, week: u8) -> Result<String, AllocError>
    ensures { IfOk result (λ s. string_bytes s ≡ year_week_text year week) }
{
    format!(in alloc; "{year:04}-W{week:02}")
}

// The year and week whose Monday has the day number, if there are any from the year 1 on.
fn week_on(day: i64) -> Option<(u16, u8)>
    ensures { option_map (λ x. year_week_text x.0 x.1) result ≡ monday_text day }
{
    let Ok(date) = Date::from_unix_epoch_day(day) else {
        return None;
    };
    let week = ISOWeekDate::from_date(date);
    if week.year < 1 {
        return None;
    }
    match week.weekday {
        Weekday::Monday => Some((week.year as u16, week.week)),
        _ => None,
    }
}

// The valid week string of the number, if there is one.
#[tactic(auto, unfolding(crate::specs::Week::week_text))]
fn week_string(alloc: Global, n: i64) -> Result<Option<String>, AllocError>
    ensures { IfOk result (λ o. option_map string_bytes o ≡ week_text n) }
{
    if clock_of(n) != 0 {
        return Ok(None);
    }
    let Some((year, week)) = week_on(day_of(n)) else {
        return Ok(None);
    };
    let text = year_week(alloc, year, week)?;
    Ok(Some(text))
}

/// The number of a valid week string (HTML, "valid week string"), in milliseconds from 1970-01-01
/// to its Monday's midnight; None for every other text.
pub fn read_week(text: &str) -> Option<i64>
    ensures found { IfSome result (IsValidWeek text.now) }
    ensures only { (n : ℤ) → IsValidWeek text.now n → result ≡ Some n }
    ensures value { result ≡ week_number text.now }
    ensures bound { IfSome result (λ n. unsigned_abs n ≤ 10 ^ 15) }
{
    week_in(text.as_bytes())
}

/// The valid week string of a number of milliseconds from 1970-01-01; None where it is the midnight
/// of no week's Monday of the years 1 to 9999.
pub fn print_week(alloc: Global, n: i64) -> Result<Option<String>, AllocError>
    ensures text { IfOk result (λ o. option_map string_bytes o ≡ week_text n) }
    ensures shortest { IfOk result
        (λ o. IfSome o (λ s. IsShortest IsValidWeek (string_bytes s) n)) }
    ensures none { IfOk result (λ o. IfNone o ((text : List ℕ) → IsValidWeek text n → ⊥)) }
{
    week_string(alloc, n)
}
