//! Months.
ghost use Rattle.std.specs.Prelude.{◌≡◌, ◌<◌, ◌≤◌, ◌+ℤ◌, pos, None, ℕ, ℤ, List, IfSome, IfNone, IfOk, Some, option_map, string_bytes, unsigned_abs, ◌^◌};
ghost use Rattle.form_calendar.specs.Month.{IsValidMonth, month_number, month_number_of, month_text, year_month_text};
ghost use Rattle.form_calendar.specs.Shortest.{IsShortest};

use crate::digits::whole_pair;
use std::alloc::{AllocError, Global};

// The months from January 1970 to a month of a year from 1 on.
#[tactic(auto, unfolding(crate::specs::Month::month_number_of))]
fn months_from_1970(year: u16, month: u16) -> Option<i64>
    requires year_in { year < 10000 }
    requires month_in { month < 10000 }
    ensures { result ≡ month_number_of year month }
{
    if year == 0 {
        return None;
    }
    if month == 0 {
        return None;
    }
    if month > 12 {
        return None;
    }
    Some((year as i64 - 1970) * 12 + (month as i64 - 1))
}

#[tactic(auto, unfolding(crate::specs::Month::month_number))]
fn month_in(text: &[u8]) -> Option<i64>
    ensures { result ≡ month_number text.now }
{
    let Some((year, month)) = whole_pair(text, b"-") else {
        return None;
    };
    months_from_1970(year, month)
}

// The text of a year and month.
#[tactic(auto, using(crate::proofs::PrintLemmas::hole_padded), unfolding(crate::specs::Digits::pair_text))]
fn year_month(alloc: Global, year: u32, month: u32) -> Result<String, AllocError>
    ensures { IfOk result (λ s. string_bytes s ≡ year_month_text year month) }
{
    format!(in alloc; "{year:04}-{month:02}")
}

// The months from January of the year 0 to a month of the years 1 to 9999, which begin 23,628 months
// before 1970 and end with the 96,359th after its January.
fn months_from_zero(n: i64) -> Option<u32>
    ensures found { IfSome result (λ k. (n +ℤ pos 23640 ≡ pos k) × (12 ≤ k) × (k < 120000)) }
    ensures none { IfNone result (None ≡ month_text n) }
{
    if n < -23_628 {
        return None;
    }
    if n > 96_359 {
        return None;
    }
    Some((n + 23_640) as u32)
}

// The valid month string of the number, if there is one.
fn month_string(alloc: Global, n: i64) -> Result<Option<String>, AllocError>
    ensures { IfOk result (λ o. option_map string_bytes o ≡ month_text n) }
{
    let Some(months) = months_from_zero(n) else {
        return Ok(None);
    };
    let text = year_month(alloc, months / 12, months % 12 + 1)?;
    Ok(Some(text))
}

/// The number of a valid month string (HTML, "valid month string"), in months from January 1970;
/// None for every other text.
pub fn read_month(text: &str) -> Option<i64>
    ensures found { IfSome result (IsValidMonth text.now) }
    ensures only { (n : ℤ) → IsValidMonth text.now n → result ≡ Some n }
    ensures value { result ≡ month_number text.now }
    ensures bound { IfSome result (λ n. unsigned_abs n ≤ 10 ^ 15) }
{
    month_in(text.as_bytes())
}

/// The valid month string of a number of months from January 1970; None where no month of the years
/// 1 to 9999 has the number.
pub fn print_month(alloc: Global, n: i64) -> Result<Option<String>, AllocError>
    ensures text { IfOk result (λ o. option_map string_bytes o ≡ month_text n) }
    ensures shortest { IfOk result
        (λ o. IfSome o (λ s. IsShortest IsValidMonth (string_bytes s) n)) }
    ensures none { IfOk result (λ o. IfNone o ((text : List ℕ) → IsValidMonth text n → ⊥)) }
{
    month_string(alloc, n)
}
