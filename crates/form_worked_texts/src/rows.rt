// How rows are read, and how numbers are answered.
use form_decimal::Decimal;
use std::alloc::{AllocError, Global};

// How many units are one.
const ONE: i128 = 1_000_000_000_000;

/// The three parts of a row: the call, its text, and the answer that is wanted.
pub fn parts(row: &str) -> Option<(&str, &str, &str)> {
    let (call, rest) = row.split_once('|')?;
    let (text, want) = rest.split_once('|')?;
    Some((call, text, want))
}

/// The attribute of a row: `-` is a missing one.
pub fn given(text: &str) -> Option<&str> {
    if text == "-" { None } else { Some(text) }
}

/// So many units as their ones and the units that are left: 1.5 is `1:500000000000`.
pub fn units(alloc: Global, units: Option<i128>) -> Result<String, AllocError> {
    match units {
        Some(units) => format!(in alloc; "{}:{}", units / ONE, units % ONE),
        None => String::from_str(alloc, "none"),
    }
}

/// The units of a decimal.
pub fn decimal(alloc: Global, n: Option<Decimal>) -> Result<String, AllocError> {
    match n {
        Some(n) => units(alloc, Some(n.units())),
        None => units(alloc, None),
    }
}

/// A whole number.
pub fn whole(alloc: Global, n: Option<i64>) -> Result<String, AllocError> {
    match n {
        Some(n) => format!(in alloc; "{n}"),
        None => String::from_str(alloc, "none"),
    }
}

/// A text that is there or not.
pub fn text(alloc: Global, text: Option<String>) -> Result<String, AllocError> {
    match text {
        Some(text) => Ok(text),
        None => String::from_str(alloc, "none"),
    }
}
