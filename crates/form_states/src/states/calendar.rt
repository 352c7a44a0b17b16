//! The states whose numbers are whole, which share their form: `date`, `month`, `week` and `time`. A
//! text that is no valid string of the state becomes empty.

#![tactic(auto, unfolding(form_types::specs::TypeTable::row_of))]

ghost use Rattle.form_types.specs.declared.kind.Kind.{Kind};
ghost use Rattle.form_states.specs.States.{number_of};
ghost use Rattle.form_states.specs.NumberLaws.{text_back};
ghost use Rattle.form_states.specs.Laws.{kept_again};

use crate::input_state::InputState;
use crate::limits::{Defaults, Limits};
use crate::whole::{in_units, kept_if_number, whole, whole_of};
use form_calendar::{
    print_date, print_month, print_time, print_week, read_date, read_month, read_time, read_week,
};
use form_decimal::Decimal;
use form_types::{DateRow, MonthRow, TimeRow, WeekRow};
use std::alloc::{AllocError, Global};

/// A day, as milliseconds from 1970-01-01 to its midnight.
impl InputState for DateRow {
    fn sanitise(alloc: Global, text: &str, _limits: &Limits) -> Result<String, AllocError> {
        kept_if_number(alloc, DateRow::number(text), text)
    }

    fn number(text: &str) -> Option<Decimal> {
        in_units(read_date(text))
    }

    fn text_of(alloc: Global, n: Decimal) -> Result<Option<String>, AllocError> {
        let Some(n) = whole_of(n) else {
            return Ok(None);
        };
        print_date(alloc, n)
    }

    fn defaults() -> Defaults {
        Defaults::none(false)
    }

    ghost idempotent = { λ _ t _. kept_again (number_of Kind.Date) t };

    ghost reads_back = { text_back Kind.Date };
}

/// Months from January 1970.
impl InputState for MonthRow {
    fn sanitise(alloc: Global, text: &str, _limits: &Limits) -> Result<String, AllocError> {
        kept_if_number(alloc, MonthRow::number(text), text)
    }

    fn number(text: &str) -> Option<Decimal> {
        in_units(read_month(text))
    }

    fn text_of(alloc: Global, n: Decimal) -> Result<Option<String>, AllocError> {
        let Some(n) = whole_of(n) else {
            return Ok(None);
        };
        print_month(alloc, n)
    }

    fn defaults() -> Defaults {
        Defaults::none(false)
    }

    ghost idempotent = { λ _ t _. kept_again (number_of Kind.Month) t };

    ghost reads_back = { text_back Kind.Month };
}

/// Milliseconds from 1970-01-01 to the midnight of its Monday.
impl InputState for WeekRow {
    fn sanitise(alloc: Global, text: &str, _limits: &Limits) -> Result<String, AllocError> {
        kept_if_number(alloc, WeekRow::number(text), text)
    }

    fn number(text: &str) -> Option<Decimal> {
        in_units(read_week(text))
    }

    fn text_of(alloc: Global, n: Decimal) -> Result<Option<String>, AllocError> {
        let Some(n) = whole_of(n) else {
            return Ok(None);
        };
        print_week(alloc, n)
    }

    /// The default step base is the Monday before 1970-01-01, a Thursday.
    fn defaults() -> Defaults {
        Defaults {
            base: whole(-259_200_000),
            ..Defaults::none(false)
        }
    }

    ghost idempotent = { λ _ t _. kept_again (number_of Kind.Week) t };

    ghost reads_back = { text_back Kind.Week };
}

/// Milliseconds from midnight.
impl InputState for TimeRow {
    fn sanitise(alloc: Global, text: &str, _limits: &Limits) -> Result<String, AllocError> {
        kept_if_number(alloc, TimeRow::number(text), text)
    }

    fn number(text: &str) -> Option<Decimal> {
        in_units(read_time(text))
    }

    fn text_of(alloc: Global, n: Decimal) -> Result<Option<String>, AllocError> {
        let Some(n) = whole_of(n) else {
            return Ok(None);
        };
        print_time(alloc, n)
    }

    fn defaults() -> Defaults {
        Defaults::none(false)
    }

    ghost idempotent = { λ _ t _. kept_again (number_of Kind.Time) t };

    ghost reads_back = { text_back Kind.Time };
}
