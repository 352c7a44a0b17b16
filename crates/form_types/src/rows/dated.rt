//! The states of dates and times.
#![tactic(auto, unfolding(crate::specs::TypeTable::row_of))]

ghost use Rattle.form_types.specs.declared.kind.Kind.{Kind};
ghost use Rattle.form_types.specs.TypeTable.{mode_of, scale_of, default_step_of, blocks};

use crate::kind::{Attr, Kind, Mode};
use crate::row::Row;
use crate::rows::is_of_numbers;

/// The row of `date`.
pub struct DateRow;

impl Row for DateRow {
    const KIND: Kind = Kind::Date;

    const KEYWORD: &'static str = "date";

    const MODE: Mode = Mode::Value;

    const SCALE: Option<i64> = Some(86_400_000);

    const DEFAULT_STEP: Option<i64> = Some(1);

    const BLOCKS: bool = true;

    ghost KIND = { Kind.Date };

    ghost MODE = { mode_of Kind.Date };

    ghost SCALE = { scale_of Kind.Date };

    ghost DEFAULT_STEP = { default_step_of Kind.Date };

    ghost BLOCKS = { blocks Kind.Date };

    fn word() -> &'static str {
        Self::KEYWORD
    }

    fn applies(attr: Attr) -> bool {
        is_of_numbers(attr)
    }
}

/// The row of `month`.
pub struct MonthRow;

impl Row for MonthRow {
    const KIND: Kind = Kind::Month;

    const KEYWORD: &'static str = "month";

    const MODE: Mode = Mode::Value;

    const SCALE: Option<i64> = Some(1);

    const DEFAULT_STEP: Option<i64> = Some(1);

    const BLOCKS: bool = true;

    ghost KIND = { Kind.Month };

    ghost MODE = { mode_of Kind.Month };

    ghost SCALE = { scale_of Kind.Month };

    ghost DEFAULT_STEP = { default_step_of Kind.Month };

    ghost BLOCKS = { blocks Kind.Month };

    fn word() -> &'static str {
        Self::KEYWORD
    }

    fn applies(attr: Attr) -> bool {
        is_of_numbers(attr)
    }
}

/// The row of `week`.
pub struct WeekRow;

impl Row for WeekRow {
    const KIND: Kind = Kind::Week;

    const KEYWORD: &'static str = "week";

    const MODE: Mode = Mode::Value;

    const SCALE: Option<i64> = Some(604_800_000);

    const DEFAULT_STEP: Option<i64> = Some(1);

    const BLOCKS: bool = true;

    ghost KIND = { Kind.Week };

    ghost MODE = { mode_of Kind.Week };

    ghost SCALE = { scale_of Kind.Week };

    ghost DEFAULT_STEP = { default_step_of Kind.Week };

    ghost BLOCKS = { blocks Kind.Week };

    fn word() -> &'static str {
        Self::KEYWORD
    }

    fn applies(attr: Attr) -> bool {
        is_of_numbers(attr)
    }
}

/// The row of `time`.
pub struct TimeRow;

impl Row for TimeRow {
    const KIND: Kind = Kind::Time;

    const KEYWORD: &'static str = "time";

    const MODE: Mode = Mode::Value;

    const SCALE: Option<i64> = Some(1_000);

    const DEFAULT_STEP: Option<i64> = Some(60);

    const BLOCKS: bool = true;

    ghost KIND = { Kind.Time };

    ghost MODE = { mode_of Kind.Time };

    ghost SCALE = { scale_of Kind.Time };

    ghost DEFAULT_STEP = { default_step_of Kind.Time };

    ghost BLOCKS = { blocks Kind.Time };

    fn word() -> &'static str {
        Self::KEYWORD
    }

    fn applies(attr: Attr) -> bool {
        is_of_numbers(attr)
    }
}

/// The row of `datetime-local`.
pub struct LocalRow;

impl Row for LocalRow {
    const KIND: Kind = Kind::Local;

    const KEYWORD: &'static str = "datetime-local";

    const MODE: Mode = Mode::Value;

    const SCALE: Option<i64> = Some(1_000);

    const DEFAULT_STEP: Option<i64> = Some(60);

    const BLOCKS: bool = true;

    ghost KIND = { Kind.Local };

    ghost MODE = { mode_of Kind.Local };

    ghost SCALE = { scale_of Kind.Local };

    ghost DEFAULT_STEP = { default_step_of Kind.Local };

    ghost BLOCKS = { blocks Kind.Local };

    fn word() -> &'static str {
        Self::KEYWORD
    }

    fn applies(attr: Attr) -> bool {
        is_of_numbers(attr)
    }
}
