//! The states of numbers, and of a colour.
#![tactic(auto, unfolding(crate::specs::TypeTable::row_of))]

ghost use Rattle.form_types.specs.declared.kind.Kind.{Kind};
ghost use Rattle.form_types.specs.TypeTable.{mode_of, scale_of, default_step_of, blocks};

use crate::kind::{Attr, Kind, Mode};
use crate::row::Row;
use crate::rows::{is_of_numbers, is_of_range};

/// The row of `number`.
pub struct NumberRow;

impl Row for NumberRow {
    const KIND: Kind = Kind::Number;

    const KEYWORD: &'static str = "number";

    const MODE: Mode = Mode::Value;

    const SCALE: Option<i64> = Some(1);

    const DEFAULT_STEP: Option<i64> = Some(1);

    const BLOCKS: bool = true;

    ghost KIND = { Kind.Number };

    ghost MODE = { mode_of Kind.Number };

    ghost SCALE = { scale_of Kind.Number };

    ghost DEFAULT_STEP = { default_step_of Kind.Number };

    ghost BLOCKS = { blocks Kind.Number };

    fn word() -> &'static str {
        Self::KEYWORD
    }

    fn applies(attr: Attr) -> bool {
        is_of_numbers(attr)
    }
}

/// The row of `range`.
pub struct RangeRow;

impl Row for RangeRow {
    const KIND: Kind = Kind::Range;

    const KEYWORD: &'static str = "range";

    const MODE: Mode = Mode::Value;

    const SCALE: Option<i64> = Some(1);

    const DEFAULT_STEP: Option<i64> = Some(1);

    const BLOCKS: bool = false;

    ghost KIND = { Kind.Range };

    ghost MODE = { mode_of Kind.Range };

    ghost SCALE = { scale_of Kind.Range };

    ghost DEFAULT_STEP = { default_step_of Kind.Range };

    ghost BLOCKS = { blocks Kind.Range };

    fn word() -> &'static str {
        Self::KEYWORD
    }

    fn applies(attr: Attr) -> bool {
        is_of_range(attr)
    }
}

/// The row of `color`.
pub struct ColorRow;

impl Row for ColorRow {
    const KIND: Kind = Kind::Color;

    const KEYWORD: &'static str = "color";

    const MODE: Mode = Mode::Value;

    const SCALE: Option<i64> = None;

    const DEFAULT_STEP: Option<i64> = None;

    const BLOCKS: bool = false;

    ghost KIND = { Kind.Color };

    ghost MODE = { mode_of Kind.Color };

    ghost SCALE = { scale_of Kind.Color };

    ghost DEFAULT_STEP = { default_step_of Kind.Color };

    ghost BLOCKS = { blocks Kind.Color };

    fn word() -> &'static str {
        Self::KEYWORD
    }

    fn applies(_attr: Attr) -> bool {
        false
    }
}
