//! The states of an input, which its `type` attribute names (HTML, "The input element"): one table
//! of 21 rows, and everything that looks a state up in it.
//!
//! The definition of the table is the list `type_table` of `specs/TypeTable.antt`, a row a state.
//! In code each state has a row type, which implements [`Row`] and is proved to agree with the
//! state's row of that list, and [`with_state!`] holds the one list of the states with their row
//! types. To add a state, write its variant of [`Kind`], its row type, one line in that list and
//! one row of the definition:
//!
//! - without the line, the `match` that `with_state!` writes is not exhaustive, in every function
//!   of every crate that asks by state;
//! - without the row, the row type does not prove, since its keyword is not that of the row which
//!   its kind finds;
//! - `Kind::of` walks the same list of `with_state!`, and its proof compares that list with the
//!   kinds of `type_table`, row for row.
#![tactic(auto)]

ghost use Rattle.std.specs.Prelude.{◌≡◌};
ghost use Rattle.form_types.specs.TypeTable.{keyword_of, mode_of, scale_of, default_step_of, blocks, applies_to};

mod kind;
mod row;
mod rows;

pub use kind::{Attr, ButtonKind, Email, Kind, Mode};
pub use row::Row;
pub use rows::dated::{DateRow, LocalRow, MonthRow, TimeRow, WeekRow};
pub use rows::line::{PasswordRow, SearchRow, TelRow, TextRow, UrlRow};
pub use rows::numeric::{ColorRow, NumberRow, RangeRow};
pub use rows::plain::{
    ButtonRow, CheckboxRow, FileRow, HiddenRow, ImageRow, RadioRow, ResetRow, SubmitRow,
};

/// Calls a function at the row type of a state: `with_state!(kind, f, (a, b))` is a `match` on
/// `kind`, in which each of the 21 arms is the call `f::<S>(a, b)`, S being that kind's row type.
/// Every function that asks by state is written with it.
///
/// `with_state!(@kinds)` is the array of the states of the same list.
#[macro_export]
macro_rules! with_state {
    (@kinds) => { $crate::with_state!(@states kinds ()) };
    // The one list of the states with their row types.
    (@states $rule:ident $rest:tt) => {
        $crate::with_state!(@$rule $rest
            Hidden HiddenRow,
            Text TextRow,
            Search SearchRow,
            Tel TelRow,
            Url UrlRow,
            Password PasswordRow,
            Date DateRow,
            Month MonthRow,
            Week WeekRow,
            Time TimeRow,
            Local LocalRow,
            Number NumberRow,
            Range RangeRow,
            Color ColorRow,
            Checkbox CheckboxRow,
            Radio RadioRow,
            File FileRow,
            Submit SubmitRow,
            Image ImageRow,
            Reset ResetRow,
            Button ButtonRow
        )
    };
    (@kinds () $($kind:ident $row:ident),*) => { [$($crate::Kind::$kind),*] };
    (@arms ($of:expr, $f:ident, $args:tt) $($kind:ident $row:ident),*) => {
        match $of { $($crate::Kind::$kind => $f::<$crate::$row>$args),* }
    };
    ($of:expr, $f:ident, $args:tt) => { $crate::with_state!(@states arms ($of, $f, $args)) };
}

fn row_keyword<R: Row>() -> &'static str
    ensures { result.now ≡ keyword_of R.KIND }
{
    R::word()
}

fn row_mode<R: Row>() -> Mode
    ensures { result ≡ R.MODE }
{
    R::MODE
}

fn row_scale<R: Row>() -> Option<i64>
    ensures { result ≡ R.SCALE }
{
    R::SCALE
}

fn row_default_step<R: Row>() -> Option<i64>
    ensures { result ≡ R.DEFAULT_STEP }
{
    R::DEFAULT_STEP
}

fn row_blocks<R: Row>() -> bool
    ensures { result ≡ R.BLOCKS }
{
    R::BLOCKS
}

fn row_applies<R: Row>(attr: Attr) -> bool
    ensures { result ≡ applies_to R.KIND attr }
{
    R::applies(attr)
}

/// The keyword that names the state.
fn keyword_of(kind: Kind) -> &'static str
    ensures { result.now ≡ keyword_of kind }
{
    with_state!(kind, row_keyword, ())
}

/// What the value of an input in that state is (HTML, "Common input element APIs", the modes of
/// `value`).
pub fn mode_of(kind: Kind) -> Mode
    ensures { result ≡ mode_of kind }
{
    with_state!(kind, row_mode, ())
}

/// The step scale factor: how many of the state's own units (milliseconds, months or 1) a step of
/// 1 is. None exactly where the state has no numbers.
pub fn scale(kind: Kind) -> Option<i64>
    ensures { result ≡ scale_of kind }
{
    with_state!(kind, row_scale, ())
}

/// The default step, before it is scaled. None exactly where the state has no numbers.
pub fn default_step(kind: Kind) -> Option<i64>
    ensures { result ≡ default_step_of kind }
{
    with_state!(kind, row_default_step, ())
}

/// Whether a field in that state blocks implicit submission beside another such field (HTML,
/// "Implicit submission").
pub fn blocks(kind: Kind) -> bool
    ensures { result ≡ blocks kind }
{
    with_state!(kind, row_blocks, ())
}

/// Whether the attribute applies to the state; one that does not is ignored.
pub fn applies(kind: Kind, attr: Attr) -> bool
    ensures { result ≡ applies_to kind attr }
{
    with_state!(kind, row_applies, (attr))
}
