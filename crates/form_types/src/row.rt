//! What a row type of the table of states says.
ghost use Rattle.std.specs.Prelude.{◌≡◌, ℤ, Bool, Option};
ghost use Rattle.form_types.specs.declared.kind.Kind.{Kind};
ghost use Rattle.form_types.specs.declared.kind.Mode.{Mode};
ghost use Rattle.form_types.specs.TypeTable.{keyword_of, applies_to};

use crate::kind::{Attr, Kind, Mode};

/// One row of the table of states. Each implementation is proved to agree with the row of its
/// kind in the definition.
pub trait Row {
    const KIND: Kind;

    /// The keyword of the `type` attribute.
    const KEYWORD: &'static str;

    const MODE: Mode;

    /// How many units of the state's numbers a step of 1 is; None where it has no numbers.
    const SCALE: Option<i64>;

    /// The step where no attribute gives one, before it is scaled.
    const DEFAULT_STEP: Option<i64>;

    /// Whether a second field in that state stops implicit submission.
    const BLOCKS: bool;

    ghost KIND: { Kind };

    ghost MODE: { Mode };

    ghost SCALE: { Option ℤ };

    ghost DEFAULT_STEP: { Option ℤ };

    ghost BLOCKS: { Bool };

    /// `KEYWORD` as a call, which contracts can speak of.
    fn word() -> &'static str
        ensures { result.now ≡ keyword_of KIND };

    /// Whether the attribute applies to the state.
    fn applies(attr: Attr) -> bool
        ensures { result ≡ applies_to KIND attr };
}
