ghost use Rattle.std.specs.Prelude.{◌≡◌};

/// What the rest of a page says of a control: whether it is disabled, whether its radio button group
/// lacks a required choice, and whether it is a select that lacks one; false where the control has
/// no group, and is no select.
#[derive(Clone, Copy, Debug, PartialEq, Eq)]
pub struct Facts {
    pub disabled: bool,
    pub group_missing: bool,
    pub select_missing: bool,
}

/// The ten ways in which a control can fail to satisfy its constraints (HTML, "The constraint
/// validation API", `ValidityState`).
#[derive(Clone, Copy, Debug, PartialEq, Eq)]
pub struct Flags {
    pub value_missing: bool,
    pub type_mismatch: bool,
    pub pattern_mismatch: bool,
    pub too_long: bool,
    pub too_short: bool,
    pub range_underflow: bool,
    pub range_overflow: bool,
    pub step_mismatch: bool,
    pub bad_input: bool,
    pub custom_error: bool,
}

impl Flags {
    ghost use Rattle.form_judge.specs.Flags.{has_some};

    /// Whether some flag holds, so that the control does not satisfy its constraints.
    pub fn has_some(self) -> bool
        ensures { result ≡ has_some self }
    {
        self.value_missing
            || self.type_mismatch
            || self.pattern_mismatch
            || self.too_long
            || self.too_short
            || self.range_underflow
            || self.range_overflow
            || self.step_mismatch
            || self.bad_input
            || self.custom_error
    }
}
