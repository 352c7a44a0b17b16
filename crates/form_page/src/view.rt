// What is seen of an element, lent.
ghost use Rattle.std.specs.Prelude.{◌≡◌};
ghost use Rattle.form_page.specs.Lent.{seen_in};
ghost use Rattle.form_page.specs.Views.{no_flags, view_by};

use crate::sight::Sight;
use form_judge::Flags;

/// What is seen of a submittable element or an option: its value; its checkedness, which is false
/// unless it is a checkbox or a radio button; its selectedness, which is false unless it is an
/// option; whether it is a candidate for constraint validation; its flags. An option is no candidate
/// and has no flag.
#[derive(Clone, Copy, Debug)]
pub struct View<'a> {
    pub value: &'a str,
    pub checked: bool,
    pub selected: bool,
    pub candidate: bool,
    pub flags: Flags,
}

/// What is kept of an element as it is seen.
pub fn view_by(sight: &Sight) -> View<'_>
    ensures { seen_in result ≡ view_by sight.now }
{
    let flags = match &sight.verdict {
        Some(verdict) => verdict.flags(),
        None => no_flags(),
    };
    View {
        value: sight.value.as_str(),
        checked: sight.checked,
        selected: sight.selected,
        candidate: sight.candidate,
        flags,
    }
}

// The flags of an option: none holds.
fn no_flags() -> Flags
    ensures { result ≡ no_flags }
{
    Flags {
        value_missing: false,
        type_mismatch: false,
        pattern_mismatch: false,
        too_long: false,
        too_short: false,
        range_underflow: false,
        range_overflow: false,
        step_mismatch: false,
        bad_input: false,
        custom_error: false,
    }
}
