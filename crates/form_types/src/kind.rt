//! The states, what their values are, and the attributes that apply to some of them only.
ghost use Rattle.std.specs.Prelude.{◌≡◌, option_map, IsErr, IfOk, IsTrue, ◌↔◌};
ghost use Rattle.std.specs.Str.{str_eq_ignore_ascii_case};
ghost use Rattle.form_types.specs.TypeTable.{names_email, kind_named, kind_in, type_table, button_kind_named, is_submit_button, is_button, has_periodic_domain, is_submit_kind};

use crate::{keyword_of, with_state};
use thiserror::Error;

/// The state of an input, which its `type` attribute names.
#[derive(Clone, Copy, Debug, PartialEq, Eq)]
pub enum Kind {
    Hidden,
    Text,
    Search,
    Tel,
    Url,
    Password,
    Date,
    Month,
    Week,
    Time,
    /// `datetime-local`.
    Local,
    Number,
    Range,
    Color,
    Checkbox,
    Radio,
    File,
    Submit,
    Image,
    Reset,
    Button,
}

/// The refusal of the keyword `email`, whose state this engine does not have.
#[derive(Clone, Copy, Debug, PartialEq, Eq, Error)]
#[error("the input state `email` is not supported")]
pub struct Email;

/// What the value of an input is (HTML, "Common input element APIs", the modes of `value`).
#[derive(Clone, Copy, Debug, PartialEq, Eq)]
pub enum Mode {
    Value,
    Default,
    DefaultOn,
    Filename,
}

/// An attribute that applies to some states only.
#[derive(Clone, Copy, Debug, PartialEq, Eq)]
pub enum Attr {
    Required,
    Readonly,
    Minlength,
    Maxlength,
    Pattern,
    Min,
    Max,
    Step,
    Multiple,
}

/// The kind of a button element, which its `type` attribute names.
#[derive(Clone, Copy, Debug, PartialEq, Eq)]
pub enum ButtonKind {
    Submit,
    Reset,
    Button,
}

impl Kind {
    /// The missing value default and the invalid value default of the attribute.
    const DEFAULT: Kind = Kind::Text;

    /// The state that a `type` attribute names, ASCII case-insensitively. A missing or unknown
    /// keyword gives Text, and `email` is refused.
    pub fn of(keyword: Option<&str>) -> Result<Kind, Email>
        ensures email { IsErr result ↔ IsTrue (names_email (option_map (λ k. k.now) keyword.entry)) }
        ensures named { IfOk result (λ k. k ≡ kind_named (option_map (λ k. k.now) keyword.entry)) }
    {
        let Some(keyword) = keyword else {
            return Ok(Kind::DEFAULT);
        };
        if is_keyword(keyword, "email") {
            return Err(Email);
        }
        Ok(kind_named(keyword))
    }

    /// Whether an input in that state is a submit button (HTML, "Categories").
    pub fn is_submit_button(self) -> bool
        ensures { result ≡ is_submit_button self }
    {
        matches!(self, Kind::Submit | Kind::Image)
    }

    /// Whether an input in that state is a button (HTML, "Categories").
    pub fn is_button(self) -> bool
        ensures { result ≡ is_button self }
    {
        matches!(
            self,
            Kind::Submit | Kind::Image | Kind::Reset | Kind::Button
        )
    }

    /// Whether the state has a periodic domain, so that its range may be reversed (HTML, "The min
    /// and max attributes"): time alone.
    pub fn has_periodic_domain(self) -> bool
        ensures { result ≡ has_periodic_domain self }
    {
        matches!(self, Kind::Time)
    }
}

fn is_keyword(text: &str, keyword: &str) -> bool
    ensures { result ≡ str_eq_ignore_ascii_case text.now keyword.now }
{
    text.eq_ignore_ascii_case(keyword)
}

/// The state of the first row of the table whose keyword this is, or else the default.
fn kind_named(keyword: &str) -> Kind
    ensures { result ≡ kind_in keyword.now type_table }
{
    for kind in with_state!(@kinds) {
        if is_keyword(keyword, keyword_of(kind)) {
            return kind;
        }
    }
    Kind::DEFAULT
}

impl ButtonKind {
    /// The kind of a button element, ASCII case-insensitively. A missing or unknown keyword gives
    /// Submit.
    pub fn of(keyword: Option<&str>) -> ButtonKind
        ensures { result ≡ button_kind_named (option_map (λ k. k.now) keyword.entry) }
    {
        let Some(keyword) = keyword else {
            return ButtonKind::Submit;
        };
        if is_keyword(keyword, "reset") {
            return ButtonKind::Reset;
        }
        if is_keyword(keyword, "button") {
            return ButtonKind::Button;
        }
        ButtonKind::Submit
    }

    /// Whether a button element of that kind is a submit button (HTML, "Categories"). Each button
    /// element is a button.
    pub fn is_submit_button(self) -> bool
        ensures { result ≡ is_submit_kind self }
    {
        matches!(self, ButtonKind::Submit)
    }
}
