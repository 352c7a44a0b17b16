//! The state `number`: a text that is no valid floating-point number becomes empty. Attributes are
//! read by the rules for parsing floating-point number values.

#![tactic(auto, unfolding(form_types::specs::TypeTable::row_of))]

ghost use Rattle.form_types.specs.declared.kind.Kind.{Kind};
ghost use Rattle.form_states.specs.States.{number_of};
ghost use Rattle.form_states.specs.NumberLaws.{text_back};
ghost use Rattle.form_states.specs.Laws.{kept_again};

use crate::input_state::InputState;
use crate::limits::{Defaults, Limits};
use crate::whole::{decimal_text, kept_if_number};
use form_decimal::{Decimal, read_valid};
use form_types::NumberRow;
use std::alloc::{AllocError, Global};

impl InputState for NumberRow {
    fn sanitise(alloc: Global, text: &str, _limits: &Limits) -> Result<String, AllocError> {
        kept_if_number(alloc, read_valid(text), text)
    }

    fn number(text: &str) -> Option<Decimal> {
        read_valid(text)
    }

    fn text_of(alloc: Global, n: Decimal) -> Result<Option<String>, AllocError> {
        decimal_text(alloc, n)
    }

    fn defaults() -> Defaults {
        Defaults::none(true)
    }

    ghost idempotent = { λ _ t _. kept_again (number_of Kind.Number) t };

    ghost reads_back = { text_back Kind.Number };
}
