//! The state `datetime-local`: milliseconds from 1970-01-01T00:00, in no time zone. A valid text is
//! normalised: a `T` before the time, and the shortest time. Another text becomes empty.

#![tactic(auto, unfolding(form_types::specs::TypeTable::row_of))]

ghost use Rattle.std.specs.Prelude.{◌≡◌, IfOk, string_bytes};
ghost use Rattle.form_types.specs.declared.kind.Kind.{Kind};
ghost use Rattle.form_states.specs.Sanitised.{local_sanitised};
ghost use Rattle.form_states.specs.NumberLaws.{text_back};
ghost use Rattle.form_states.specs.Laws.{local_again};

use crate::input_state::InputState;
use crate::limits::{Defaults, Limits};
use crate::whole::{in_units, whole_of};
use form_calendar::{print_local, read_local};
use form_decimal::Decimal;
use form_types::LocalRow;
use std::alloc::{AllocError, Global};

impl InputState for LocalRow {
    fn sanitise(alloc: Global, text: &str, _limits: &Limits) -> Result<String, AllocError> {
        normalised(alloc, text)
    }

    fn number(text: &str) -> Option<Decimal> {
        in_units(read_local(text))
    }

    fn text_of(alloc: Global, n: Decimal) -> Result<Option<String>, AllocError> {
        let Some(n) = whole_of(n) else {
            return Ok(None);
        };
        print_local(alloc, n)
    }

    fn defaults() -> Defaults {
        Defaults::none(false)
    }

    ghost idempotent = { λ _ t _. local_again t };

    ghost reads_back = { text_back Kind.Local };
}

fn normalised(alloc: Global, text: &str) -> Result<String, AllocError>
    ensures { IfOk result (λ s. string_bytes s ≡ local_sanitised text.now) }
{
    let Some(n) = read_local(text) else {
        return Ok(String::new(alloc));
    };
    match print_local(alloc, n)? {
        Some(normalised) => Ok(normalised),
        None => Ok(String::new(alloc)),
    }
}
