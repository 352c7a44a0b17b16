//! The states without numbers: such a state says what it makes of a text, and the rest is the same
//! in each.
ghost use Rattle.std.specs.Prelude.{◌≡◌, ℕ, List, IfOk, string_bytes};
ghost use Rattle.form_states.specs.States.{IsTextState};
ghost use Rattle.form_states.specs.Laws.{text_again, text_reads_back};

use crate::input_state::InputState;
use crate::limits::{Defaults, Limits};
use form_decimal::Decimal;
use form_types::Row;
use std::alloc::{AllocError, Global};

/// A state without numbers, and without limits of its own.
pub trait TextState: Row {
    ghost made: { List ℕ → List ℕ };

    /// The text that the state makes of a text.
    fn made_of(alloc: Global, text: &str) -> Result<String, AllocError>
        ensures { IfOk result (λ s. string_bytes s ≡ made text.now) };

    ghost rules: { IsTextState Self.KIND made };

    ghost again: { (t : List ℕ) → made (made t) ≡ made t };
}

impl<S: TextState> InputState for S {
    fn sanitise(alloc: Global, text: &str, _limits: &Limits) -> Result<String, AllocError> {
        S::made_of(alloc, text)
    }

    fn number(_text: &str) -> Option<Decimal> {
        None
    }

    fn text_of(_alloc: Global, _n: Decimal) -> Result<Option<String>, AllocError> {
        Ok(None)
    }

    fn defaults() -> Defaults {
        Defaults::none(false)
    }

    ghost idempotent = { λ l t _. text_again S.KIND S.made S.rules S.again l t };

    ghost reads_back = { λ n t h. text_reads_back S.KIND S.made S.rules n t h };
}
