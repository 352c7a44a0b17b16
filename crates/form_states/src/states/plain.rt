//! The states whose value is their `value` attribute or their files: `hidden`, `checkbox`, `radio`,
//! `file`, `submit`, `image`, `reset` and `button`. Their text stays, and they have no numbers.

#![tactic(auto, unfolding(form_types::specs::TypeTable::row_of))]

ghost use Rattle.std.proofs.Common.{refl};
ghost use Rattle.form_states.specs.States.{IsTextState};

use crate::text_state::TextState;
use form_types::{
    ButtonRow, CheckboxRow, FileRow, HiddenRow, ImageRow, RadioRow, ResetRow, Row, SubmitRow,
};
use std::alloc::{AllocError, Global};

/// A state that keeps each text as it is.
pub trait PlainState: Row {
    ghost plain: { IsTextState Self.KIND (λ t. t) };
}

impl<S: PlainState> TextState for S {
    ghost made = { λ t. t };

    fn made_of(alloc: Global, text: &str) -> Result<String, AllocError> {
        String::from_str(alloc, text)
    }

    ghost rules = { S.plain };

    ghost again = { λ _. refl };
}

impl PlainState for HiddenRow {
    ghost plain = { (λ _ _. refl, λ _. refl, λ _. refl, refl, refl, refl, refl) };
}

impl PlainState for CheckboxRow {
    ghost plain = { (λ _ _. refl, λ _. refl, λ _. refl, refl, refl, refl, refl) };
}

impl PlainState for RadioRow {
    ghost plain = { (λ _ _. refl, λ _. refl, λ _. refl, refl, refl, refl, refl) };
}

impl PlainState for FileRow {
    ghost plain = { (λ _ _. refl, λ _. refl, λ _. refl, refl, refl, refl, refl) };
}

impl PlainState for SubmitRow {
    ghost plain = { (λ _ _. refl, λ _. refl, λ _. refl, refl, refl, refl, refl) };
}

impl PlainState for ImageRow {
    ghost plain = { (λ _ _. refl, λ _. refl, λ _. refl, refl, refl, refl, refl) };
}

impl PlainState for ResetRow {
    ghost plain = { (λ _ _. refl, λ _. refl, λ _. refl, refl, refl, refl, refl) };
}

impl PlainState for ButtonRow {
    ghost plain = { (λ _ _. refl, λ _. refl, λ _. refl, refl, refl, refl, refl) };
}
