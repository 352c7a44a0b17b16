//! The states of one line of text: `text`, `search`, `tel` and `password`. Line ends are removed.

#![tactic(auto, unfolding(form_types::specs::TypeTable::row_of))]

ghost use Rattle.std.proofs.Common.{refl};
ghost use Rattle.form_text.specs.LineEnds.{without_newlines};
ghost use Rattle.form_text.proofs.Laws.{without_newlines_again};

use crate::text_state::TextState;
use form_text::strip_newlines;
use form_types::{PasswordRow, SearchRow, TelRow, TextRow};
use std::alloc::{AllocError, Global};

impl TextState for TextRow {
    ghost made = { without_newlines };

    fn made_of(alloc: Global, text: &str) -> Result<String, AllocError> {
        strip_newlines(alloc, text)
    }

    ghost rules = { (λ _ _. refl, λ _. refl, λ _. refl, refl, refl, refl, refl) };

    ghost again = { without_newlines_again };
}

impl TextState for SearchRow {
    ghost made = { without_newlines };

    fn made_of(alloc: Global, text: &str) -> Result<String, AllocError> {
        strip_newlines(alloc, text)
    }

    ghost rules = { (λ _ _. refl, λ _. refl, λ _. refl, refl, refl, refl, refl) };

    ghost again = { without_newlines_again };
}

impl TextState for TelRow {
    ghost made = { without_newlines };

    fn made_of(alloc: Global, text: &str) -> Result<String, AllocError> {
        strip_newlines(alloc, text)
    }

    ghost rules = { (λ _ _. refl, λ _. refl, λ _. refl, refl, refl, refl, refl) };

    ghost again = { without_newlines_again };
}

impl TextState for PasswordRow {
    ghost made = { without_newlines };

    fn made_of(alloc: Global, text: &str) -> Result<String, AllocError> {
        strip_newlines(alloc, text)
    }

    ghost rules = { (λ _ _. refl, λ _. refl, λ _. refl, refl, refl, refl, refl) };

    ghost again = { without_newlines_again };
}
