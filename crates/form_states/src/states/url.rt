//! The state `url`: line ends are removed, and then ASCII whitespace at both ends.

#![tactic(auto, unfolding(form_types::specs::TypeTable::row_of))]

ghost use Rattle.std.proofs.Common.{refl};
ghost use Rattle.form_text.specs.LineEnds.{without_newlines};
ghost use Rattle.form_text.specs.Whitespace.{stripped};
ghost use Rattle.form_states.specs.Laws.{url_again};

use crate::text_state::TextState;
use form_text::{strip_newlines, strip_whitespace};
use form_types::UrlRow;
use std::alloc::{AllocError, Global};

impl TextState for UrlRow {
    ghost made = { λ t. stripped (without_newlines t) };

    fn made_of(alloc: Global, text: &str) -> Result<String, AllocError> {
        let line = strip_newlines(alloc, text)?;
        String::from_str(alloc, strip_whitespace(line.as_str()))
    }

    ghost rules = { (λ _ _. refl, λ _. refl, λ _. refl, refl, refl, refl, refl) };

    ghost again = { url_again };
}
