//! The state `color`: `#` and six hexadecimal digits in lower case, and for another text `#000000`.

#![tactic(auto, unfolding(form_types::specs::TypeTable::row_of))]

ghost use Rattle.std.proofs.Common.{refl};
ghost use Rattle.std.specs.Prelude.{◌≡◌, IfOk, string_bytes};
ghost use Rattle.std.specs.List.{list_all};
ghost use Rattle.std.specs.Char.{is_ascii_hexdigit};
ghost use Rattle.form_states.specs.Sanitised.{is_simple_color, color_sanitised};
ghost use Rattle.form_states.specs.Laws.{color_again};

use crate::text_state::TextState;
use form_types::ColorRow;
use std::alloc::{AllocError, Global};

impl TextState for ColorRow {
    ghost made = { color_sanitised };

    fn made_of(alloc: Global, text: &str) -> Result<String, AllocError> {
        lower_case_or_black(alloc, text)
    }

    ghost rules = { (λ _ _. refl, λ _. refl, λ _. refl, refl, refl, refl, refl) };

    ghost again = { color_again };
}

fn lower_case_or_black(alloc: Global, text: &str) -> Result<String, AllocError>
    ensures { IfOk result (λ s. string_bytes s ≡ color_sanitised text.now) }
{
    if !is_simple_color(text.as_bytes()) {
        return String::from_str(alloc, "#000000");
    }
    let mut lower = String::from_str(alloc, text)?;
    lower.make_ascii_lowercase();
    Ok(lower)
}

fn is_simple_color(text: &[u8]) -> bool
    ensures { result ≡ is_simple_color text.now }
{
    match text {
        [first, rest @ ..] => { *first == b'#' && rest.len() == 6 && all_hex(rest) }
        [] => false,
    }
}

fn all_hex(text: &[u8]) -> bool
    ensures { result ≡ list_all is_ascii_hexdigit text.now }
{
    text.iter().all(|b| b.is_ascii_hexdigit())
}
