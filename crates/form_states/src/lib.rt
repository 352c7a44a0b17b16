//! What each state of an input does with texts and numbers: how a text is sanitised, which number
//! it has, which text stands for a number, and which limits the attributes give (HTML, "The input
//! element").
//!
//! Each state's rules stand in one file of `src/states`, as an implementation of [`InputState`]
//! for the state's row type; states of one form share a file. A state without numbers implements
//! `TextState`, and one that keeps each text `PlainState`: the rest follows. The definitions are
//! `specs/States`, `specs/Numbers`, `specs/Limits`, `specs/Range` and `specs/Sanitised`. A number
//! counts units of 10^-12, and so does a step.
//!
//! [`sanitise`], [`number`] and [`text_of`] answer by two clauses each: by the rule, a relation
//! (`IsSanitised`, `HasNumber`), and by a function of the same meaning, on which the crates above
//! build (`sanitised`, `number_of`, `text_for`). Laws join the two: `sanitised_is`, `number_found`,
//! `number_again`. The rule of range goes over the set of all candidates.
#![tactic(auto)]

ghost use Rattle.std.specs.Prelude.{◌≡◌, ◌↔◌, ℕ, ℤ, List, IfOk, IfSome, IsSome, Some, string_bytes, option_map};
ghost use Rattle.form_states.specs.States.{HasNumber, IsTextFor, number_of, text_for, IsSanitised, sanitised};
ghost use Rattle.form_states.specs.Limits.{IsLimits};

mod input_state;
mod limits;
mod states;
mod text_state;
mod whole;

use form_decimal::Decimal;
use form_types::{Kind, with_state};
pub use input_state::InputState;
pub use limits::Limits;
use std::alloc::{AllocError, Global};

fn state_sanitise<S: InputState>(
    alloc: Global,
    limits: &Limits,
    text: &str,
) -> Result<String, AllocError>
    requires { IsLimits S.KIND limits.now }
    ensures rule { IfOk result (λ s. IsSanitised S.KIND limits.now text.now (string_bytes s)) }
    ensures value { IfOk result (λ s. string_bytes s ≡ sanitised S.KIND limits.now text.now) }
{
    limits.decimals();
    S::sanitise(alloc, text, limits)
}

fn state_number<S: InputState>(text: &str) -> Option<Decimal>
    ensures found { IfSome result (HasNumber S.KIND text.now) }
    ensures only { (n : ℤ) → HasNumber S.KIND text.now n → result ≡ Some n }
    ensures value { result ≡ number_of S.KIND text.now }
{
    S::number(text)
}

fn state_text_of<S: InputState>(alloc: Global, n: Decimal) -> Result<Option<String>, AllocError>
    ensures text { IfOk result (λ o. IfSome o (λ s. IsTextFor S.KIND (string_bytes s) n)) }
    ensures some { IfOk result (λ o. IsSome o ↔ ((text : List ℕ) × HasNumber S.KIND text n)) }
    ensures value { IfOk result (λ o. option_map string_bytes o ≡ text_for S.KIND n) }
{
    S::text_of(alloc, n)
}

/// The text that the state's value sanitization algorithm makes of a text.
pub fn sanitise(
    alloc: Global,
    kind: Kind,
    limits: &Limits,
    text: &str,
) -> Result<String, AllocError>
    requires { IsLimits kind limits.now }
    ensures rule { IfOk result (λ s. IsSanitised kind limits.now text.now (string_bytes s)) }
    ensures value { IfOk result (λ s. string_bytes s ≡ sanitised kind limits.now text.now) }
{
    with_state!(kind, state_sanitise, (alloc, limits, text))
}

/// The number of the text in that state. None exactly where the state has no numbers or the text
/// is no valid string of the state.
#[tactic(auto, using(crate::specs::NumberLaws::number_again))]
pub fn number(kind: Kind, text: &str) -> Option<Decimal>
    ensures found { IfSome result (HasNumber kind text.now) }
    ensures only { (n : ℤ) → HasNumber kind text.now n → result ≡ Some n }
    ensures value { result ≡ number_of kind text.now }
{
    with_state!(kind, state_number, (text))
}

/// The text that stands for the number in that state: the printed form in number and range, and
/// the shortest valid string in the date and time states. None exactly where no valid string of
/// the state has that number.
pub fn text_of(alloc: Global, kind: Kind, n: Decimal) -> Result<Option<String>, AllocError>
    ensures text { IfOk result (λ o. IfSome o (λ s. IsTextFor kind (string_bytes s) n)) }
    ensures some { IfOk result (λ o. IsSome o ↔ ((text : List ℕ) × HasNumber kind text n)) }
    ensures value { IfOk result (λ o. option_map string_bytes o ≡ text_for kind n) }
{
    with_state!(kind, state_text_of, (alloc, n))
}
