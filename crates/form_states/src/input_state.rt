//! What one state does with texts and numbers.
ghost use Rattle.std.specs.Prelude.{◌≡◌, ℕ, ℤ, List, Some, option_map, IfOk, string_bytes};
ghost use Rattle.form_states.specs.declared.limits.Limits.{Limits};
ghost use Rattle.form_states.specs.States.{rules_of, number_of, text_for, sanitised};
ghost use Rattle.form_states.specs.Limits.{IsLimits, HasDecimals};

use crate::limits::{Defaults, Limits};
use form_decimal::Decimal;
use form_types::Row;
use std::alloc::{AllocError, Global};

/// One state of an input. Each call is proved to give what the definition says for its kind, and
/// each implementation proves two laws of that definition: sanitising what is sanitised changes
/// nothing, and a text that `text_of` gives reads back as its number.
pub trait InputState: Row {
    /// The text that the state's value sanitization algorithm makes of a text.
    fn sanitise(alloc: Global, text: &str, limits: &Limits) -> Result<String, AllocError>
        requires { IsLimits Self.KIND limits.now }
        ensures { IfOk result (λ s. string_bytes s ≡ sanitised Self.KIND limits.now text.now) };

    /// The number of the text, where it is a valid string of the state.
    fn number(text: &str) -> Option<Decimal>
        ensures { result ≡ number_of Self.KIND text.now };

    /// The text that stands for the number, where a valid string of the state has it.
    fn text_of(alloc: Global, n: Decimal) -> Result<Option<String>, AllocError>
        ensures { IfOk result (λ o. option_map string_bytes o ≡ text_for Self.KIND n) };

    /// What stands where no attribute gives a number.
    fn defaults() -> Defaults
        ensures lenient { result.lenient ≡ (rules_of Self.KIND).lenient }
        ensures min { result.min ≡ (rules_of Self.KIND).minimum }
        ensures max { result.max ≡ (rules_of Self.KIND).maximum }
        ensures base { result.base ≡ (rules_of Self.KIND).base };

    ghost idempotent: { (l : Limits) (t : List ℕ) → HasDecimals l
        → sanitised Self.KIND l (sanitised Self.KIND l t) ≡ sanitised Self.KIND l t };

    ghost reads_back: { (n : ℤ) (t : List ℕ) → text_for Self.KIND n ≡ Some t
        → number_of Self.KIND t ≡ Some n };
}
