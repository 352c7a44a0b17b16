// The words of the flags that hold.
ghost use Rattle.std.specs.Prelude.{◌≡◌, IfOk, OnOk, string_bytes};
ghost use Rattle.form_script.specs.Adding.{dashed, with_word, with_words};
ghost use Rattle.form_script.specs.Printed.{flag_table, flag_words};

use form_judge::Flags;
use std::alloc::{AllocError, Global};

/// The words of the flags that hold, separated by commas, or `-` where none holds (HTML, the members
/// of `ValidityState`).
pub fn flag_words(alloc: Global, flags: &Flags) -> Result<String, AllocError>
    ensures { IfOk result (λ words. string_bytes words ≡ flag_words flags.now) }
{
    let mut words = String::new(alloc);
    add_words(&mut words, flags)?;
    add_dash(&mut words)?;
    Ok(words)
}

fn add_words(words: &mut String, flags: &Flags) -> Result<(), AllocError>
    ensures { OnOk result (string_bytes words.new
        ≡ with_words (flag_table flags.now) (string_bytes words.old)) }
{
    add_word(words, flags.value_missing, "valueMissing")?;
    add_word(words, flags.type_mismatch, "typeMismatch")?;
    add_word(words, flags.pattern_mismatch, "patternMismatch")?;
    add_word(words, flags.too_long, "tooLong")?;
    add_word(words, flags.too_short, "tooShort")?;
    add_word(words, flags.range_underflow, "rangeUnderflow")?;
    add_word(words, flags.range_overflow, "rangeOverflow")?;
    add_word(words, flags.step_mismatch, "stepMismatch")?;
    add_word(words, flags.bad_input, "badInput")?;
    add_word(words, flags.custom_error, "customError")
}

// Puts the word of a flag behind the words before it, if the flag holds.
fn add_word(words: &mut String, holds: bool, word: &str) -> Result<(), AllocError>
    ensures { OnOk result (string_bytes words.new ≡ with_word holds word.now (string_bytes words.old)) }
{
    if !holds {
        return Ok(());
    }
    if words.is_empty() {
        return words.push_str(word);
    }
    words.push(',')?;
    words.push_str(word)
}

fn add_dash(words: &mut String) -> Result<(), AllocError>
    ensures { OnOk result (string_bytes words.new ≡ dashed (string_bytes words.old)) }
{
    if !words.is_empty() {
        return Ok(());
    }
    words.push('-')
}
