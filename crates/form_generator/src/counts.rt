// What is counted of the run over a generated page.
ghost use Rattle.std.specs.Prelude.{◌≡◌, ◌++◌, IfOk, OnOk, string_bytes};
ghost use Rattle.form_generator.specs.Counts.{count_line, counts_text};

use std::alloc::{AllocError, Global};

/// What is counted.
#[derive(Clone, Copy, Debug, PartialEq, Eq)]
pub struct Counts {
    /// The controls of the page.
    pub controls: u64,
    /// The commands on them.
    pub commands: u64,
    /// How many of the commands were refused.
    pub refused: u128,
    /// How many views changed, over all commands.
    pub changes: u128,
    /// How many candidates are invalid at the end.
    pub invalid: u64,
}

// Puts the line of a count behind the text so far.
fn push_count(text: &mut String, name: &str, count: u128) -> Result<(), AllocError>
    ensures { OnOk result (string_bytes text.new ≡ string_bytes text.old ++ count_line name.now count) }
{
    write!(text, "{} {}\n", name, count)
}

/// The five lines of the counts, each with its line feed.
#[tactic(auto, unfolding(crate::specs::Counts::counts_text))]
pub fn print_counts(alloc: Global, counts: &Counts) -> Result<String, AllocError>
    ensures { IfOk result (λ text. string_bytes text ≡ counts_text counts.now.controls
        counts.now.commands counts.now.refused counts.now.changes counts.now.invalid) }
{
    let mut text = String::new(alloc);
    push_count(&mut text, "controls", counts.controls as u128)?;
    push_count(&mut text, "commands", counts.commands as u128)?;
    push_count(&mut text, "refused", counts.refused)?;
    push_count(&mut text, "changes", counts.changes)?;
    push_count(&mut text, "invalid", counts.invalid as u128)?;
    Ok(text)
}
