// A line and its command.
ghost use Rattle.std.specs.Prelude.{◌≡◌, Err, IfOk, Some};
ghost use Rattle.form_script.specs.Gives.{Gives};
ghost use Rattle.form_script.specs.Lines.{Spells, key_command, mark_command, text_command};
ghost use Rattle.form_script.specs.Spelled.{attr_in, command_in, unattr_in};
ghost use Rattle.form_changes.specs.declared.act.Act.TheVariants as acts;
ghost use Rattle.form_script.specs.declared.command.Command.TheVariants as commands;
ghost use Rattle.form_script.specs.declared.fault.LineFault.TheVariants.{Syntax};

use crate::command::Command;
use crate::fault::LineFault;
use crate::line::{Spelled, read_line};
use crate::lists::{boundaries_of, positives_of};
use crate::literal::text_of;
use crate::verb::{KeyVerb, MarkVerb, TextVerb};
use form_changes::Act;
use form_text::{Sequence, Text};
use form_tree::Key;
use std::alloc::Global;

/// The command that a line spells, which stands without its end. A line that spells none is refused
/// without memory.
pub fn parse_line(alloc: Global, line: &str) -> Result<Command, LineFault>
    ensures ok { IfOk result (λ command. Spells line.now command) }
    ensures syntax { result ≡ Err Syntax → (command : Command) → ¬ (Spells line.now command) }
    ensures refused { ((command : Command) → ¬ (Spells line.now command)) → result ≡ Err Syntax }
{
    match read_line(line) {
        Some(spelled) => command_of(alloc, spelled),
        None => Err(LineFault::Syntax),
    }
}

fn command_of(alloc: Global, spelled: Spelled<'_>) -> Result<Command, LineFault>
    ensures { Gives (λ command. command) result (command_in spelled.entry) }
{
    match spelled {
        Spelled::Key(verb, key) => Ok(key_command(verb, key)),
        Spelled::Text(verb, key, inside) => {
            let text = text_of(alloc, inside)?;
            Ok(text_command(verb, key, text))
        }
        Spelled::Mark(verb, key, mark) => Ok(mark_command(verb, key, mark)),
        Spelled::Attr(key, name, inside) => attr_command(alloc, key, name, inside),
        Spelled::Unattr(key, name) => unattr_command(alloc, key, name),
        Spelled::Choose(key) => Ok(choose_command(key, Sequence::new(alloc))),
        Spelled::ChooseFiles(key, numbers) => {
            let files = positives_of(alloc, numbers)?;
            Ok(choose_command(key, files))
        }
        Spelled::Withdraw(file) => Ok(Command::Act(Act::Withdraw { file })),
        Spelled::ClickAt(key, x, y) => Ok(Command::ClickAt(key, x, y)),
        Spelled::RequestSubmit(form, submitter) => Ok(Command::RequestSubmit(form, submitter)),
        Spelled::Boundary(literals) => {
            let boundaries = boundaries_of(alloc, literals)?;
            Ok(Command::Boundary(boundaries))
        }
    }
}

fn key_command(verb: KeyVerb, key: Key) -> Command
    ensures { result ≡ key_command verb key }
{
    match verb {
        KeyVerb::Check => Command::Act(Act::Check { key, on: true }),
        KeyVerb::Uncheck => Command::Act(Act::Check { key, on: false }),
        KeyVerb::Pick => Command::Act(Act::Pick { key }),
        KeyVerb::Reset => Command::Act(Act::Reset { key }),
        KeyVerb::Click => Command::Click(key),
        KeyVerb::Enter => Command::Enter(key),
        KeyVerb::Submit => Command::Submit(key),
        KeyVerb::Show => Command::Show(key),
    }
}

fn text_command(verb: TextVerb, key: Key, text: Text) -> Command
    ensures { result ≡ text_command verb key text }
{
    match verb {
        TextVerb::User => Command::Act(Act::User { key, text }),
        TextVerb::Set => Command::Act(Act::Set { key, text }),
        TextVerb::Text => Command::Act(Act::Text { key, text }),
        TextVerb::Custom => Command::Act(Act::Custom { key, text }),
    }
}

fn mark_command(verb: MarkVerb, key: Key, on: bool) -> Command
    ensures { result ≡ mark_command verb key on }
{
    match verb {
        MarkVerb::SetChecked => Command::Act(Act::SetChecked { key, on }),
        MarkVerb::SetSelected => Command::Act(Act::SetSelected { key, on }),
    }
}

fn attr_command(alloc: Global, key: Key, name: &str, inside: &str) -> Result<Command, LineFault>
    ensures { Gives (λ command. command) result (attr_in key name.now inside.now) }
{
    let text = text_of(alloc, inside)?;
    let name = Text::from_string(name.to_ascii_lowercase(alloc)?);
    Ok(Command::Act(Act::Attr {
        key,
        name,
        value: Some(text),
    }))
}

fn unattr_command(alloc: Global, key: Key, name: &str) -> Result<Command, LineFault>
    ensures { Gives (λ command. command) result (Some (unattr_in key name.now)) }
{
    let name = Text::from_string(name.to_ascii_lowercase(alloc)?);
    Ok(Command::Act(Act::Attr {
        key,
        name,
        value: None,
    }))
}

fn choose_command(key: Key, files: Sequence<u32>) -> Command
    ensures { result ≡ commands.Act (acts.Choose key files) }
{
    Command::Act(Act::Choose { key, files })
}
