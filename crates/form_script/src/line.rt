// A line, read without memory.
ghost use Rattle.std.specs.Prelude.{◌≡◌, is_some, option_and_then, true, IfSome};
ghost use Rattle.form_script.specs.LineReading.{command_of, parts_of};
ghost use Rattle.form_script.specs.Spelled.{command_in};
ghost use Rattle.form_script.specs.declared.verb.Verb.TheVariants as verbs;

use crate::lists::{are_boundaries, are_positives};
use crate::literal::inside_of;
use crate::reading::cut;
use crate::verb::{KeyVerb, MarkVerb, TextVerb, Verb, verb_of};
use crate::words::{is_name, key_of, mark_of, number_of, positive_of};
use form_tree::Key;

// The most bytes of a line, without its end.
const LONGEST_LINE: usize = 1_048_576;

/// What a line spells, its texts still as they are spelled: a text without its quotes, a name in its
/// letter case, numbers and boundaries with the spaces between them.
#[derive(Clone, Copy)]
pub enum Spelled<'a> {
    Key(KeyVerb, Key),
    Text(TextVerb, Key, &'a str),
    Mark(MarkVerb, Key, bool),
    Attr(Key, &'a str, &'a str),
    Unattr(Key, &'a str),
    Choose(Key),
    ChooseFiles(Key, &'a str),
    Withdraw(u32),
    ClickAt(Key, u32, u32),
    RequestSubmit(Key, Option<Key>),
    Boundary(&'a str),
}

/// What a line spells; it takes no memory.
#[tactic(auto, unfolding(crate::specs::LineReading::command_of))]
pub fn read_line(line: &str) -> Option<Spelled<'_>>
    ensures value { option_and_then command_in result ≡ command_of line.now }
    ensures some { IfSome result (λ spelled. is_some (command_in spelled) ≡ true) }
{
    if line.len() > LONGEST_LINE {
        return None;
    }
    let (word, parts) = cut(line, ' ')?;
    let verb = verb_of(word)?;
    spelled_by(verb, parts)
}

fn spelled_by(verb: Verb, parts: &str) -> Option<Spelled<'_>>
    ensures value { option_and_then command_in result ≡ parts_of verb parts.now }
    ensures some { IfSome result (λ spelled. is_some (command_in spelled) ≡ true) }
{
    match verb {
        Verb::Key(verb) => key_line(verb, parts),
        Verb::Text(verb) => text_line(verb, parts),
        Verb::Mark(verb) => mark_line(verb, parts),
        Verb::Attr => attr_line(parts),
        Verb::Unattr => unattr_line(parts),
        Verb::Choose => choose_line(parts),
        Verb::Withdraw => withdraw_line(parts),
        Verb::ClickAt => click_at_line(parts),
        Verb::RequestSubmit => request_submit_line(parts),
        Verb::Boundary => boundary_line(parts),
    }
}

fn key_line(verb: KeyVerb, parts: &str) -> Option<Spelled<'_>>
    ensures value { option_and_then command_in result ≡ parts_of (verbs.Key verb) parts.now }
    ensures some { IfSome result (λ spelled. is_some (command_in spelled) ≡ true) }
{
    let key = key_of(parts)?;
    Some(Spelled::Key(verb, key))
}

fn text_line(verb: TextVerb, parts: &str) -> Option<Spelled<'_>>
    ensures value { option_and_then command_in result ≡ parts_of (verbs.Text verb) parts.now }
    ensures some { IfSome result (λ spelled. is_some (command_in spelled) ≡ true) }
{
    let (key, literal) = cut(parts, ' ')?;
    let key = key_of(key)?;
    let inside = inside_of(literal)?;
    Some(Spelled::Text(verb, key, inside))
}

fn mark_line(verb: MarkVerb, parts: &str) -> Option<Spelled<'_>>
    ensures value { option_and_then command_in result ≡ parts_of (verbs.Mark verb) parts.now }
    ensures some { IfSome result (λ spelled. is_some (command_in spelled) ≡ true) }
{
    let (key, mark) = cut(parts, ' ')?;
    let key = key_of(key)?;
    let mark = mark_of(mark)?;
    Some(Spelled::Mark(verb, key, mark))
}

#[tactic(auto, unfolding(crate::specs::Reading::name_of))]
fn attr_line(parts: &str) -> Option<Spelled<'_>>
    ensures value { option_and_then command_in result ≡ parts_of verbs.Attr parts.now }
    ensures some { IfSome result (λ spelled. is_some (command_in spelled) ≡ true) }
{
    let (key, attribute) = cut(parts, ' ')?;
    let key = key_of(key)?;
    let (name, literal) = cut(attribute, ' ')?;
    if !is_name(name) {
        return None;
    }
    let inside = inside_of(literal)?;
    Some(Spelled::Attr(key, name, inside))
}

#[tactic(auto, unfolding(crate::specs::Reading::name_of))]
fn unattr_line(parts: &str) -> Option<Spelled<'_>>
    ensures value { option_and_then command_in result ≡ parts_of verbs.Unattr parts.now }
    ensures some { IfSome result (λ spelled. is_some (command_in spelled) ≡ true) }
{
    let (key, name) = cut(parts, ' ')?;
    let key = key_of(key)?;
    if !is_name(name) {
        return None;
    }
    Some(Spelled::Unattr(key, name))
}

fn choose_line(parts: &str) -> Option<Spelled<'_>>
    ensures value { option_and_then command_in result ≡ parts_of verbs.Choose parts.now }
    ensures some { IfSome result (λ spelled. is_some (command_in spelled) ≡ true) }
{
    let Some((key, files)) = cut(parts, ' ') else {
        let key = key_of(parts)?;
        return Some(Spelled::Choose(key));
    };
    let key = key_of(key)?;
    if !are_positives(files) {
        return None;
    }
    Some(Spelled::ChooseFiles(key, files))
}

fn withdraw_line(parts: &str) -> Option<Spelled<'_>>
    ensures value { option_and_then command_in result ≡ parts_of verbs.Withdraw parts.now }
    ensures some { IfSome result (λ spelled. is_some (command_in spelled) ≡ true) }
{
    let file = positive_of(parts)?;
    Some(Spelled::Withdraw(file))
}

fn click_at_line(parts: &str) -> Option<Spelled<'_>>
    ensures value { option_and_then command_in result ≡ parts_of verbs.ClickAt parts.now }
    ensures some { IfSome result (λ spelled. is_some (command_in spelled) ≡ true) }
{
    let (key, place) = cut(parts, ' ')?;
    let key = key_of(key)?;
    let (x, y) = cut(place, ' ')?;
    let x = number_of(x)?;
    let y = number_of(y)?;
    Some(Spelled::ClickAt(key, x, y))
}

fn request_submit_line(parts: &str) -> Option<Spelled<'_>>
    ensures value { option_and_then command_in result ≡ parts_of verbs.RequestSubmit parts.now }
    ensures some { IfSome result (λ spelled. is_some (command_in spelled) ≡ true) }
{
    let Some((form, submitter)) = cut(parts, ' ') else {
        let form = key_of(parts)?;
        return Some(Spelled::RequestSubmit(form, None));
    };
    let form = key_of(form)?;
    let submitter = key_of(submitter)?;
    Some(Spelled::RequestSubmit(form, Some(submitter)))
}

fn boundary_line(parts: &str) -> Option<Spelled<'_>>
    ensures value { option_and_then command_in result ≡ parts_of verbs.Boundary parts.now }
    ensures some { IfSome result (λ spelled. is_some (command_in spelled) ≡ true) }
{
    if !are_boundaries(parts) {
        return None;
    }
    Some(Spelled::Boundary(parts))
}
