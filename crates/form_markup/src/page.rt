ghost use Rattle.std.specs.Prelude.{◌≡◌, ◌<◌, ℕ, List, [], Err, IfOk, IfErr, IsUtf8, length};
ghost use Rattle.form_markup.specs.declared.fault.PageFault.TheVariants.{Memory};
ghost use Rattle.form_tree.specs.declared.node.Raw.{Raw};
ghost use Rattle.form_tree.specs.declared.node.Tag.{Tag};
ghost use Rattle.form_tokens.specs.declared.fault.Fault.{Fault};
ghost use Rattle.form_markup.specs.Spelling.{GivesRaws, IsFault, IsPageFault, IsRead, Spells};
ghost use Rattle.form_tree.specs.Tree.{IsTreeOfRaws};
ghost use Rattle.form_markup.specs.Answer.{Answers, answer_of};
ghost use Rattle.form_markup.specs.Goes.{GoesTo, HaltsWith};
ghost use Rattle.form_markup.specs.Limits.{HoldsNoEmail, IsWithinLimits};
ghost use Rattle.form_tokens.specs.Readers.{Gives};
ghost use Rattle.form_markup.specs.Machine.{state_of};
ghost use Rattle.form_markup.specs.Turns.{tag_turn};

use crate::fault::fault_at;
use crate::machine::Machine;
use crate::raws::Raws;
use crate::reading::tag_of;
use crate::{MOST_ELEMENTS, PageFault};
use form_tokens::{Halt, Stop, after_byte, goes_on};
use form_tree::{Raw, Tag};
use std::alloc::Global;

// For an element in so many bytes of a page there is room before it is read.
const ELEMENT_SIZE: usize = 16;

// Takes the tag, comment or doctype at the front of the text, and gives what stands behind it.
#[tactic(auto, unfolding(crate::specs::Turns::tag_turn))]
fn take_tag<'a>(
    machine: &mut Machine<'a>,
    alloc: Global,
    around: &[Tag],
    text: &'a str,
) -> Result<&'a str, Stop>
    ensures turn { Gives (λ rest. (state_of machine.new, rest.now)) result
        (tag_turn around.now (state_of machine.old) text.now) }
    ensures utf8 { IfOk result (λ rest. IsUtf8 rest.now) }
{
    let rest = after_byte(text, b'<')?;
    match tag_of(alloc, rest) {
        Ok((piece, rest)) => {
            if let Some(fault) = machine.fault_of(around, &piece) {
                return Err(Stop::At(fault));
            }
            machine.take(alloc, piece)?;
            Ok(rest)
        }
        Err(stop) => Err(stop),
    }
}

// Takes the tag or all characters at the front of the text, and gives what stands behind them.
fn advance<'a>(
    machine: &mut Machine<'a>,
    alloc: Global,
    around: &[Tag],
    text: &'a str,
) -> Result<&'a str, Halt>
    requires { 0 < length text.now }
    ensures goes { IfOk result (λ rest.
        GoesTo around.now (state_of machine.old) text.now (state_of machine.new) rest.now) }
    ensures utf8 { IfOk result (λ rest. IsUtf8 rest.now) }
    ensures halts { IfErr result (λ halt. HaltsWith around.now (state_of machine.old) text.now halt) }
{
    let context = machine.context();
    if goes_on(context, text) {
        return machine.add_text(alloc, context, text);
    }
    match take_tag(machine, alloc, around, text) {
        Ok(rest) => Ok(rest),
        Err(stop) => Err(Halt {
            stop,
            left: text.len(),
        }),
    }
}

fn read_raws(alloc: Global, text: &str, around: &[Tag]) -> Result<Raws, PageFault>
    ensures { Answers (λ raws. raws) (answer_of around.now text.now) result }
{
    let mut machine = Machine::new(alloc, usize::min(MOST_ELEMENTS, text.len() / ELEMENT_SIZE));
    let mut rest = text;
    'pieces: while !rest.is_empty() {
        match advance(&mut machine, alloc, around, rest) {
            Ok(after) => {
                rest = after;
            }
            Err(halt) => {
                return Err(fault_at(halt.stop, text.len().saturating_sub(halt.left)));
            }
        }
    }
    let Machine { stack, raws } = machine;
    if stack.len() > 0 {
        return Err(PageFault::Nesting(text.len()));
    }
    Ok(raws)
}

/// The elements that a text spells inside open elements, whose tags are given from the top; else the
/// first fault of the text. Nothing in the text ends an element round it.
pub fn read_in(alloc: Global, text: &str, around: &[Tag]) -> Result<Vec<Raw>, PageFault>
    // What is read is spelled so.
    ensures found { IfOk result (λ raws. Spells around.now text.now raws.items) }
    // What is spelled so is read, unless memory runs out.
    ensures only { (raws : List Raw) → Spells around.now text.now raws
        → GivesRaws (λ v. v.items) raws result }
    // A fault is the first from the left.
    ensures fault { IfErr result (λ fault. IsPageFault around.now text.now fault) }
    // The one answer that crates above cite.
    ensures value { Answers (λ v. v.items) (answer_of around.now text.now) result }
    // The elements are those of a tree, within the limits, and hold no input of the type `email`.
    ensures tree { IfOk result (λ raws. IsTreeOfRaws raws.items) }
    ensures limits { IfOk result (λ raws. IsWithinLimits around.now raws.items) }
    ensures email { IfOk result (λ raws. HoldsNoEmail raws.items) }
{
    match read_raws(alloc, text, around) {
        Ok(raws) => Ok(raws.into_vec()),
        Err(fault) => Err(fault),
    }
}

/// The elements of a page, in tree order; else its first fault. The line ends of the text are LF.
pub fn read(alloc: Global, text: &str) -> Result<Vec<Raw>, PageFault>
    ensures found { IfOk result (λ raws. Spells [] text.now raws.items) }
    ensures only { (raws : List Raw) → Spells [] text.now raws
        → GivesRaws (λ v. v.items) raws result }
    ensures fault { IfErr result (λ fault. IsPageFault [] text.now fault) }
    ensures value { Answers (λ v. v.items) (answer_of [] text.now) result }
    ensures tree { IfOk result (λ raws. IsTreeOfRaws raws.items) }
    ensures limits { IfOk result (λ raws. IsWithinLimits [] raws.items) }
    ensures email { IfOk result (λ raws. HoldsNoEmail raws.items) }
{
    read_in(alloc, text, &[])
}

/// A law: a text spells one list at most, or has one fault, and not both; its answer is the one or the
/// other, and never that memory was refused.
pub fn one_answer()
    ensures list { (around : List Tag) (text : List ℕ) (xs ys : List Raw)
        → Spells around text xs → Spells around text ys → xs ≡ ys }
    ensures fault { (around : List Tag) (text : List ℕ) (kind other : Fault) (place there : ℕ)
        → IsFault around text kind place → IsFault around text other there → (kind ≡ other) × (place ≡ there) }
    ensures apart { (around : List Tag) (text : List ℕ) (raws : List Raw) (kind : Fault) (place : ℕ)
        → Spells around text raws → IsFault around text kind place → ⊥ }
    ensures answer { (around : List Tag) (text : List ℕ)
        → IsRead around text (answer_of around text) }
    ensures never { (around : List Tag) (text : List ℕ)
        → answer_of around text ≡ Err Memory → ⊥ }
{}
