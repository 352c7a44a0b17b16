// What a run keeps from line to line.
ghost use Rattle.std.specs.Prelude.{◌≡◌, ◌≤◌, [], ◌∷◌, IfErr, IfOk, IfSome, OnErr, OnOk, All, Err, None, Some, length, map, string_bytes, true};
ghost use Rattle.url.specs.Parts.{Parts};
ghost use Rattle.form_encode.specs.Boundaries.{longest_boundary};
ghost use Rattle.form_ports.specs.Shelf.{NoneFell, contents_of, numbers_of};
ghost use Rattle.form_page.specs.Views.{changes};
ghost use Rattle.form_changes.specs.declared.act.ActFault.{ActFault};
ghost use Rattle.form_acts.specs.Acts.{outcome};
ghost use Rattle.form_acts.specs.Refusals.{IsCause, refusal_of};
ghost use Rattle.form_acts.specs.Soundness.{IsOpenable, IsSound};
ghost use Rattle.form_submit.specs.Outcome.{IfRequest};
ghost use Rattle.form_submit.specs.PrintedRequest.{IsSendable};
ghost use Rattle.form_submit.specs.declared.outcome.SubmitFault.TheVariants as submit_faults;
ghost use Rattle.form_script.specs.LineReading.{command_of};
ghost use Rattle.form_run.specs.declared.asked.Asked.TheVariants as asks;
ghost use Rattle.form_run.specs.Chosen.{OthersStay, named_in};
ghost use Rattle.form_run.specs.Endings.{AreFiles, SomeFileRose};
ghost use Rattle.form_run.specs.Replies.{IsSubmitted};
ghost use Rattle.form_run.specs.Session as sessions;
ghost use Rattle.form_run.specs.Session.{HasShortBoundaries, asked_in, is_no_command, opened};

use crate::asked::{Asked, Submission, asked_of};
use form_acts::{Act, ActFault, apply};
use form_input::without_cr;
use form_judge::Steps;
use form_page::Page;
use form_ports::Blob;
use form_script::{LineFault, parse_line};
use form_submit::{Outcome, SubmitFault, submit};
use form_text::Text;
use form_tree::{Key, Raw};
use std::alloc::{AllocError, Global};
use std::marker::Model;
use std::sync::ledger::Ledger;
use url::Url;

/// What a run keeps from line to line: the document's URL, the page as it is now, and the boundaries
/// that multipart bodies may have. The page is sound.
#[derive(Drop)]
pub struct Session {
    base: Url,
    page: Page,
    bounds: Vec<String>,
}

impl Model for Session {
    ghost use Rattle.std.specs.Prelude.{◌≤◌, All, length, map, string_bytes};
    ghost use Rattle.form_encode.specs.Boundaries.{longest_boundary};
    ghost use Rattle.form_acts.specs.Soundness.{IsSound};
    ghost use Rattle.form_run.specs.Session.{Session};

    ghost Value = { Session };

    ghost view = { λ s. record { base = s.base; page = s.page; bounds = map string_bytes s.bounds.items } };

    ghost invariant = { λ s. IsSound s.page
        × All (λ boundary. length (string_bytes boundary) ≤ longest_boundary) s.bounds.items };
}

impl Session {
    /// A session with a page that was just read, and files of these names.
    pub fn open<L: Ledger>(
        alloc: Global,
        base: Url,
        raws: Vec<Raw>,
        names: Vec<String>,
        steps: &mut Steps<L>,
    ) -> Result<Session, AllocError>
        requires { IsOpenable raws.items }
        ensures { IfOk result (λ session. session ≡ opened base raws.items (map string_bytes names.items)) }
    {
        let page = Page::from_raws(alloc, raws, names, steps)?;
        let bounds = first_boundaries(alloc)?;
        Ok(Session { base, page, bounds })
    }

    /// The page as it is now.
    pub fn page(&self) -> &Page
        ensures { result.now ≡ self.now.page }
    {
        &self.page
    }

    /// Does an act to the page, and answers the keys of the elements that are then seen to differ, in tree
    /// order. After a fault all is as it was.
    pub fn act<L: Ledger>(
        &mut self,
        alloc: Global,
        act: &Act,
        steps: &mut Steps<L>,
    ) -> Result<Vec<Key>, ActFault>
        ensures done { OnOk result (refusal_of self.old.page act.now ≡ None) }
        ensures next { OnOk result (self.new ≡ sessions.session_after self.old (asks.Act act.now)) }
        ensures keys { IfOk result (λ keys. keys.items ≡ changes self.old.page (outcome self.old.page act.now)) }
        ensures cause { IfErr result (IsCause self.old.page act.now) }
        ensures err { OnErr result (self.new ≡ self.old) }
    {
        match apply(alloc, &mut self.page, act, steps) {
            Ok(keys) => Ok(keys),
            Err(fault) => Err(fault),
        }
    }

    /// Takes these boundaries for the multipart bodies to come.
    pub fn set_boundaries(&mut self, alloc: Global, boundaries: &[Text]) -> Result<(), AllocError>
        requires { All (λ boundary. length boundary ≤ longest_boundary) boundaries.now }
        ensures ok { OnOk result (self.new ≡ sessions.session_after self.old (asks.Boundaries boundaries.now)) }
        ensures err { OnErr result (self.new ≡ self.old) }
    {
        self.bounds = strings_of(alloc, boundaries)?;
        Ok(())
    }

    /// Submits a form, as [`submit`] does.
    pub fn submit(
        &self,
        alloc: Global,
        s: Submission,
        shelf: &mut Vec<Option<Box<dyn Blob>>>,
    ) -> Result<Outcome, SubmitFault>
        requires { AreFiles (contents_of (λ b. content b) shelf.old.items) self.now.page.files }
        ensures outcome { IfOk result (IsSubmitted (contents_of (λ b. content b) shelf.old.items) self.now s) }
        ensures sendable { IfOk result (λ outcome. IfRequest outcome (λ request.
            IsSendable (contents_of (λ b. content b) shelf.new.items) request)) }
        ensures kept { contents_of (λ b. content b) shelf.new.items ≡ contents_of (λ b. content b) shelf.old.items }
        ensures counts { NoneFell (numbers_of (λ b. faults b) shelf.old.items)
            (numbers_of (λ b. faults b) shelf.new.items) }
        ensures others { OthersStay (named_in self.now.page) shelf.old.items shelf.new.items }
        ensures fault { result ≡ Err submit_faults.Blob → SomeFileRose (numbers_of (λ b. faults b) shelf.old.items)
            (numbers_of (λ b. faults b) shelf.new.items) }
    {
        submit(
            alloc,
            &self.page,
            &self.base,
            s.form,
            s.submitter,
            s.check,
            s.at,
            &self.bounds,
            shelf,
        )
    }
}

// The boundaries that there are as long as none is named.
fn first_boundaries(alloc: Global) -> Result<Vec<String>, AllocError>
    ensures { IfOk result (λ bounds. map string_bytes bounds.items ≡ sessions.first_boundary ∷ []) }
{
    let boundary = String::from_str(alloc, "form-boundary-0")?;
    Ok(vec![in alloc; boundary]?)
}

fn strings_of(alloc: Global, texts: &[Text]) -> Result<Vec<String>, AllocError>
    ensures { IfOk result (λ strings. map string_bytes strings.items ≡ texts.now) }
{
    let mut strings = Vec::with_capacity(alloc, texts.len())?;
    for text in texts {
        let string = String::from_str(alloc, text.as_str())?;
        strings.push(string)?;
    }
    Ok(strings)
}

/// What a line asks for, on the page as it is. A line that is no command, or spells none, takes no
/// memory.
#[tactic(auto, unfolding(crate::specs::Session::asked_in))]
pub fn hear(alloc: Global, page: &Page, line: &str) -> Result<Asked, AllocError>
    ensures asked { IfOk result (λ asked. asked ≡ asked_in page.now line.now) }
    ensures short { IfOk result HasShortBoundaries }
{
    hear_bare(alloc, page, without_cr(line))
}

// The same of a line that stands without its end.
fn hear_bare(alloc: Global, page: &Page, line: &str) -> Result<Asked, AllocError>
    ensures asked { IfOk result (λ asked.
        asked ≡ sessions.asked_by_line (is_no_command line.now) page.now (command_of line.now)) }
    ensures short { IfOk result HasShortBoundaries }
{
    if is_no_command(line) {
        return Ok(Asked::NoCommand);
    }
    match parse_line(alloc, line) {
        Ok(command) => Ok(asked_of(page, command)),
        Err(LineFault::Syntax) => Ok(Asked::Syntax),
        Err(LineFault::Memory) => Err(AllocError),
    }
}

// Whether a line is no command.
fn is_no_command(line: &str) -> bool
    ensures { result ≡ is_no_command line.now }
{
    line.is_empty() || line.starts_with('#')
}
