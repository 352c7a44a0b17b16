// The reply to a line.
ghost use Rattle.std.specs.Prelude.{◌≡◌, ℕ, ◌≤◌, Err, IfErr, IfOk, OnErr, OnOk, true};
ghost use Rattle.form_ports.specs.Ports.{Rose};
ghost use Rattle.form_ports.specs.Shelf.{NoneFell, contents_of, numbers_of};
ghost use Rattle.form_pending.specs.Saying.{Says, SaysPart};
ghost use Rattle.form_acts.specs.Acts.{outcome};
ghost use Rattle.form_acts.specs.Refusals.{refusal_of};
ghost use Rattle.form_page.specs.Views.{changes};
ghost use Rattle.form_submit.specs.Outcome.{IfRequest};
ghost use Rattle.form_submit.specs.PrintedRequest.{IsSendable, file_numbers};
ghost use Rattle.form_replies.specs.Stops.{is_reading, is_writing};
ghost use Rattle.form_replies.specs.Replies.{act_reply};
ghost use Rattle.form_replies.specs.Saying.{Said, SaidPart};
ghost use Rattle.form_replies.specs.Withdrawn.{without_all};
ghost use Rattle.form_run.specs.declared.asked.Asked.TheVariants as asks;
ghost use Rattle.form_run.specs.Chosen.{OthersStay, named_in, outcome_numbers};
ghost use Rattle.form_run.specs.Endings.{AreFiles, NoneCame, SomeChanged, SomeFileRose};
ghost use Rattle.form_run.specs.Replies.{IsOutcomeText, IsReply, IsReplyTo, IsRequestText, IsSubmissionReply, IsSubmitted};
ghost use Rattle.form_run.specs.Session.{HasShortBoundaries, after, files_after, session_after, withdrawn};

use crate::asked::{Asked, Submission};
use crate::session::{Session, hear};
use crate::texts::none_line;
use form_acts::{Act, ActFault};
use form_judge::Steps;
use form_page::Page;
use form_pending::flush;
use form_ports::{Blob, Sink};
use form_replies::{
    Stop, done_text, flush_before_files, refusal_word, say_refused, say_text, shown_text,
    stopped_lines, withdraw, withdrawn_by,
};
use form_submit::{Outcome, Request, SendFault, SubmitFault, write_request};
use std::alloc::Global;
use std::sync::ledger::Ledger;

// ---- submissions

// Prints a request.
fn serve_request<K: Sink>(
    request: &Request,
    pending: &mut Vec<u8>,
    shelf: &mut Vec<Option<Box<dyn Blob>>>,
    sink: &mut K,
) -> Result<(), Stop>
    requires { IsSendable (contents_of (λ b. content b) shelf.old.items) request.now }
    ensures said { OnOk result (Said (IsRequestText (contents_of (λ b. content b) shelf.old.items) request.now)
        (K.written sink.old) (K.written sink.new) pending.old.items pending.new.items) }
    ensures part { SaidPart (IsRequestText (contents_of (λ b. content b) shelf.old.items) request.now)
        (K.written sink.old) (K.written sink.new) pending.old.items pending.new.items }
    ensures kept { contents_of (λ b. content b) shelf.new.items ≡ contents_of (λ b. content b) shelf.old.items }
    ensures others { OthersStay (file_numbers request.now.body) shelf.old.items shelf.new.items }
    ensures counts { NoneFell (numbers_of (λ b. (⟦<dyn Blob as Blob>⟧ b.vtable).faults b.value) shelf.old.items)
        (numbers_of (λ b. (⟦<dyn Blob as Blob>⟧ b.vtable).faults b.value) shelf.new.items) }
    ensures write_fault { result ≡ Err Stop.WriteFault → Rose (K.faults sink.old) (K.faults sink.new) }
    ensures file_fault { result ≡ Err Stop.FileFault
        → SomeFileRose (numbers_of (λ b. (⟦<dyn Blob as Blob>⟧ b.vtable).faults b.value) shelf.old.items)
        (numbers_of (λ b. (⟦<dyn Blob as Blob>⟧ b.vtable).faults b.value) shelf.new.items) }
    ensures changed { (a b : ℕ) → result ≡ Err (Stop.FileChanged a b)
        → SomeChanged (contents_of (λ b. content b) shelf.new.items) (numbers_of (λ b. position b) shelf.new.items) a b }
    ensures later { K.faults sink.old ≤ K.faults sink.new }
{
    flush(pending, sink)?;
    match write_request(request, shelf, sink) {
        Ok(()) => Ok(()),
        Err(SendFault::Sink) => Err(Stop::WriteFault),
        Err(SendFault::Blob) => Err(Stop::FileFault),
        Err(SendFault::Changed(a, b)) => Err(Stop::FileChanged(a, b)),
    }
}

// Says what a submission comes to.
fn serve_outcome<K: Sink>(
    alloc: Global,
    page: &Page,
    outcome: &Outcome,
    pending: &mut Vec<u8>,
    shelf: &mut Vec<Option<Box<dyn Blob>>>,
    sink: &mut K,
) -> Result<(), Stop>
    requires { IfRequest outcome.now (λ request. IsSendable (contents_of (λ b. content b) shelf.old.items) request) }
    ensures said { OnOk result (Said (IsOutcomeText (contents_of (λ b. content b) shelf.old.items) page.now outcome.now)
        (K.written sink.old) (K.written sink.new) pending.old.items pending.new.items) }
    ensures part { SaidPart (IsOutcomeText (contents_of (λ b. content b) shelf.old.items) page.now outcome.now)
        (K.written sink.old) (K.written sink.new) pending.old.items pending.new.items }
    ensures kept { contents_of (λ b. content b) shelf.new.items ≡ contents_of (λ b. content b) shelf.old.items }
    ensures others { OthersStay (outcome_numbers outcome.now) shelf.old.items shelf.new.items }
    ensures counts { NoneFell (numbers_of (λ b. (⟦<dyn Blob as Blob>⟧ b.vtable).faults b.value) shelf.old.items)
        (numbers_of (λ b. (⟦<dyn Blob as Blob>⟧ b.vtable).faults b.value) shelf.new.items) }
    ensures write_fault { result ≡ Err Stop.WriteFault → Rose (K.faults sink.old) (K.faults sink.new) }
    ensures file_fault { result ≡ Err Stop.FileFault
        → SomeFileRose (numbers_of (λ b. (⟦<dyn Blob as Blob>⟧ b.vtable).faults b.value) shelf.old.items)
        (numbers_of (λ b. (⟦<dyn Blob as Blob>⟧ b.vtable).faults b.value) shelf.new.items) }
    ensures changed { (a b : ℕ) → result ≡ Err (Stop.FileChanged a b)
        → SomeChanged (contents_of (λ b. content b) shelf.new.items) (numbers_of (λ b. position b) shelf.new.items) a b }
    ensures later { K.faults sink.old ≤ K.faults sink.new }
{
    match outcome {
        Outcome::Stopped(keys) => {
            let text = stopped_lines(alloc, page, keys.as_slice())?;
            say_text(text.as_str(), pending, sink)
        }
        Outcome::NoRequest(why) => {
            let line = none_line(alloc, *why)?;
            say_text(line.as_str(), pending, sink)
        }
        Outcome::Request(request) => serve_request(request, pending, shelf, sink),
    }
}

// What a submission comes to.
fn outcome_of(
    alloc: Global,
    session: &Session,
    s: Submission,
    shelf: &mut Vec<Option<Box<dyn Blob>>>,
) -> Result<Outcome, Stop>
    requires { AreFiles (contents_of (λ b. content b) shelf.old.items) session.now.page.files }
    ensures outcome { IfOk result (IsSubmitted (contents_of (λ b. content b) shelf.old.items) session.now s) }
    ensures sendable { IfOk result (λ outcome. IfRequest outcome (λ request.
        IsSendable (contents_of (λ b. content b) shelf.new.items) request)) }
    ensures kept { contents_of (λ b. content b) shelf.new.items ≡ contents_of (λ b. content b) shelf.old.items }
    ensures others { OthersStay (named_in session.now.page) shelf.old.items shelf.new.items }
    ensures counts { NoneFell (numbers_of (λ b. faults b) shelf.old.items) (numbers_of (λ b. faults b) shelf.new.items) }
    ensures kind { IfErr result (λ stop. is_reading stop ≡ true) }
    ensures file_fault { result ≡ Err Stop.FileFault → SomeFileRose (numbers_of (λ b. faults b) shelf.old.items)
        (numbers_of (λ b. faults b) shelf.new.items) }
{
    match session.submit(alloc, s, shelf) {
        Ok(outcome) => Ok(outcome),
        Err(SubmitFault::Blob) => Err(Stop::FileFault),
        Err(SubmitFault::Memory) => Err(Stop::Memory),
    }
}

// Submits a form, and says what comes of it.
fn serve_submission<K: Sink>(
    alloc: Global,
    session: &Session,
    s: Submission,
    pending: &mut Vec<u8>,
    shelf: &mut Vec<Option<Box<dyn Blob>>>,
    sink: &mut K,
) -> Result<(), Stop>
    requires { AreFiles (contents_of (λ b. content b) shelf.old.items) session.now.page.files }
    ensures said { OnOk result (Said (IsSubmissionReply (contents_of (λ b. content b) shelf.old.items) session.now s)
        (K.written sink.old) (K.written sink.new) pending.old.items pending.new.items) }
    ensures part { SaidPart (IsSubmissionReply (contents_of (λ b. content b) shelf.old.items) session.now s)
        (K.written sink.old) (K.written sink.new) pending.old.items pending.new.items }
    ensures kept { contents_of (λ b. content b) shelf.new.items ≡ contents_of (λ b. content b) shelf.old.items }
    ensures others { OthersStay (named_in session.now.page) shelf.old.items shelf.new.items }
    ensures counts { NoneFell (numbers_of (λ b. (⟦<dyn Blob as Blob>⟧ b.vtable).faults b.value) shelf.old.items)
        (numbers_of (λ b. (⟦<dyn Blob as Blob>⟧ b.vtable).faults b.value) shelf.new.items) }
    ensures write_fault { result ≡ Err Stop.WriteFault → Rose (K.faults sink.old) (K.faults sink.new) }
    ensures file_fault { result ≡ Err Stop.FileFault
        → SomeFileRose (numbers_of (λ b. (⟦<dyn Blob as Blob>⟧ b.vtable).faults b.value) shelf.old.items)
        (numbers_of (λ b. (⟦<dyn Blob as Blob>⟧ b.vtable).faults b.value) shelf.new.items) }
    ensures changed { (a b : ℕ) → result ≡ Err (Stop.FileChanged a b)
        → SomeChanged (contents_of (λ b. content b) shelf.new.items) (numbers_of (λ b. position b) shelf.new.items) a b }
    ensures later { K.faults sink.old ≤ K.faults sink.new }
{
    flush_before_files(pending, shelf, sink)?;
    let outcome = outcome_of(alloc, session, s, shelf)?;
    serve_outcome(alloc, session.page(), &outcome, pending, shelf, sink)?;
    say_text("ok\n", pending, sink)
}

// ---- acts

// Does an act, and says what is seen of it. Its file is withdrawn when that is said.
fn serve_act<K: Sink, L: Ledger>(
    alloc: Global,
    session: &mut Session,
    act: &Act,
    steps: &mut Steps<L>,
    pending: &mut Vec<u8>,
    shelf: &mut Vec<Option<Box<dyn Blob>>>,
    sink: &mut K,
) -> Result<(), Stop>
    requires { AreFiles (contents_of (λ b. content b) shelf.old.items) session.old.page.files }
    ensures said { OnOk result (Says (K.written sink.old) (K.written sink.new) pending.old.items pending.new.items
        (act_reply (refusal_of session.old.page act.now) (outcome session.old.page act.now)
        (changes session.old.page (outcome session.old.page act.now)))) }
    ensures part { SaysPart (K.written sink.old) (K.written sink.new) pending.old.items pending.new.items
        (act_reply (refusal_of session.old.page act.now) (outcome session.old.page act.now)
        (changes session.old.page (outcome session.old.page act.now))) }
    ensures next { OnOk result (session.new ≡ session_after session.old (asks.Act act.now)) }
    ensures shelf { OnOk result (shelf.new.items
        ≡ without_all shelf.old.items (withdrawn session.old.page (asks.Act act.now))) }
    ensures kept { OnErr result (shelf.new.items ≡ shelf.old.items) }
    ensures kind { IfErr result (λ stop. is_writing stop ≡ true) }
    ensures write_fault { result ≡ Err Stop.WriteFault → Rose (K.faults sink.old) (K.faults sink.new) }
    ensures later { K.faults sink.old ≤ K.faults sink.new }
{
    match session.act(alloc, act, steps) {
        Ok(keys) => {
            let text = done_text(alloc, session.page(), &keys)?;
            say_text(text.as_str(), pending, sink)?;
            withdraw(shelf, withdrawn_by(act));
            Ok(())
        }
        Err(ActFault::Memory) => Err(Stop::Memory),
        Err(fault) => say_refused(alloc, refusal_word(fault), pending, sink),
    }
}

// ---- all lines

// Does what a line asks for, and says the reply.
fn serve_asked<K: Sink, L: Ledger>(
    alloc: Global,
    session: &mut Session,
    asked: &Asked,
    steps: &mut Steps<L>,
    pending: &mut Vec<u8>,
    shelf: &mut Vec<Option<Box<dyn Blob>>>,
    sink: &mut K,
) -> Result<(), Stop>
    requires files { AreFiles (contents_of (λ b. content b) shelf.old.items) session.old.page.files }
    requires short { HasShortBoundaries asked.now }
    ensures said { OnOk result (Said (IsReplyTo (contents_of (λ b. content b) shelf.old.items) session.old asked.now)
        (K.written sink.old) (K.written sink.new) pending.old.items pending.new.items) }
    ensures part { SaidPart (IsReplyTo (contents_of (λ b. content b) shelf.old.items) session.old asked.now)
        (K.written sink.old) (K.written sink.new) pending.old.items pending.new.items }
    ensures next { OnOk result (session.new ≡ session_after session.old asked.now) }
    ensures shelf { OnOk result (contents_of (λ b. content b) shelf.new.items
        ≡ without_all (contents_of (λ b. content b) shelf.old.items) (withdrawn session.old.page asked.now)) }
    ensures kept { OnErr result (contents_of (λ b. content b) shelf.new.items
        ≡ contents_of (λ b. content b) shelf.old.items) }
    ensures others { OthersStay (named_in session.old.page) shelf.old.items shelf.new.items }
    ensures counts { NoneCame (numbers_of (λ b. (⟦<dyn Blob as Blob>⟧ b.vtable).faults b.value) shelf.old.items)
        (numbers_of (λ b. (⟦<dyn Blob as Blob>⟧ b.vtable).faults b.value) shelf.new.items) }
    ensures write_fault { result ≡ Err Stop.WriteFault → Rose (K.faults sink.old) (K.faults sink.new) }
    ensures file_fault { result ≡ Err Stop.FileFault
        → SomeFileRose (numbers_of (λ b. (⟦<dyn Blob as Blob>⟧ b.vtable).faults b.value) shelf.old.items)
        (numbers_of (λ b. (⟦<dyn Blob as Blob>⟧ b.vtable).faults b.value) shelf.new.items) }
    ensures changed { (a b : ℕ) → result ≡ Err (Stop.FileChanged a b)
        → SomeChanged (contents_of (λ b. content b) shelf.new.items) (numbers_of (λ b. position b) shelf.new.items) a b }
    ensures later { K.faults sink.old ≤ K.faults sink.new }
{
    match asked {
        Asked::NoCommand => Ok(()),
        Asked::Syntax => say_refused(alloc, "syntax", pending, sink),
        Asked::Refused(fault) => say_refused(alloc, refusal_word(*fault), pending, sink),
        Asked::Nothing => say_text("ok\n", pending, sink),
        Asked::Act(act) => serve_act(alloc, session, act, steps, pending, shelf, sink),
        Asked::Show(key) => {
            let text = shown_text(alloc, session.page(), *key)?;
            say_text(text.as_str(), pending, sink)
        }
        Asked::Boundaries(boundaries) => {
            session.set_boundaries(alloc, boundaries.as_slice())?;
            say_text("ok\n", pending, sink)
        }
        Asked::Submit(s) => serve_submission(alloc, session, *s, pending, shelf, sink),
    }
}

/// Does what a line asks for, and says the reply.
pub fn serve<K: Sink, L: Ledger>(
    alloc: Global,
    session: &mut Session,
    line: &str,
    steps: &mut Steps<L>,
    pending: &mut Vec<u8>,
    shelf: &mut Vec<Option<Box<dyn Blob>>>,
    sink: &mut K,
) -> Result<(), Stop>
    requires { AreFiles (contents_of (λ b. content b) shelf.old.items) session.old.page.files }
    ensures said { OnOk result (Said (IsReply (contents_of (λ b. content b) shelf.old.items) session.old line.now)
        (K.written sink.old) (K.written sink.new) pending.old.items pending.new.items) }
    ensures part { SaidPart (IsReply (contents_of (λ b. content b) shelf.old.items) session.old line.now)
        (K.written sink.old) (K.written sink.new) pending.old.items pending.new.items }
    ensures next { OnOk result (session.new ≡ after session.old line.now) }
    ensures shelf { OnOk result (contents_of (λ b. content b) shelf.new.items
        ≡ files_after session.old.page (contents_of (λ b. content b) shelf.old.items) line.now) }
    ensures files { OnOk result (AreFiles (contents_of (λ b. content b) shelf.new.items) session.new.page.files) }
    ensures kept { OnErr result (contents_of (λ b. content b) shelf.new.items
        ≡ contents_of (λ b. content b) shelf.old.items) }
    ensures others { OthersStay (named_in session.old.page) shelf.old.items shelf.new.items }
    ensures counts { NoneCame (numbers_of (λ b. (⟦<dyn Blob as Blob>⟧ b.vtable).faults b.value) shelf.old.items)
        (numbers_of (λ b. (⟦<dyn Blob as Blob>⟧ b.vtable).faults b.value) shelf.new.items) }
    ensures write_fault { result ≡ Err Stop.WriteFault → Rose (K.faults sink.old) (K.faults sink.new) }
    ensures file_fault { result ≡ Err Stop.FileFault
        → SomeFileRose (numbers_of (λ b. (⟦<dyn Blob as Blob>⟧ b.vtable).faults b.value) shelf.old.items)
        (numbers_of (λ b. (⟦<dyn Blob as Blob>⟧ b.vtable).faults b.value) shelf.new.items) }
    ensures changed { (a b : ℕ) → result ≡ Err (Stop.FileChanged a b)
        → SomeChanged (contents_of (λ b. content b) shelf.new.items) (numbers_of (λ b. position b) shelf.new.items) a b }
    ensures later { K.faults sink.old ≤ K.faults sink.new }
{
    let asked = hear(alloc, session.page(), line)?;
    serve_asked(alloc, session, &asked, steps, pending, shelf, sink)
}
