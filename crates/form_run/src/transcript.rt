// The transcript of an input.
ghost use Rattle.std.specs.Prelude.{◌≡◌, ℕ, ◌<◌, ◌≤◌, All, Err, IfErr, IfOk, IsSome, Ok, OnOk, length, map, string_bytes, true};
ghost use Rattle.form_ports.specs.Ports.{Rose};
ghost use Rattle.form_ports.specs.Shelf.{contents_of, numbers_of};
ghost use Rattle.form_acts.specs.Soundness.{IsOpenable};
ghost use Rattle.form_input.specs.Lines.{lines_of};
ghost use Rattle.form_replies.specs.Saying.{Said, SaidPart};
ghost use Rattle.form_replies.specs.PageLines.{page_line};
ghost use Rattle.form_run.specs.Endings.{NoneCame, SomeChanged, SomeFileRose};
ghost use Rattle.form_run.specs.Transcript.{AreExpectedUpTo, AreFilesSoFar, IsEnd, IsExpected, IsTranscript, IsWritingEnd, WroteInput, WroteInputPart, expected_end, expected_files, files_at_end, status_of};

use crate::running::serve_all;
use crate::session::Session;
use crate::status::Status;
use crate::taken::page_of_input;
use form_judge::Steps;
use form_pending::{ROOM, flush};
use form_ports::{Blob, Sink};
use form_replies::{PageStop, Stop, page_line, say_text};
use form_tree::Raw;
use std::alloc::Global;
use std::sync::ledger::{Blank, Ledger};
use url::Url;

// Says the transcript of a page and its commands.
fn say_page<K: Sink, L: Ledger>(
    alloc: Global,
    base: Url,
    names: Vec<String>,
    raws: Vec<Raw>,
    commands: &str,
    steps: &mut Steps<L>,
    pending: &mut Vec<u8>,
    shelf: &mut Vec<Option<Box<dyn Blob>>>,
    sink: &mut K,
) -> Result<(), Stop>
    requires openable { IsOpenable raws.items }
    requires files { length names.items ≡ length shelf.old.items }
    requires there { All IsSome shelf.old.items }
    ensures said { OnOk result (Said (IsTranscript (contents_of (λ b. content b) shelf.old.items) base
        (map string_bytes names.items) (lines_of commands.now) (Ok raws.items))
        (K.written sink.old) (K.written sink.new) pending.old.items pending.new.items) }
    ensures part { SaidPart (IsTranscript (contents_of (λ b. content b) shelf.old.items) base
        (map string_bytes names.items) (lines_of commands.now) (Ok raws.items))
        (K.written sink.old) (K.written sink.new) pending.old.items pending.new.items }
    ensures shelf { OnOk result (contents_of (λ b. content b) shelf.new.items
        ≡ files_at_end base (map string_bytes names.items) (lines_of commands.now) (Ok raws.items)
        (contents_of (λ b. content b) shelf.old.items)) }
    ensures kept { AreFilesSoFar base (map string_bytes names.items) (lines_of commands.now) (Ok raws.items)
        (contents_of (λ b. content b) shelf.old.items) (contents_of (λ b. content b) shelf.new.items)
        shelf.old.items shelf.new.items }
    ensures counts { NoneCame (numbers_of (λ b. (⟦<dyn Blob as Blob>⟧ b.vtable).faults b.value) shelf.old.items)
        (numbers_of (λ b. (⟦<dyn Blob as Blob>⟧ b.vtable).faults b.value) shelf.new.items) }
    ensures write_fault { result ≡ Err Stop.WriteFault → Rose (K.faults sink.old) (K.faults sink.new) }
    ensures file_fault { result ≡ Err Stop.FileFault
        → SomeFileRose (numbers_of (λ b. (⟦<dyn Blob as Blob>⟧ b.vtable).faults b.value) shelf.old.items)
        (numbers_of (λ b. (⟦<dyn Blob as Blob>⟧ b.vtable).faults b.value) shelf.new.items) }
    ensures changed { (a b : ℕ) → result ≡ Err (Stop.FileChanged a b)
        → SomeChanged (contents_of (λ b. content b) shelf.new.items) (numbers_of (λ b. position b) shelf.new.items) a b }
    ensures later { K.faults sink.old ≤ K.faults sink.new }
{
    let line = page_line(alloc, raws.len())?;
    let mut session = Session::open(alloc, base, raws, names, steps)?;
    say_text(line.as_str(), pending, sink)?;
    serve_all(alloc, &mut session, commands, steps, pending, shelf, sink)
}

// Says the transcript of an input.
fn say_input<K: Sink, L: Ledger>(
    alloc: Global,
    base: Url,
    names: Vec<String>,
    input: &[u8],
    steps: &mut Steps<L>,
    pending: &mut Vec<u8>,
    shelf: &mut Vec<Option<Box<dyn Blob>>>,
    sink: &mut K,
) -> Result<Status, Stop>
    requires files { length names.items ≡ length shelf.old.items }
    requires there { All IsSome shelf.old.items }
    ensures end { IfOk result (λ status. status ≡ expected_end input.now) }
    ensures said { OnOk result (Said (IsExpected (contents_of (λ b. content b) shelf.old.items) base
        (map string_bytes names.items) input.now)
        (K.written sink.old) (K.written sink.new) pending.old.items pending.new.items) }
    ensures part { SaidPart (IsExpected (contents_of (λ b. content b) shelf.old.items) base
        (map string_bytes names.items) input.now)
        (K.written sink.old) (K.written sink.new) pending.old.items pending.new.items }
    ensures shelf { OnOk result (contents_of (λ b. content b) shelf.new.items
        ≡ expected_files base (map string_bytes names.items) input.now (contents_of (λ b. content b) shelf.old.items)) }
    ensures untouched { result ≡ Ok Status.Page → shelf.new.items ≡ shelf.old.items }
    ensures kept { AreExpectedUpTo base (map string_bytes names.items) input.now
        (contents_of (λ b. content b) shelf.old.items) (contents_of (λ b. content b) shelf.new.items)
        shelf.old.items shelf.new.items }
    ensures counts { NoneCame (numbers_of (λ b. (⟦<dyn Blob as Blob>⟧ b.vtable).faults b.value) shelf.old.items)
        (numbers_of (λ b. (⟦<dyn Blob as Blob>⟧ b.vtable).faults b.value) shelf.new.items) }
    ensures write_fault { result ≡ Err Stop.WriteFault → Rose (K.faults sink.old) (K.faults sink.new) }
    ensures file_fault { result ≡ Err Stop.FileFault
        → SomeFileRose (numbers_of (λ b. (⟦<dyn Blob as Blob>⟧ b.vtable).faults b.value) shelf.old.items)
        (numbers_of (λ b. (⟦<dyn Blob as Blob>⟧ b.vtable).faults b.value) shelf.new.items) }
    ensures changed { (a b : ℕ) → result ≡ Err (Stop.FileChanged a b)
        → SomeChanged (contents_of (λ b. content b) shelf.new.items) (numbers_of (λ b. position b) shelf.new.items) a b }
    ensures later { K.faults sink.old ≤ K.faults sink.new }
{
    match page_of_input(alloc, input) {
        Ok((raws, commands)) => {
            say_page(
                alloc, base, names, raws, commands, steps, pending, shelf, sink,
            )?;
            Ok(Status::Done)
        }
        Err(PageStop::Refused(line)) => {
            say_text(line.as_str(), pending, sink)?;
            Ok(Status::Page)
        }
        Err(PageStop::Memory) => Err(Stop::Memory),
    }
}

// The status that a run ends with.
fn status_of(ended: Result<Status, Stop>) -> Status
    ensures { result ≡ status_of ended }
{
    match ended {
        Ok(status) => status,
        Err(Stop::WriteFault) => Status::WriteFault,
        Err(Stop::FileFault) => Status::FileFault,
        Err(Stop::Memory) => Status::Memory,
        Err(Stop::FileChanged(a, b)) => Status::FileChanged(a, b),
    }
}

/// Writes the transcript of an input. The shelf has one file for each name.
pub fn transcribe<K: Sink, L: Ledger>(
    blank: Blank,
    alloc: Global,
    base: Url,
    names: Vec<String>,
    input: Vec<u8>,
    shelf: &mut Vec<Option<Box<dyn Blob>>>,
    sink: &mut K,
) -> Status
    requires ledger { blank.name ≡ L.name }
    requires parts { blank.parts ≡ L.parts }
    requires some { 0 < blank.parts }
    requires files { length names.items ≡ length shelf.old.items }
    requires there { All IsSome shelf.old.items }
    ensures end { IsEnd result ≡ true → WroteInput (contents_of (λ b. content b) shelf.old.items) base
        (map string_bytes names.items) input.items result (K.written sink.old) (K.written sink.new) }
    ensures part { WroteInputPart (contents_of (λ b. content b) shelf.old.items) base (map string_bytes names.items)
        input.items (K.written sink.old) (K.written sink.new) }
    ensures kinds { IsWritingEnd result ≡ true }
    ensures shelf { IsEnd result ≡ true → contents_of (λ b. content b) shelf.new.items
        ≡ expected_files base (map string_bytes names.items) input.items (contents_of (λ b. content b) shelf.old.items) }
    ensures untouched { result ≡ Status.Page → shelf.new.items ≡ shelf.old.items }
    ensures kept { AreExpectedUpTo base (map string_bytes names.items) input.items
        (contents_of (λ b. content b) shelf.old.items) (contents_of (λ b. content b) shelf.new.items)
        shelf.old.items shelf.new.items }
    ensures counts { NoneCame (numbers_of (λ b. (⟦<dyn Blob as Blob>⟧ b.vtable).faults b.value) shelf.old.items)
        (numbers_of (λ b. (⟦<dyn Blob as Blob>⟧ b.vtable).faults b.value) shelf.new.items) }
    ensures write_fault { result ≡ Status.WriteFault → Rose (K.faults sink.old) (K.faults sink.new) }
    ensures file_fault { result ≡ Status.FileFault
        → SomeFileRose (numbers_of (λ b. (⟦<dyn Blob as Blob>⟧ b.vtable).faults b.value) shelf.old.items)
        (numbers_of (λ b. (⟦<dyn Blob as Blob>⟧ b.vtable).faults b.value) shelf.new.items) }
    ensures changed { (a b : ℕ) → result ≡ Status.FileChanged a b
        → SomeChanged (contents_of (λ b. content b) shelf.new.items) (numbers_of (λ b. position b) shelf.new.items) a b }
    ensures later { K.faults sink.old ≤ K.faults sink.new }
{
    let mut steps: Steps<L> = Steps::new(blank);
    let mut pending = match Vec::with_capacity(alloc, ROOM) {
        Ok(pending) => pending,
        Err(_) => return Status::Memory,
    };
    let ended = say_input(
        alloc,
        base,
        names,
        &input,
        &mut steps,
        &mut pending,
        shelf,
        sink,
    );
    match flush(&mut pending, sink) {
        Ok(()) => status_of(ended),
        Err(_) => Status::WriteFault,
    }
}
