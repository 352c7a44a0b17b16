// The replies to all lines.
ghost use Rattle.std.specs.Prelude.{◌≡◌, ℕ, ◌≤◌, Err, OnOk};
ghost use Rattle.form_ports.specs.Ports.{Rose};
ghost use Rattle.form_ports.specs.Shelf.{contents_of, numbers_of};
ghost use Rattle.form_input.specs.Lines.{lines_of};
ghost use Rattle.form_replies.specs.Saying.{Said, SaidPart};
ghost use Rattle.form_run.specs.Chosen.{NamesNone};
ghost use Rattle.form_run.specs.Endings.{AreFiles, NoneCame, SomeChanged, SomeFileRose};
ghost use Rattle.form_run.specs.Replies.{AreFilesUpTo, AreReplies, files_after_all};

use crate::serving::serve;
use crate::session::Session;
use form_input::first_line;
use form_judge::Steps;
use form_ports::{Blob, Sink};
use form_replies::Stop;
use std::alloc::Global;
use std::sync::ledger::Ledger;

/// Does what each line of a text asks for, and says the replies.
pub fn serve_all<K: Sink, L: Ledger>(
    alloc: Global,
    session: &mut Session,
    text: &str,
    steps: &mut Steps<L>,
    pending: &mut Vec<u8>,
    shelf: &mut Vec<Option<Box<dyn Blob>>>,
    sink: &mut K,
) -> Result<(), Stop>
    requires files { AreFiles (contents_of (λ b. content b) shelf.old.items) session.old.page.files }
    requires unnamed { NamesNone session.old.page }
    ensures said { OnOk result
        (Said (AreReplies (contents_of (λ b. content b) shelf.old.items) session.old (lines_of text.now))
        (K.written sink.old) (K.written sink.new) pending.old.items pending.new.items) }
    ensures part { SaidPart (AreReplies (contents_of (λ b. content b) shelf.old.items) session.old (lines_of text.now))
        (K.written sink.old) (K.written sink.new) pending.old.items pending.new.items }
    ensures shelf { OnOk result (contents_of (λ b. content b) shelf.new.items
        ≡ files_after_all session.old (contents_of (λ b. content b) shelf.old.items) (lines_of text.now)) }
    ensures kept { AreFilesUpTo session.old (lines_of text.now) (contents_of (λ b. content b) shelf.old.items)
        (contents_of (λ b. content b) shelf.new.items) shelf.old.items shelf.new.items }
    ensures counts { NoneCame (numbers_of (λ b. (⟦<dyn Blob as Blob>⟧ b.vtable).faults b.value) shelf.old.items)
        (numbers_of (λ b. (⟦<dyn Blob as Blob>⟧ b.vtable).faults b.value) shelf.new.items) }
    ensures write_fault { result ≡ Err Stop.WriteFault → Rose (K.faults sink.old) (K.faults sink.new) }
    ensures file_fault { result ≡ Err Stop.FileFault
        → SomeFileRose (numbers_of (λ b. (⟦<dyn Blob as Blob>⟧ b.vtable).faults b.value) shelf.old.items)
        (numbers_of (λ b. (⟦<dyn Blob as Blob>⟧ b.vtable).faults b.value) shelf.new.items) }
    ensures changed { (a b : ℕ) → result ≡ Err (Stop.FileChanged a b)
        → SomeChanged (contents_of (λ b. content b) shelf.new.items) (numbers_of (λ b. position b) shelf.new.items) a b }
    ensures later { K.faults sink.old ≤ K.faults sink.new }
{
    let mut rest = text;
    'lines: while let Some((line, after)) = first_line(rest) {
        serve(alloc, session, line, steps, pending, shelf, sink)?;
        rest = after;
    }
    Ok(())
}
