// How replies are said.
ghost use Rattle.std.specs.Prelude.{◌≡◌, ◌≤◌, [], Err, IfErr, OnErr, OnOk, true};
ghost use Rattle.form_ports.specs.Ports.{Rose};
ghost use Rattle.form_pending.specs.Saying.{Says, SaysPart};
ghost use Rattle.form_replies.specs.Replies.{refused_line};
ghost use Rattle.form_replies.specs.Stops.{is_writing};

use crate::stop::Stop;
use crate::texts::refused_line;
use form_pending::{flush, say};
use form_ports::{Blob, Sink};
use std::alloc::Global;

/// Says a text.
pub fn say_text<K: Sink>(text: &str, pending: &mut Vec<u8>, sink: &mut K) -> Result<(), Stop>
    ensures said { OnOk result
        (Says (K.written sink.old) (K.written sink.new) pending.old.items pending.new.items text.now) }
    ensures part { SaysPart (K.written sink.old) (K.written sink.new) pending.old.items pending.new.items text.now }
    ensures kind { IfErr result (λ stop. is_writing stop ≡ true) }
    ensures write_fault { result ≡ Err Stop.WriteFault → Rose (K.faults sink.old) (K.faults sink.new) }
    ensures later { K.faults sink.old ≤ K.faults sink.new }
{
    say(text.as_bytes(), pending, sink)?;
    Ok(())
}

/// Says that a command is refused.
pub fn say_refused<K: Sink>(
    alloc: Global,
    word: &str,
    pending: &mut Vec<u8>,
    sink: &mut K,
) -> Result<(), Stop>
    ensures said { OnOk result
        (Says (K.written sink.old) (K.written sink.new) pending.old.items pending.new.items (refused_line word.now)) }
    ensures part { SaysPart (K.written sink.old) (K.written sink.new) pending.old.items pending.new.items
        (refused_line word.now) }
    ensures kind { IfErr result (λ stop. is_writing stop ≡ true) }
    ensures write_fault { result ≡ Err Stop.WriteFault → Rose (K.faults sink.old) (K.faults sink.new) }
    ensures later { K.faults sink.old ≤ K.faults sink.new }
{
    let line = refused_line(alloc, word)?;
    say_text(line.as_str(), pending, sink)
}

/// Writes what is kept, before a file may be read.
pub fn flush_before_files<K: Sink>(
    pending: &mut Vec<u8>,
    shelf: &[Option<Box<dyn Blob>>],
    sink: &mut K,
) -> Result<(), Stop>
    ensures said { OnOk result (Says (K.written sink.old) (K.written sink.new) pending.old.items pending.new.items []) }
    ensures part { SaysPart (K.written sink.old) (K.written sink.new) pending.old.items pending.new.items [] }
    ensures kind { OnErr result (result ≡ Err Stop.WriteFault) }
    ensures write_fault { OnErr result (Rose (K.faults sink.old) (K.faults sink.new)) }
    ensures later { K.faults sink.old ≤ K.faults sink.new }
{
    if !shelf.is_empty() {
        flush(pending, sink)?;
    }
    Ok(())
}
