// What is kept, and how it is written.
ghost use Rattle.std.specs.Prelude.{◌≡◌, ◌≤◌, ◌++◌, [], Err, OnErr, OnOk};
ghost use Rattle.std.specs.Io.KnownBytes.{append_known};
ghost use Rattle.form_ports.specs.Ports.{Rose};
ghost use Rattle.form_ports.specs.Written.{WrotePart};
ghost use Rattle.form_pending.specs.Saying.{Says, SaysPart};

use crate::fault::SayFault;
use form_ports::{Sink, WriteFault, write_all};
use std::alloc::AllocError;

/// How many bytes are kept at most.
pub const ROOM: usize = 65_536;

/// Writes what is kept, in one call of [`write_all`]. Nothing is kept then, also after a fault, when what was
/// written is a front of it.
pub fn flush<K: Sink>(pending: &mut Vec<u8>, sink: &mut K) -> Result<(), WriteFault>
    ensures whole { OnOk result (K.written sink.new ≡ append_known (K.written sink.old) pending.old.items) }
    ensures part { WrotePart (K.written sink.old) (K.written sink.new) pending.old.items }
    ensures empty { pending.new.items ≡ [] }
    ensures fault { OnErr result (Rose (K.faults sink.old) (K.faults sink.new)) }
    ensures later { K.faults sink.old ≤ K.faults sink.new }
{
    let written = write_all(sink, pending);
    pending.clear();
    written
}

/// Says a text. It is kept where there is room for it; else what is kept is written first, and a text that is
/// longer than the room is written at once.
pub fn say<K: Sink>(text: &[u8], pending: &mut Vec<u8>, sink: &mut K) -> Result<(), SayFault>
    ensures said { OnOk result
        (Says (K.written sink.old) (K.written sink.new) pending.old.items pending.new.items text.now) }
    ensures part { SaysPart (K.written sink.old) (K.written sink.new) pending.old.items pending.new.items text.now }
    ensures fault { result ≡ Err SayFault.Sink → Rose (K.faults sink.old) (K.faults sink.new) }
    ensures later { K.faults sink.old ≤ K.faults sink.new }
{
    if usize::saturating_sub(ROOM, pending.len()) < text.len() {
        flush(pending, sink)?;
        return say_first(text, pending, sink);
    }
    keep(text, pending)?;
    Ok(())
}

// Says a text where nothing is kept.
fn say_first<K: Sink>(text: &[u8], pending: &mut Vec<u8>, sink: &mut K) -> Result<(), SayFault>
    requires { pending.old.items ≡ [] }
    ensures said { OnOk result (Says (K.written sink.old) (K.written sink.new) [] pending.new.items text.now) }
    ensures part { SaysPart (K.written sink.old) (K.written sink.new) [] pending.new.items text.now }
    ensures fault { result ≡ Err SayFault.Sink → Rose (K.faults sink.old) (K.faults sink.new) }
    ensures later { K.faults sink.old ≤ K.faults sink.new }
{
    if ROOM < text.len() {
        write_all(sink, text)?;
        return Ok(());
    }
    keep(text, pending)?;
    Ok(())
}

// Puts a text behind what is kept.
fn keep(text: &[u8], pending: &mut Vec<u8>) -> Result<(), AllocError>
    ensures said { OnOk result (pending.new.items ≡ pending.old.items ++ text.now) }
    ensures err { OnErr result (pending.new.items ≡ pending.old.items) }
{
    pending.extend_from_slice(text)
}
