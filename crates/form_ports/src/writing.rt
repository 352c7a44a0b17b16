// All of a text to a sink.
ghost use Rattle.std.specs.Prelude.{◌≡◌, ◌≤◌, OnOk, OnErr};
ghost use Rattle.std.specs.Io.KnownBytes.{append_known};
ghost use Rattle.form_ports.specs.Ports.{Rose};
ghost use Rattle.form_ports.specs.Written.{WrotePart};

use crate::{Sink, Took};

/// The sink failed.
#[derive(Clone, Copy, Debug, PartialEq, Eq)]
pub struct WriteFault;

/// Writes the whole text. After a fault what was written is a front of it.
pub fn write_all<K: Sink>(sink: &mut K, text: &[u8]) -> Result<(), WriteFault>
    ensures whole { OnOk result (K.written sink.new ≡ append_known (K.written sink.old) text.now) }
    ensures part { WrotePart (K.written sink.old) (K.written sink.new) text.now }
    ensures fault { OnErr result (Rose (K.faults sink.old) (K.faults sink.new)) }
    ensures later { K.faults sink.old ≤ K.faults sink.new }
{
    let mut done = 0;
    'writing: while done < text.len() {
        let (_, rest) = text.split_at(done);
        match sink.write(rest) {
            Took::Bytes(count) => done += count,
            Took::Failed => return Err(WriteFault),
        }
    }
    Ok(())
}
