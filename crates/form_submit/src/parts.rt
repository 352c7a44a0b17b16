// Several texts, one after the other.
ghost use Rattle.std.specs.Prelude.{◌≡◌, ◌≤◌, OnOk, OnErr, flat_map};
ghost use Rattle.std.specs.Io.KnownBytes.{append_known};
ghost use Rattle.form_ports.specs.Ports.{Rose};
ghost use Rattle.form_ports.specs.Written.{WrotePart};

use form_ports::{Sink, WriteFault, write_all};

/// Writes all texts in turn. After a fault what was written is a front of them.
pub fn write_parts<K: Sink>(sink: &mut K, parts: &[&[u8]]) -> Result<(), WriteFault>
    ensures whole { OnOk result (K.written sink.new
        ≡ append_known (K.written sink.old) (flat_map (λ part. part.now) parts.now)) }
    ensures part { WrotePart (K.written sink.old) (K.written sink.new) (flat_map (λ part. part.now) parts.now) }
    ensures fault { OnErr result (Rose (K.faults sink.old) (K.faults sink.new)) }
    ensures later { K.faults sink.old ≤ K.faults sink.new }
{
    for part in parts {
        write_all(sink, part)?;
    }
    Ok(())
}
