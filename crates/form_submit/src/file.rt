// A file of a body, written as it is read.
ghost use Rattle.std.specs.Prelude.{◌≡◌, ◌≤◌, ◌<◌, ◌+◌, ◌-◌, ◌^◌, length, IfErr, IfSome, OnOk};
ghost use Rattle.std.specs.Io.KnownBytes.{prepend_known, IsAtEnd};
ghost use Rattle.form_ports.specs.Ports.{Rose, GotWithin, ReadCounts, read_bytes, left_from};
ghost use Rattle.form_submit.specs.Sending.{FileGathers, FilePart, FileCause};

use crate::gatherer::Gatherer;
use crate::request::SendFault;
use form_ports::{Blob, Got, Rewound, Sink, read_front, rewind};

// How many bytes are read at once.
const ROOM: usize = 16_384;

/// Gathers all bytes of a file that has `size` of them, and prints each piece that is whole. It
/// reads up to one byte past the size.
pub fn send_file<K: Sink>(
    blob: &mut Box<dyn Blob>,
    size: u64,
    gatherer: &mut Gatherer,
    sink: &mut K,
) -> Result<(), SendFault>
    requires size { size < 2 ^ 64 - 1 }
    requires told { IfSome (content blob.old) (λ all. length all ≡ size) }
    ensures same { content blob.new ≡ content blob.old }
    ensures later { (⟦<dyn Blob as Blob>⟧ blob.old.vtable).faults blob.old.value
        ≤ (⟦<dyn Blob as Blob>⟧ blob.new.vtable).faults blob.new.value }
    ensures gathers { OnOk result (FileGathers (content blob.old) size (K.written sink.old) (K.written sink.new)
        gatherer.old gatherer.new) }
    ensures position { OnOk result (position blob.new ≡ size) }
    ensures part { FilePart (content blob.old) size (K.written sink.old) (K.written sink.new) gatherer.old }
    ensures cause { IfErr result (λ fault. FileCause fault (content blob.old) size (position blob.new)
        (Rose (K.faults sink.old) (K.faults sink.new))
        (Rose ((⟦<dyn Blob as Blob>⟧ blob.old.vtable).faults blob.old.value)
        ((⟦<dyn Blob as Blob>⟧ blob.new.vtable).faults blob.new.value))) }
    ensures sink_later { K.faults sink.old ≤ K.faults sink.new }
{
    match rewind(blob) {
        Rewound::Done => {}
        Rewound::Failed => return Err(SendFault::Blob),
    }
    let mut room = [0u8; ROOM];
    let mut done = 0;
    'reading: while done < size {
        let most = u64::min(ROOM as u64, size - done) as usize;
        match read_front(blob, &mut room, most) {
            Got::Bytes(count) => {
                match gatherer.take(sink, &room[..count]) {
                    Ok(()) => {}
                    Err(_) => return Err(SendFault::Sink),
                }
                done += count as u64;
            }
            Got::End => return Err(SendFault::Changed(size, done)),
            Got::Failed => return Err(SendFault::Blob),
        }
    }
    // A file that has given its size has to end there.
    match read_front(blob, &mut room, 1) {
        Got::End => Ok(()),
        Got::Bytes(count) => Err(SendFault::Changed(size, size + count as u64)),
        Got::Failed => Err(SendFault::Blob),
    }
}
