// One file, piece by piece.
ghost use Rattle.std.specs.Prelude.{◌≡◌, ◌<◌, ◌≤◌, ◌+◌, length};
ghost use Rattle.std.specs.Io.KnownBytes.{prepend_known, IsAtEnd};
ghost use Rattle.form_ports.specs.Ports.{Rose, GotWithin, ReadCounts, read_bytes, left_from};

use crate::{Blob, Got, Rewound};

/// Goes back to the start of a boxed file.
pub fn rewind(blob: &mut Box<dyn Blob>) -> Rewound
    ensures same { content blob.new ≡ content blob.old }
    ensures start { result ≡ Rewound.Done → position blob.new ≡ 0 }
    ensures fault { result ≡ Rewound.Failed → Rose (faults blob.old) (faults blob.new) }
    ensures later { faults blob.old ≤ faults blob.new }
{
    blob.rewind()
}

// Reads some of a boxed file.
fn read_some(blob: &mut Box<dyn Blob>, room: &mut [u8]) -> Got
    requires { 0 < length room.old }
    ensures within { GotWithin result (length room.old) }
    ensures same { content blob.new ≡ content blob.old }
    ensures bytes { left_from (position blob.old) (content blob.old)
        ≡ prepend_known (read_bytes result room.new) (left_from (position blob.new) (content blob.new)) }
    ensures end { result ≡ Got.End → IsAtEnd (left_from (position blob.new) (content blob.new)) }
    ensures position { position blob.new ≡ position blob.old + length (read_bytes result room.new) }
    ensures faults { ReadCounts result (faults blob.old) (faults blob.new) }
{
    blob.read(room)
}

/// Reads at most so many bytes of a boxed file, which are some, into the front of the room.
pub fn read_front(blob: &mut Box<dyn Blob>, room: &mut [u8], most: usize) -> Got
    requires some { 0 < most }
    requires fits { most ≤ length room.old }
    ensures within { GotWithin result most }
    ensures len { length room.new ≡ length room.old }
    ensures same { content blob.new ≡ content blob.old }
    ensures bytes { left_from (position blob.old) (content blob.old)
        ≡ prepend_known (read_bytes result room.new) (left_from (position blob.new) (content blob.new)) }
    ensures end { result ≡ Got.End → IsAtEnd (left_from (position blob.new) (content blob.new)) }
    ensures position { position blob.new ≡ position blob.old + length (read_bytes result room.new) }
    ensures faults { ReadCounts result (faults blob.old) (faults blob.new) }
{
    read_some(blob, &mut room[..most])
}
