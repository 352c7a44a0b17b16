// A file in memory that changes between two readings.
ghost use Rattle.std.specs.Prelude.{◌≡◌, ◌≤◌, ◌<◌, ◌+◌, ◌++◌, length};
ghost use Rattle.std.specs.Io.KnownBytes.{prepend_known, IsAtEnd};
ghost use Rattle.form_ports.specs.Ports.{read_bytes, GotWithin, ReadCounts, Rewinds, left_from, untold};
ghost use Rattle.form_ports.specs.Memory.{ShiftState, new_shift, shifted, shift_left, shift_read, shift_rewind};

use crate::memory::put_front;
use crate::{Blob, Got, Rewound};
use std::marker::Model;

/// A file in memory that tells no content: up to its second rewind it has the first bytes, and from
/// then on the later ones. It never fails.
#[derive(Drop)]
pub struct ShiftBlob {
    first: Vec<u8>,
    later: Vec<u8>,
    at: usize,
    rewinds: u64,
}

impl Model for ShiftBlob {
    ghost Value = { ShiftState };

    ghost view = { λ s. record {
      first = s.first.items;
      later = s.later.items;
      position = s.at;
      rewinds = s.rewinds;
    } };

    ghost invariant = { λ s. s.at ≤ length (shifted (record {
      first = s.first.items;
      later = s.later.items;
      position = s.at;
      rewinds = s.rewinds;
    })) };
}

impl ShiftBlob {
    /// A file of the first bytes, and from its second rewind on of the later ones.
    pub fn new(first: Vec<u8>, later: Vec<u8>) -> ShiftBlob
        ensures { result ≡ new_shift first.items later.items }
    {
        ShiftBlob {
            first,
            later,
            at: 0,
            rewinds: 0,
        }
    }
}

impl Blob for ShiftBlob {
    ghost content = { λ _. untold };

    ghost position = { λ s. s.position };

    ghost faults = { λ _. 0 };

    fn read(&mut self, room: &mut [u8]) -> Got
        requires { 0 < length room.old }
        ensures within { GotWithin result (length room.old) }
        ensures same { untold ≡ untold }
        ensures bytes { left_from self.old.position untold
            ≡ prepend_known (read_bytes result room.new) (left_from self.new.position untold) }
        ensures end { result ≡ Got.End → IsAtEnd (left_from self.new.position untold) }
        ensures position { self.new.position ≡ self.old.position + length (read_bytes result room.new) }
        ensures faults { ReadCounts result 0 0 }
        ensures next { shift_left self.old ≡ read_bytes result room.new ++ shift_left self.new }
        ensures whole { (result, self.new) ≡ shift_read self.old (length room.old) }
    {
        let bytes = if self.rewinds < 2 {
            &self.first
        } else {
            &self.later
        };
        let left = bytes.len() - self.at;
        if left == 0 {
            return Got::End;
        }
        let count = left.min(room.len());
        put_front(room, bytes, self.at, count);
        self.at += count;
        Got::Bytes(count)
    }

    fn rewind(&mut self) -> Rewound
        ensures same { untold ≡ untold }
        ensures rewinds { Rewinds result self.old.position self.new.position 0 0 }
        ensures done { result ≡ Rewound.Done }
        ensures whole { self.new ≡ shift_rewind self.old }
    {
        self.at = 0;
        self.rewinds = self.rewinds.saturating_add(1);
        Rewound::Done
    }
}
