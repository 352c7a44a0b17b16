// A file in memory, which tells everything.
ghost use Rattle.std.specs.Prelude.{◌≡◌, ◌≤◌, ◌<◌, ◌+◌, length, Some};
ghost use Rattle.std.specs.Io.KnownBytes.{prepend_known, IsAtEnd};
ghost use Rattle.form_ports.specs.Ports.{read_bytes, GotWithin, ReadCounts, Rewinds, left_from};
ghost use Rattle.form_ports.specs.Memory.{BlobState, new_blob, blob_read, blob_rewind};

use crate::memory::{is_listed, put_front};
use crate::{Blob, Got, Rewound};
use std::marker::Model;

/// A file in memory, which fails in exactly the calls whose numbers it is told. Reads and rewinds
/// are counted together.
#[derive(Drop)]
pub struct MemBlob {
    bytes: Vec<u8>,
    piece: usize,
    fail: Vec<usize>,
    at: usize,
    calls: u64,
    failed: u64,
}

impl Model for MemBlob {
    ghost Value = { BlobState };

    ghost view = { λ b. record {
      content = b.bytes.items;
      position = b.at;
      piece = b.piece;
      failing = b.fail.items;
      calls = b.calls;
      faults = b.failed;
    } };

    ghost invariant = { λ b. (b.at ≤ length b.bytes.items) × (1 ≤ b.piece) };
}

impl MemBlob {
    /// A file of these bytes. One call moves `piece` bytes at most, and `fail` has the numbers,
    /// from 1, of the calls that fail.
    pub fn new(bytes: Vec<u8>, piece: usize, fail: Vec<usize>) -> MemBlob
        requires { 1 ≤ piece }
        ensures { result ≡ new_blob bytes.items piece fail.items }
    {
        MemBlob {
            bytes,
            piece,
            fail,
            at: 0,
            calls: 0,
            failed: 0,
        }
    }
}

impl Blob for MemBlob {
    ghost content = { λ b. Some b.content };

    ghost position = { λ b. b.position };

    ghost faults = { λ b. b.faults };

    fn read(&mut self, room: &mut [u8]) -> Got
        requires { 0 < length room.old }
        ensures within { GotWithin result (length room.old) }
        ensures same { Some self.new.content ≡ Some self.old.content }
        ensures bytes { left_from self.old.position (Some self.old.content)
            ≡ prepend_known (read_bytes result room.new) (left_from self.new.position (Some self.new.content)) }
        ensures end { result ≡ Got.End → IsAtEnd (left_from self.new.position (Some self.new.content)) }
        ensures position { self.new.position ≡ self.old.position + length (read_bytes result room.new) }
        ensures faults { ReadCounts result self.old.faults self.new.faults }
        ensures whole { (result, self.new) ≡ blob_read self.old (length room.old) }
    {
        self.calls = self.calls.saturating_add(1);
        if is_listed(&self.fail, self.calls) {
            self.failed = self.failed.saturating_add(1);
            return Got::Failed;
        }
        let left = self.bytes.len() - self.at;
        if left == 0 {
            return Got::End;
        }
        let count = left.min(self.piece).min(room.len());
        put_front(room, &self.bytes, self.at, count);
        self.at += count;
        Got::Bytes(count)
    }

    fn rewind(&mut self) -> Rewound
        ensures same { Some self.new.content ≡ Some self.old.content }
        ensures rewinds { Rewinds result self.old.position self.new.position self.old.faults self.new.faults }
        ensures whole { (result, self.new) ≡ blob_rewind self.old }
    {
        self.calls = self.calls.saturating_add(1);
        if is_listed(&self.fail, self.calls) {
            self.failed = self.failed.saturating_add(1);
            return Rewound::Failed;
        }
        self.at = 0;
        Rewound::Done
    }
}
