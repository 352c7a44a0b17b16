// Objects in memory, which tell everything.
ghost use Rattle.std.specs.Prelude.{◌≡◌, ◌≤◌, ◌<◌, ◌+◌, ◌++◌, ◌==◌, ℕ, drop, take, length, Some, IfOk, vec_len, vec_capacity};
ghost use Rattle.std.specs.List.{list_any};
ghost use Rattle.std.specs.Io.KnownBytes.{prepend_known, append_known, IsAtEnd};
ghost use Rattle.form_ports.specs.Ports.{read_bytes, taken_bytes, GotWithin, TookWithin, ReadCounts, WriteCounts};
ghost use Rattle.form_ports.specs.Memory.{SourceState, SinkState, new_source, new_sink, source_read, sink_write};

use crate::{Got, Sink, Source, Took};
use std::alloc::{AllocError, Global};
use std::marker::Model;

// Puts the bytes from `at` on into the front of the room.
pub fn put_front(room: &mut [u8], bytes: &[u8], at: usize, count: usize)
    requires fits { count ≤ length room.old }
    requires there { at + count ≤ length bytes.now }
    ensures { drop at bytes.now ≡ take count room.new ++ drop (at + count) bytes.now }
{
    room[..count].copy_from_slice(&bytes[at..at + count]);
}

// Whether the call of that number is one that fails.
pub fn is_listed(fail: &[usize], call: u64) -> bool
    ensures { result ≡ list_any (λ n. n == call) fail.now }
{
    let call = call as usize;
    fail.iter().any(|n| *n == call)
}

/// A source over bytes in memory, which fails in exactly the calls whose numbers it is told.
#[derive(Drop)]
pub struct MemSource {
    bytes: Vec<u8>,
    piece: usize,
    fail: Vec<usize>,
    at: usize,
    calls: u64,
    failed: u64,
}

impl Model for MemSource {
    ghost Value = { SourceState };

    ghost view = { λ s. record {
      left = drop s.at s.bytes.items;
      given = s.at;
      piece = s.piece;
      failing = s.fail.items;
      calls = s.calls;
      faults = s.failed;
    } };

    ghost invariant = { λ s. (s.at ≤ length s.bytes.items) × (1 ≤ s.piece) };
}

impl MemSource {
    /// A source of these bytes. One call moves `piece` bytes at most, and `fail` has the numbers,
    /// from 1, of the calls that fail.
    pub fn new(bytes: Vec<u8>, piece: usize, fail: Vec<usize>) -> MemSource
        requires { 1 ≤ piece }
        ensures { result ≡ new_source bytes.items piece fail.items }
    {
        MemSource {
            bytes,
            piece,
            fail,
            at: 0,
            calls: 0,
            failed: 0,
        }
    }
}

impl Source for MemSource {
    ghost held = { λ s. Some s.left };

    ghost given = { λ s. s.given };

    ghost faults = { λ s. s.faults };

    fn read(&mut self, room: &mut [u8]) -> Got
        requires { 0 < length room.old }
        ensures within { GotWithin result (length room.old) }
        ensures bytes { Some self.old.left ≡ prepend_known (read_bytes result room.new) (Some self.new.left) }
        ensures end { result ≡ Got.End → IsAtEnd (Some self.new.left) }
        ensures given { self.new.given ≡ self.old.given + length (read_bytes result room.new) }
        ensures faults { ReadCounts result self.old.faults self.new.faults }
        ensures whole { (result, self.new) ≡ source_read self.old (length room.old) }
    {
        self.calls = self.calls.saturating_add(1);
        if is_listed(&self.fail, self.calls) {
            self.failed = self.failed.saturating_add(1);
            return Got::Failed;
        }
        let left = self.bytes.len() - self.at;
        if left == 0 {
            return Got::End;
        }
        let count = left.min(self.piece).min(room.len());
        put_front(room, &self.bytes, self.at, count);
        self.at += count;
        Got::Bytes(count)
    }
}

/// A sink that keeps what it takes. It fails in exactly the calls whose numbers it is told, and
/// where it has taken all that it has room for.
#[derive(Drop)]
pub struct MemSink {
    bytes: Vec<u8>,
    room: usize,
    piece: usize,
    fail: Vec<usize>,
    calls: u64,
    failed: u64,
}

impl Model for MemSink {
    ghost Value = { SinkState };

    ghost view = { λ s. record {
      bytes = s.bytes.items;
      room = s.room;
      piece = s.piece;
      failing = s.fail.items;
      calls = s.calls;
      faults = s.failed;
    } };

    ghost invariant = { λ s. (s.room ≤ vec_capacity s.bytes) × (vec_len s.bytes ≤ s.room) × (1 ≤ s.piece) };
}

impl MemSink {
    /// A sink with room for `room` bytes, for which it takes the memory now. One call moves
    /// `piece` bytes at most, and `fail` has the numbers, from 1, of the calls that fail.
    pub fn new(
        alloc: Global,
        room: usize,
        piece: usize,
        fail: Vec<usize>,
    ) -> Result<MemSink, AllocError>
        requires { 1 ≤ piece }
        ensures { IfOk result (λ sink. sink ≡ new_sink room piece fail.items) }
    {
        let bytes = Vec::with_capacity(alloc, room)?;
        Ok(MemSink {
            bytes,
            room,
            piece,
            fail,
            calls: 0,
            failed: 0,
        })
    }

    /// The bytes that it has taken.
    pub fn bytes(&self) -> &[u8]
        ensures { result.now ≡ self.now.bytes }
    {
        &self.bytes
    }
}

impl Sink for MemSink {
    ghost written = { λ s. Some s.bytes };

    ghost faults = { λ s. s.faults };

    fn write(&mut self, piece: &[u8]) -> Took
        requires { 0 < length piece.now }
        ensures within { TookWithin result (length piece.now) }
        ensures bytes { Some self.new.bytes ≡ append_known (Some self.old.bytes) (taken_bytes result piece.now) }
        ensures faults { WriteCounts result self.old.faults self.new.faults }
        ensures whole { (result, self.new) ≡ sink_write self.old piece.now }
    {
        self.calls = self.calls.saturating_add(1);
        if is_listed(&self.fail, self.calls) {
            self.failed = self.failed.saturating_add(1);
            return Took::Failed;
        }
        let left = self.room - self.bytes.len();
        if left == 0 {
            self.failed = self.failed.saturating_add(1);
            return Took::Failed;
        }
        let count = left.min(self.piece).min(piece.len());
        match self.bytes.extend_from_slice(&piece[..count]) {
            Ok(()) => Took::Bytes(count),
            Err(_) => {
                self.failed = self.failed.saturating_add(1);
                Took::Failed
            }
        }
    }
}
