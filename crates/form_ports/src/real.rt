// The real ones, which tell no bytes: the trusted edge.
ghost use Rattle.std.specs.Prelude.{◌≡◌, ◌+◌, ◌<◌, None, length};
ghost use Rattle.std.specs.Io.KnownBytes.{prepend_known, append_known, IsAtEnd};
ghost use Rattle.form_ports.specs.Ports.{last_count, read_bytes, taken_bytes, GotWithin, TookWithin, ReadCounts, WriteCounts, read_count, write_count};
ghost use Rattle.form_ports.specs.Real.{InputCounts};

use crate::{Got, Sink, Source, Took};
use std::io::Read;
use std::marker::Model;

/// Standard input. Contracts see its two counts.
#[derive(Drop)]
pub struct StdSource<R: Input + Drop> {
    runtime: R,
    given: u64,
    failed: u64,
}

impl<R: Input + Drop> Model for StdSource<R> {
    ghost Value = { InputCounts };

    ghost view = { λ s. record { given = s.given; faults = s.failed } };
}

impl<R: Input + Drop> StdSource<R> {
    /// The standard input of the runtime, of which nothing is read yet.
    pub fn new(rt: R) -> StdSource<R>
        ensures { result ≡ record { given = 0; faults = 0 } }
    {
        StdSource {
            runtime: rt,
            given: 0,
            failed: 0,
        }
    }
}

impl<R: Input + Drop> Source for StdSource<R> {
    ghost held = { λ _. None };

    ghost given = { λ s. s.given };

    ghost faults = { λ s. s.faults };

    fn read(&mut self, room: &mut [u8]) -> Got
        requires { 0 < length room.old }
        ensures within { GotWithin result (length room.old) }
        ensures bytes { None ≡ prepend_known (read_bytes result room.new) None }
        ensures end { result ≡ Got.End → IsAtEnd None }
        ensures given { self.new.given ≡ self.old.given + length (read_bytes result room.new) }
        ensures faults { ReadCounts result self.old.faults self.new.faults }
        ensures counts { self.new.faults ≡ read_count result self.old.faults }
        ensures full { self.old.given ≡ last_count → result ≡ Got.Failed }
    {
        let most = usize::min(room.len(), (u64::MAX - self.given) as usize);
        if most == 0 {
            self.failed = self.failed.saturating_add(1);
            return Got::Failed;
        }
        match self.runtime.reader().read(&mut room[..most]) {
            Ok(0) => Got::End,
            Ok(count) => {
                self.given += count as u64;
                Got::Bytes(count)
            }
            Err(_) => {
                self.failed = self.failed.saturating_add(1);
                Got::Failed
            }
        }
    }
}

/// Standard output, to which each call goes at once. Contracts see its count of faults.
#[derive(Drop)]
pub struct StdSink<R: Print + Drop> {
    runtime: R,
    failed: u64,
}

impl<R: Print + Drop> Model for StdSink<R> {
    ghost use Rattle.std.specs.Prelude.{ℕ};

    ghost Value = { ℕ };

    ghost view = { λ s. s.failed };
}

impl<R: Print + Drop> StdSink<R> {
    /// The standard output of the runtime, to which nothing is written yet.
    pub fn new(rt: R) -> StdSink<R>
        ensures { result ≡ 0 }
    {
        StdSink {
            runtime: rt,
            failed: 0,
        }
    }
}

impl<R: Print + Drop> Sink for StdSink<R> {
    ghost written = { λ _. None };

    ghost faults = { λ faults. faults };

    fn write(&mut self, piece: &[u8]) -> Took
        requires { 0 < length piece.now }
        ensures within { TookWithin result (length piece.now) }
        ensures bytes { None ≡ append_known None (taken_bytes result piece.now) }
        ensures faults { WriteCounts result self.old self.new }
        ensures counts { self.new ≡ write_count result self.old }
    {
        match self.runtime.write_some(piece) {
            Ok(0) | Err(_) => {
                self.failed = self.failed.saturating_add(1);
                Took::Failed
            }
            Ok(count) => Took::Bytes(count),
        }
    }
}
