// A real file, which tells no bytes: the trusted edge.
ghost use Rattle.std.specs.Prelude.{◌≡◌, ◌≤◌, ◌<◌, ◌+◌, IfOk, length};
ghost use Rattle.std.specs.Io.KnownBytes.{prepend_known, IsAtEnd};
ghost use Rattle.form_ports.specs.Ports.{last_count, read_bytes, GotWithin, ReadCounts, Rewinds, left_from, read_count, untold};
ghost use Rattle.form_ports.specs.Real.{FileCounts};

use crate::{Blob, Got, Rewound};
use std::fs;
use std::io::{self, Read};
use std::marker::Model;
use std::rt::Files;

/// A file, which is opened at its first read and closed at a rewind. Contracts see its position and
/// its count of faults.
#[derive(Drop)]
pub struct LazyFile<R: Files + Drop> {
    runtime: R,
    path: String,
    file: Option<R::File>,
    given: u64,
    failed: u64,
}

impl<R: Files + Drop> Model for LazyFile<R> {
    ghost Value = { FileCounts };

    ghost view = { λ f. record { position = f.given; faults = f.failed } };
}

impl<R: Files + Drop> LazyFile<R> {
    /// The file of that path, which is not opened yet.
    pub fn new(rt: R, path: String) -> LazyFile<R>
        ensures { result ≡ record { position = 0; faults = 0 } }
    {
        LazyFile {
            runtime: rt,
            path,
            file: None,
            given: 0,
            failed: 0,
        }
    }
}

// Reads from the opened file, which is opened first where it is not.
fn read_opened<R: Files>(
    rt: &R,
    path: &str,
    opened: &mut Option<R::File>,
    room: &mut [u8],
) -> io::Result<usize>
    ensures { IfOk result (λ count. count ≤ length room.new) }
{
    if let Some(file) = opened {
        return file.read(room);
    }
    let mut file = fs::open(rt, path)?;
    let count = file.read(room)?;
    *opened = Some(file);
    Ok(count)
}

impl<R: Files + Drop> Blob for LazyFile<R> {
    ghost content = { λ _. untold };

    ghost position = { λ f. f.position };

    ghost faults = { λ f. f.faults };

    fn read(&mut self, room: &mut [u8]) -> Got
        requires { 0 < length room.old }
        ensures within { GotWithin result (length room.old) }
        ensures same { untold ≡ untold }
        ensures bytes { left_from self.old.position untold
            ≡ prepend_known (read_bytes result room.new) (left_from self.new.position untold) }
        ensures end { result ≡ Got.End → IsAtEnd (left_from self.new.position untold) }
        ensures position { self.new.position ≡ self.old.position + length (read_bytes result room.new) }
        ensures faults { ReadCounts result self.old.faults self.new.faults }
        ensures counts { self.new.faults ≡ read_count result self.old.faults }
        ensures full { self.old.position ≡ last_count → result ≡ Got.Failed }
    {
        let most = usize::min(room.len(), (u64::MAX - self.given) as usize);
        if most == 0 {
            self.failed = self.failed.saturating_add(1);
            return Got::Failed;
        }
        let path = self.path.as_str();
        match read_opened(&self.runtime, path, &mut self.file, &mut room[..most]) {
            Ok(0) => Got::End,
            Ok(count) => {
                self.given += count as u64;
                Got::Bytes(count)
            }
            Err(_) => {
                self.failed = self.failed.saturating_add(1);
                Got::Failed
            }
        }
    }

    fn rewind(&mut self) -> Rewound
        ensures same { untold ≡ untold }
        ensures rewinds { Rewinds result self.old.position self.new.position self.old.faults self.new.faults }
        ensures done { result ≡ Rewound.Done }
        ensures counts { self.new ≡ record { position = 0; faults = self.old.faults } }
    {
        self.file = None;
        self.given = 0;
        Rewound::Done
    }
}
