// The lines of pieces of a body that are not written yet.
ghost use Rattle.std.specs.Prelude.{◌≡◌, ◌≤◌, ◌+◌, ◌++◌, [], length, nat_le, take, List, OnErr, OnOk, ℕ};
ghost use Rattle.std.specs.Io.KnownBytes.{append_known};
ghost use Rattle.form_ports.specs.Ports.{Rose};
ghost use Rattle.form_ports.specs.Written.{WrotePart};
ghost use Rattle.form_submit.specs.PrintedRequest.{data_lines};
ghost use Rattle.form_submit.specs.Room.{last_size, lines_size};

use form_ports::{Sink, WriteFault, write_all};
use itoa::Buffer;
use std::marker::Model;

/// How many bytes a printed piece has, but for the last one.
pub const PIECE_SIZE: usize = 1_024;

// How many printed pieces are written at once.
const BATCH_PIECES: usize = 64;

// How many bytes stand around those of a whole piece, where it is printed.
const FRAME_SIZE: usize = 11;

// How many bytes the line at the end of a body has.
const END_SIZE: usize = 4;

// How many bytes the lines of a whole piece have, with that line.
const LAST_SIZE: usize = PIECE_SIZE + FRAME_SIZE + END_SIZE;

// How many bytes those of the pieces that are written at once have, with that line.
const ROOM: usize = BATCH_PIECES * (PIECE_SIZE + FRAME_SIZE) + END_SIZE;

/// Lines that are not written yet.
#[derive(Drop)]
pub struct Lines {
    room: [u8; ROOM],
    kept: usize,
}

impl Model for Lines {
    ghost Value = { List ℕ };

    ghost view = { λ lines. take lines.kept lines.room };

    ghost invariant = { λ lines. lines.kept ≤ lines_size };
}

impl Lines {
    /// There are none yet.
    pub fn new() -> Lines
        ensures { result ≡ [] }
    {
        Lines {
            room: [0; ROOM],
            kept: 0,
        }
    }

    // The lines that there are.
    fn bytes(&self) -> &[u8]
        ensures { result.now ≡ self.now }
    {
        &self.room[..self.kept]
    }

    // Forgets all lines.
    fn clear(&mut self)
        ensures { self.new ≡ [] }
    {
        self.kept = 0;
    }

    /// Whether there is room for the lines of a whole piece and of the body's end.
    pub fn has_room(&self) -> bool
        ensures { result ≡ nat_le (length self.now + last_size) lines_size }
    {
        self.kept + LAST_SIZE <= ROOM
    }

    /// Puts a text behind the lines.
    pub fn push(&mut self, text: &[u8])
        requires room { length self.old + length text.now ≤ lines_size }
        ensures { self.new ≡ self.old ++ text.now }
    {
        let end = self.kept + text.len();
        self.room[self.kept..end].copy_from_slice(text);
        self.kept = end;
    }

    /// Puts the lines of a piece behind them.
    pub fn push_piece(&mut self, bytes: &[u8])
        requires room { length self.old + length (data_lines bytes.now) ≤ lines_size }
        ensures { self.new ≡ self.old ++ data_lines bytes.now }
    {
        let mut number = Buffer::new();
        self.push(b"data ");
        self.push(number.format(bytes.len()).as_bytes());
        self.push(b"\n");
        self.push(bytes);
        self.push(b"\n");
    }

    /// Writes the lines, in one call of `write_all`. None are kept then, also after a fault.
    pub fn hand_on<K: Sink>(&mut self, sink: &mut K) -> Result<(), WriteFault>
        ensures none { self.new ≡ [] }
        ensures whole { OnOk result (K.written sink.new ≡ append_known (K.written sink.old) self.old) }
        ensures part { WrotePart (K.written sink.old) (K.written sink.new) self.old }
        ensures fault { OnErr result (Rose (K.faults sink.old) (K.faults sink.new)) }
        ensures later { K.faults sink.old ≤ K.faults sink.new }
    {
        let written = write_all(sink, self.bytes());
        self.clear();
        written
    }
}
