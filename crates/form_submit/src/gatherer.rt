// The bytes of a body on their way into pieces.
ghost use Rattle.std.specs.Prelude.{◌≡◌, ◌≤◌, ◌<◌, ◌+◌, ◌-◌, ◌++◌, [], min, take, length, OnOk, OnErr};
ghost use Rattle.std.specs.Io.KnownBytes.{append_known};
ghost use Rattle.form_ports.specs.Ports.{Rose};
ghost use Rattle.form_ports.specs.Written.{WrotePart};
ghost use Rattle.form_submit.specs.PrintedRequest.{piece_size, printed_data, printed_body};
ghost use Rattle.form_submit.specs.Room.{end_size, last_size, lines_size};
ghost use Rattle.form_submit.specs.Sending.{Gathered, Gathers, GathersPart, nothing};

use crate::lines::{Lines, PIECE_SIZE};
use form_ports::{Sink, WriteFault};
use std::marker::Model;

/// The bytes of one piece of a body, as far as they came, behind the lines of pieces before it that are not
/// written yet.
#[derive(Drop)]
pub struct Gatherer {
    room: [u8; PIECE_SIZE],
    kept: usize,
    lines: Lines,
}

impl Model for Gatherer {
    ghost Value = { Gathered };

    ghost view = { λ g. record { lines = g.lines; bytes = take g.kept g.room } };

    ghost invariant = { λ g. g.kept ≤ piece_size };
}

impl Gatherer {
    /// Nothing is kept yet.
    pub fn new() -> Gatherer
        ensures { result ≡ nothing }
    {
        Gatherer {
            room: [0; PIECE_SIZE],
            kept: 0,
            lines: Lines::new(),
        }
    }

    // The bytes of the piece.
    fn bytes(&self) -> &[u8]
        ensures bytes { result.now ≡ self.now.bytes }
        ensures room { length self.now.bytes ≤ piece_size }
    {
        &self.room[..self.kept]
    }

    // Keeps as many of the bytes as the piece has room for, and says how many.
    fn put(&mut self, bytes: &[u8]) -> usize
        ensures lines { self.new.lines ≡ self.old.lines }
        ensures kept { self.new.bytes ≡ self.old.bytes ++ take result bytes.now }
        ensures count { result ≡ min (piece_size - length self.old.bytes) (length bytes.now) }
    {
        let count = usize::min(PIECE_SIZE - self.kept, bytes.len());
        let start = self.kept;
        self.room[start..start + count].copy_from_slice(&bytes[..count]);
        self.kept += count;
        count
    }

    // Hands the lines on where there is no room for those of a whole piece and of the body's end.
    fn make_room<K: Sink>(&mut self, sink: &mut K) -> Result<(), WriteFault>
        ensures gathers { OnOk result (Gathers (K.written sink.old) (K.written sink.new) self.old [] self.new) }
        ensures bytes { self.new.bytes ≡ self.old.bytes }
        ensures room { OnOk result (length self.new.lines + last_size ≤ lines_size) }
        ensures part { GathersPart (K.written sink.old) (K.written sink.new) self.old [] }
        ensures fault { OnErr result (Rose (K.faults sink.old) (K.faults sink.new)) }
        ensures later { K.faults sink.old ≤ K.faults sink.new }
    {
        if self.lines.has_room() {
            return Ok(());
        }
        self.lines.hand_on(sink)
    }

    // Prints the piece, where it has bytes, behind the lines that there are.
    fn print_piece(&mut self)
        requires room { length self.old.lines + last_size ≤ lines_size }
        ensures lines { self.new.lines ≡ self.old.lines ++ printed_data self.old.bytes }
        ensures bytes { self.new.bytes ≡ [] }
        ensures end { length self.new.lines + end_size ≤ lines_size }
    {
        let piece = &self.room[..self.kept];
        if piece.len() > 0 {
            self.lines.push_piece(piece);
            self.kept = 0;
        }
    }

    // Prints the piece where it is whole.
    fn print_whole<K: Sink>(&mut self, sink: &mut K) -> Result<(), WriteFault>
        ensures gathers { OnOk result (Gathers (K.written sink.old) (K.written sink.new) self.old [] self.new) }
        ensures room { OnOk result (length self.new.bytes < piece_size) }
        ensures part { GathersPart (K.written sink.old) (K.written sink.new) self.old [] }
        ensures fault { OnErr result (Rose (K.faults sink.old) (K.faults sink.new)) }
        ensures later { K.faults sink.old ≤ K.faults sink.new }
    {
        let piece = self.bytes();
        if piece.len() < PIECE_SIZE {
            return Ok(());
        }
        self.make_room(sink)?;
        self.print_piece();
        Ok(())
    }

    /// Takes more bytes of the body, and prints each piece that is whole before a further byte.
    pub fn take<K: Sink>(&mut self, sink: &mut K, bytes: &[u8]) -> Result<(), WriteFault>
        ensures gathers { OnOk result (Gathers (K.written sink.old) (K.written sink.new) self.old bytes.now self.new) }
        ensures part { GathersPart (K.written sink.old) (K.written sink.new) self.old bytes.now }
        ensures fault { OnErr result (Rose (K.faults sink.old) (K.faults sink.new)) }
        ensures later { K.faults sink.old ≤ K.faults sink.new }
    {
        let mut done = 0;
        'taking: while done < bytes.len() {
            self.print_whole(sink)?;
            let (_, rest) = bytes.split_at(done);
            done += self.put(rest);
        }
        Ok(())
    }

    /// Writes what is left, and the end of the body.
    pub fn finish<K: Sink>(&mut self, sink: &mut K) -> Result<(), WriteFault>
        ensures whole { OnOk result (K.written sink.new
            ≡ append_known (K.written sink.old) (self.old.lines ++ printed_body self.old.bytes)) }
        ensures part { WrotePart (K.written sink.old) (K.written sink.new)
            (self.old.lines ++ printed_body self.old.bytes) }
        ensures fault { OnErr result (Rose (K.faults sink.old) (K.faults sink.new)) }
        ensures later { K.faults sink.old ≤ K.faults sink.new }
    {
        self.make_room(sink)?;
        self.print_piece();
        self.lines.push(b"end\n");
        self.lines.hand_on(sink)
    }
}
