// All of a source.
ghost use Rattle.std.specs.Prelude.{◌≡◌, ℕ, ◌+◌, ◌<◌, ◌≤◌, ◌-◌, List, length, take, drop, IfOk, IfSome, OnOk, vec_len};
ghost use Rattle.std.specs.Io.KnownBytes.{prepend_known, IsAtEnd};
ghost use Rattle.form_ports.specs.Ports.{Rose, GotWithin, ReadCounts, read_bytes};
ghost use Rattle.form_input.specs.Limits.{most_input, too_many};
ghost use Rattle.form_input.specs.Moved.{Gave};

use form_ports::{Got, Source};
use std::alloc::{AllocError, Global};

/// One byte more than an input may have.
const TOO_MANY: usize = 16_777_217;

/// How many bytes a read is offered at least, but for the last bytes that an input may have.
const PIECE: usize = 65_536;

/// Why an input wasn't read to its end.
#[derive(Clone, Copy, Debug, PartialEq, Eq)]
pub enum ReadStop {
    Fault,
    TooLong,
    Memory,
}

// Makes room for a piece behind the bytes that were read; the room doubles, so that no byte is
// moved more than a few times.
fn make_room(text: &mut Vec<u8>, done: usize) -> Result<(), AllocError>
    requires within { done ≤ vec_len text.old }
    requires few { done < too_many }
    requires most { vec_len text.old ≤ too_many }
    ensures room { OnOk result (done < vec_len text.new) }
    ensures most { OnOk result (vec_len text.new ≤ too_many) }
    ensures front { OnOk result (take done text.new.items ≡ take done text.old.items) }
{
    let want = usize::min(done + PIECE, TOO_MANY);
    if text.len() < want {
        let size = usize::min(usize::max(want, 2 * text.len()), TOO_MANY);
        text.resize(size, 0)?;
    }
    Ok(())
}

// Reads behind the bytes that were read.
fn read_behind<S: Source>(source: &mut S, text: &mut Vec<u8>, done: usize) -> Got
    requires { done < vec_len text.old }
    ensures len { vec_len text.new ≡ vec_len text.old }
    ensures within { GotWithin result (vec_len text.new - done) }
    ensures front { take done text.new.items ≡ take done text.old.items }
    ensures bytes { S.held source.old
        ≡ prepend_known (read_bytes result (drop done text.new.items)) (S.held source.new) }
    ensures end { result ≡ Got.End → IsAtEnd (S.held source.new) }
    ensures given { S.given source.new ≡ S.given source.old + length (read_bytes result (drop done text.new.items)) }
    ensures faults { ReadCounts result (S.faults source.old) (S.faults source.new) }
{
    source.read(&mut text[done..])
}

/// All that the source has.
pub fn read_all<S: Source>(alloc: Global, source: &mut S) -> Result<Vec<u8>, ReadStop>
    ensures whole { IfOk result (λ text.
        Gave (S.held source.old) (S.held source.new) (S.given source.old) (S.given source.new) text.items) }
    ensures end { OnOk result (IsAtEnd (S.held source.new)) }
    ensures short { IfOk result (λ text. length text.items ≤ most_input) }
    ensures most { S.given source.new ≤ S.given source.old + too_many }
    ensures too_long { result ≡ Err ReadStop.TooLong → S.given source.new ≡ S.given source.old + too_many }
    ensures long { result ≡ Err ReadStop.TooLong → IfSome (S.held source.old) (λ input. too_many ≤ length input) }
    ensures fault { result ≡ Err ReadStop.Fault → Rose (S.faults source.old) (S.faults source.new) }
    ensures fault_short { result ≡ Err ReadStop.Fault → S.given source.new < S.given source.old + too_many }
    ensures later { S.faults source.old ≤ S.faults source.new }
{
    let mut text: Vec<u8> = Vec::new(alloc);
    let mut done = 0;
    'reading: while done < TOO_MANY {
        match make_room(&mut text, done) {
            Ok(()) => {}
            Err(_) => return Err(ReadStop::Memory),
        }
        match read_behind(source, &mut text, done) {
            Got::Bytes(count) => done += count,
            Got::End => {
                text.truncate(done);
                return Ok(text);
            }
            Got::Failed => return Err(ReadStop::Fault),
        }
    }
    Err(ReadStop::TooLong)
}
