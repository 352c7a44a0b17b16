// What sources and sinks give and take, call by call.
use crate::numbers::{number, numbers};
use form_ports::{Got, MemSink, MemSource, Sink, Source, StdSink, Took};
use std::alloc::{AllocError, Global};
use std::test::Fail;

// A source of `abcdefg` with the most bytes of one call, the calls that fail, the number of reads into room
// for four bytes, and what they give.
const SOURCES: &str = "3|2 5|7|abc,failed,def,g,failed,end,end,
16||3|abcd,efg,end,";

// A sink with its room and the most bytes of one call, the calls that fail, the pieces that are written, and
// how much is taken of each; then all that it took.
const SINKS: &str = "1 2||ab b|1,failed,a
9 2|1 3|abc abc c c|failed,2,failed,1,abc";

// What one read into room for four bytes gives.
fn read_by<S: Source>(alloc: Global, source: &mut S) -> Result<String, AllocError> {
    let mut room = [0u8; 4];
    match source.read(&mut room) {
        Got::Bytes(count) => {
            let text = str::from_utf8(&room[..count]).unwrap_or("no text");
            String::from_str(alloc, text)
        }
        Got::End => String::from_str(alloc, "end"),
        Got::Failed => String::from_str(alloc, "failed"),
    }
}

fn reads(alloc: Global, piece: &str, failing: &str, count: &str) -> Result<String, AllocError> {
    let piece = usize::max(number(piece), 1);
    let failing = numbers(alloc, failing)?;
    let mut source = MemSource::new(b"abcdefg".to_vec(alloc)?, piece, failing);
    let mut all = String::new(alloc);
    for _ in 0..number(count) {
        all.push_str(read_by(alloc, &mut source)?.as_str())?;
        all.push(',')?;
    }
    Ok(all)
}

// How much one write of a piece takes.
fn write_by<K: Sink>(sink: &mut K, piece: &[u8]) -> Option<usize> {
    if piece.is_empty() {
        return None;
    }
    match sink.write(piece) {
        Took::Bytes(count) => Some(count),
        Took::Failed => None,
    }
}

fn writes(alloc: Global, sizes: &str, failing: &str, pieces: &str) -> Result<String, AllocError> {
    let (room, most) = sizes.split_once(' ').unwrap_or((sizes, ""));
    let most = usize::max(number(most), 1);
    let failing = numbers(alloc, failing)?;
    let mut sink = MemSink::new(alloc, number(room), most, failing)?;
    let mut all = String::new(alloc);
    for piece in pieces.split(' ') {
        match write_by(&mut sink, piece.as_bytes()) {
            Some(count) => all.push_str(format!(in alloc; "{count},")?.as_str())?,
            None => all.push_str("failed,")?,
        }
    }
    all.push_str(str::from_utf8(sink.bytes()).unwrap_or("no text"))?;
    Ok(all)
}

// The first row that does not hold, and what is answered; an empty text where all hold.
fn first_wrong(alloc: Global, is_source: bool, rows: &str) -> Result<String, AllocError> {
    for row in rows.lines() {
        let (sizes, rest) = row.split_once('|').unwrap_or((row, ""));
        let (failing, rest) = rest.split_once('|').unwrap_or((rest, ""));
        let (given, want) = rest.split_once('|').unwrap_or((rest, "no answer"));
        let answer = if is_source {
            reads(alloc, sizes, failing, given)?
        } else {
            writes(alloc, sizes, failing, given)?
        };
        if answer.as_str() != want {
            return format!(in alloc; "{row}: {}", answer.as_str());
        }
    }
    Ok(String::new(alloc))
}

#[test]
fn pieces_and_where_they_fail(rt: HostRuntime) -> Result<(), Fail> {
    for (is_source, rows) in [(true, SOURCES), (false, SINKS)] {
        assert_eq!(rt; first_wrong(rt.alloc(), is_source, rows)?.as_str(), "");
    }
    Ok(())
}

#[test]
fn standard_output_takes_a_piece(rt: HostRuntime) {
    let mut sink = StdSink::new(rt);
    assert_eq!(rt; write_by(&mut sink, b"\n"), Some(1));
}
