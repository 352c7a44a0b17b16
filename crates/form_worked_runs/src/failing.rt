// Runs in which one call fails, each in turn.
ghost use Rattle.std.specs.Prelude.{◌≤◌};

use crate::rows::{EMPTY, JOIN};
use crate::setting::{BASE, PLAIN, Setting, left_of};
use crate::uploads::{BOTH, HI, HI_AND_TAKEN, SENT, UPLOAD, UPLOADS};
use form_run::Status;
use std::alloc::{AllocError, Global};
use std::test::Fail;

// More calls than any of these runs makes of one object.
const MOST: usize = 2_000;

// How many calls a run makes of what fails in its first call. Where another one fails in its place the run
// has this end, and a front of the text is written, but not all; nothing, where the source fails. None where
// that is not so.
fn calls(
    alloc: Global,
    words: &str,
    row: (&str, &str),
    first: Setting,
    end: Status,
) -> Result<Option<usize>, AllocError>
    requires { 1 ≤ first.piece }
{
    let (page, talk) = row;
    let mut made = 0;
    for call in 1..MOST {
        let setting = Setting {
            source: first.source.saturating_mul(call),
            sink: first.sink.saturating_mul(call),
            file: first.file.saturating_mul(call),
            ..first
        };
        let (status, left) = left_of(alloc, words, page, talk, setting)?;
        if status == Status::Done && left == Some(0) {
            return Ok(Some(made));
        }
        if status != end || left == Some(0) || left.is_none() {
            return Ok(None);
        }
        made = call;
    }
    Ok(None)
}

const SOURCE: Setting = Setting {
    piece: 1,
    source: 1,
    ..PLAIN
};

const SINK: Setting = Setting { sink: 1, ..PLAIN };

const FILE: Setting = Setting {
    piece: 1,
    file: 1,
    ..PLAIN
};

// The words, a page with its talk, what fails first, the end, and the least and the most calls. With one
// byte a call the source has a call for each byte and one for the end; a file, which is read twice, each
// time a rewind, a call for each byte, and one for the end. The sink has as many as the text has pieces.
const CALLS: [(&str, (&str, &str), Setting, Status, usize, usize); 10] = [
    (BASE, EMPTY, SOURCE, Status::ReadFault, 33, 33),
    (BASE, JOIN, SOURCE, Status::ReadFault, 581, 581),
    (HI, (UPLOAD, SENT), SOURCE, Status::ReadFault, 130, 130),
    (HI, (UPLOAD, SENT), FILE, Status::FileFault, 8, 8),
    (HI_AND_TAKEN, (UPLOADS, BOTH), FILE, Status::FileFault, 8, 8),
    (
        HI_AND_TAKEN,
        (UPLOADS, BOTH),
        Setting { place: 1, ..FILE },
        Status::FileFault,
        10,
        10,
    ),
    (
        BASE,
        JOIN,
        Setting { piece: 4, ..SINK },
        Status::WriteFault,
        150,
        MOST,
    ),
    (
        HI,
        (UPLOAD, SENT),
        Setting { piece: 1, ..SINK },
        Status::WriteFault,
        290,
        MOST,
    ),
    (
        HI_AND_TAKEN,
        (UPLOADS, BOTH),
        Setting { piece: 100, ..SINK },
        Status::WriteFault,
        4,
        MOST,
    ),
    (
        HI_AND_TAKEN,
        (UPLOADS, BOTH),
        SINK,
        Status::WriteFault,
        1,
        MOST,
    ),
];

#[test]
fn each_call_fails_in_turn(rt: HostRuntime) -> Result<(), Fail> {
    for (words, row, first, end, least, most) in CALLS {
        let piece = first.piece.max(1);
        let made = calls(rt.alloc(), words, row, Setting { piece, ..first }, end)?.unwrap_or(0);
        assert_eq!(rt; made, made.max(least).min(most));
    }
    Ok(())
}
