// Bodies that are cut into pieces of 1,024 bytes.
use crate::setting::{BASE, PLAIN, Setting, ends, input_of};
use crate::uploads::UPLOAD;
use form_run::Status;
use std::alloc::{AllocError, Global};
use std::test::Fail;

// The commands that send the file `b`.
const COMMANDS: &str = "> boundary \"B\"\n> choose @2 1\n> submit @1\n";

// What is written before the pieces.
const FRONT: &str =
    "page 2\nok\n@2 value=\"C:\\\\fakepath\\\\b\" checked=no candidate=yes flags=-\nok\n\
    request POST https://example.com/a?x#f\ntype multipart/form-data; boundary=B\n";

// The 103 bytes of a body before those of the file, and the 9 behind them.
const BEFORE: &str =
    "--B\r\nContent-Disposition: form-data; name=\"f\"; filename=\"b\"\r\nContent-Type: application/octet-stream\r\n\r\n";

const BEHIND: &str = "\r\n--B--\r\n";

// What is written where the file has these bytes.
fn sent(alloc: Global, bytes: &str) -> Result<Vec<u8>, AllocError> {
    let body = format!(in alloc; "{BEFORE}{bytes}{BEHIND}")?;
    let mut text = FRONT.as_bytes().to_vec(alloc)?;
    for piece in body.as_str().as_bytes().chunks(1_024) {
        let line = format!(in alloc; "data {}\n", piece.len())?;
        text.extend_from_slice(line.as_str().as_bytes())?;
        text.extend_from_slice(piece)?;
        text.extend_from_slice(b"\n")?;
    }
    text.extend_from_slice(b"end\nok\n")?;
    Ok(text)
}

// How many bytes a file has, whose body has 112 more; and how many a call moves.
const SIZES: [(usize, usize); 14] = [
    (0, 1),
    (1, 65_536),
    (910, 1_024),
    (911, 1),
    (911, 65_536),
    (912, 1),
    (912, 1_023),
    (912, 1_024),
    (912, 1_025),
    (912, 65_536),
    (913, 1),
    (913, 65_536),
    (1_936, 1_024),
    (40_000, 1_025),
];

#[test]
fn files_at_the_borders_of_pieces(rt: HostRuntime) -> Result<(), Fail> {
    let input = input_of(rt.alloc(), UPLOAD, COMMANDS)?;
    for (size, piece) in SIZES {
        let bytes = "x".repeat(rt.alloc(), size)?;
        let bytes = bytes.as_str();
        let words = format!(in rt.alloc(); "{BASE}\nb={bytes}")?;
        let text = sent(rt.alloc(), bytes)?;
        let setting = Setting {
            piece: piece.max(1),
            ..PLAIN
        };
        ends(
            &rt,
            rt.alloc(),
            words.as_str(),
            input.as_str(),
            setting,
            Status::Done,
            &text,
        )?;
    }
    Ok(())
}

// A text of 1,025 bytes.
#[test]
fn a_text_in_two_pieces(rt: HostRuntime) -> Result<(), Fail> {
    let alloc = rt.alloc();
    let value = "x".repeat(alloc, 1_021)?;
    let value = value.as_str();
    let input = format!(in alloc;
        "<form method=\"post\" enctype=\"text/plain\"><input name=\"a\" value=\"{value}\"></form>\n%script\nsubmit @1\n"
    )?;
    let text = format!(in alloc;
        "page 2\nrequest POST https://example.com/a?x#f\ntype text/plain\ndata 1024\na={value}\r\ndata 1\n\n\nend\nok\n"
    )?;
    let text = text.as_str().as_bytes();
    ends(&rt, alloc, BASE, input.as_str(), PLAIN, Status::Done, text)
}
