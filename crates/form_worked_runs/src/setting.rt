// What a run is made over, and what it answers.
ghost use Rattle.std.specs.Prelude.{◌≡◌, ◌≤◌, map, string_bytes};
ghost use Rattle.form_input.specs.Words.{file_words};

use form_ports::{Blob, MemBlob, MemSink, MemSource, ShiftBlob};
use form_run::{Status, run};
use std::alloc::{AllocError, Global};
use std::process::Abort;
use std::test::Fail;

/// The document's URL of the rows.
pub const BASE: &str = "https://example.com/a?x#f";

/// The most bytes of one call, the most bytes that the sink takes, and which call fails, from 1: of the
/// source, of the sink, and of the file of that place, from 0. No call has the number 0.
#[derive(Clone, Copy)]
pub struct Setting {
    pub piece: usize,
    pub room: usize,
    pub source: usize,
    pub sink: usize,
    pub place: usize,
    pub file: usize,
}

/// A source, a sink and files that move all at once and never fail.
pub const PLAIN: Setting = Setting {
    piece: 65_536,
    room: 131_072,
    source: 0,
    sink: 0,
    place: 0,
    file: 0,
};

impl Setting {
    // Which call of the file of that place fails.
    fn call_of(self, place: usize) -> usize {
        if place == self.place { self.file } else { 0 }
    }
}

// The words that name files: all but the first.
fn file_words(words: &[String]) -> &[String]
    ensures { map string_bytes result.now ≡ file_words (map string_bytes words.now) }
{
    match words {
        [_, files @ ..] => files,
        [] => words,
    }
}

// The words, one a line: what stands before the first `=` of it.
fn words_of(alloc: Global, lines: &str) -> Result<Vec<String>, AllocError> {
    let mut words = Vec::new(alloc);
    for line in lines.lines() {
        let word = match line.split_once('=') {
            Some((word, _)) => word,
            None => line,
        };
        words.push(String::from_str(alloc, word)?)?;
    }
    Ok(words)
}

// A file that keeps its bytes, or one that has others from its second rewind on.
#[derive(Drop)]
enum Made {
    Same(MemBlob),
    Shifting(ShiftBlob),
}

// The file of that place: behind the first `=` of its line stand its bytes, and behind a second one those
// that it has from its second rewind on. A file with no `=` fails in its first call.
fn file_of(alloc: Global, lines: &str, place: usize, setting: Setting) -> Result<Made, AllocError>
    requires { 1 ≤ setting.piece }
{
    let line = lines.lines().nth(place.saturating_add(1)).unwrap_or("");
    let (bytes, call) = match line.split_once('=') {
        Some((_, bytes)) => (bytes, setting.call_of(place)),
        None => ("", 1),
    };
    if let Some((first, later)) = bytes.split_once('=') {
        let first = first.as_bytes().to_vec(alloc)?;
        let later = later.as_bytes().to_vec(alloc)?;
        return Ok(Made::Shifting(ShiftBlob::new(first, later)));
    }
    let bytes = bytes.as_bytes().to_vec(alloc)?;
    let fails = vec![in alloc; call]?;
    Ok(Made::Same(MemBlob::new(bytes, setting.piece, fails)))
}

/// A run over objects in memory, with a word a line: the status and the text.
pub fn run_of(
    alloc: Global,
    lines: &str,
    input: &[u8],
    setting: Setting,
) -> Result<(Status, Vec<u8>), AllocError>
    requires { 1 ≤ setting.piece }
{
    let words = words_of(alloc, lines)?;
    let mut shelf: Vec<Option<Box<dyn Blob>>> = Vec::new(alloc);
    for path in file_words(&words) {
        let file: Box<dyn Blob> = match file_of(alloc, lines, shelf.len(), setting)? {
            Made::Same(file) => Box::new(alloc, file)?,
            Made::Shifting(file) => Box::new(alloc, file)?,
        };
        shelf.push(Some(file))?;
    }
    let fails = vec![in alloc; setting.source]?;
    let mut source = MemSource::new(input.to_vec(alloc)?, setting.piece, fails);
    let fails = vec![in alloc; setting.sink]?;
    let mut sink = MemSink::new(alloc, setting.room, setting.piece, fails)?;
    let status = run(alloc, &words, &mut source, &mut sink, &mut shelf);
    Ok((status, sink.bytes().to_vec(alloc)?))
}

/// Of a talk, in which commands (with `> ` before each) and replies take turns, the ones or the others.
pub fn side_of(alloc: Global, talk: &str, commands: bool) -> Result<String, AllocError> {
    let mut side = String::new(alloc);
    for line in talk.split_inclusive('\n') {
        match line.strip_prefix("> ") {
            Some(command) => {
                if commands {
                    side.push_str(command)?;
                }
            }
            None => {
                if !commands {
                    side.push_str(line)?;
                }
            }
        }
    }
    Ok(side)
}

/// The input of a page and the commands of a talk.
pub fn input_of(alloc: Global, page: &str, talk: &str) -> Result<String, AllocError> {
    let mut input = String::from_str(alloc, page)?;
    input.push_str("\n%script\n")?;
    input.push_str(side_of(alloc, talk, true)?.as_str())?;
    Ok(input)
}

/// That a run ends so and has written that.
pub fn ends(
    rt: &impl Abort,
    alloc: Global,
    lines: &str,
    input: &str,
    setting: Setting,
    end: Status,
    text: &[u8],
) -> Result<(), Fail>
    requires { 1 ≤ setting.piece }
{
    let (status, written) = run_of(alloc, lines, input.as_bytes(), setting)?;
    assert_eq!(rt; written.as_slice(), text);
    assert_eq!(rt; status, end);
    Ok(())
}

/// That a run over a page and the commands of a talk ends with Done and has written its replies.
pub fn talks(
    rt: &impl Abort,
    alloc: Global,
    lines: &str,
    page: &str,
    talk: &str,
) -> Result<(), Fail> {
    let input = input_of(alloc, page, talk)?;
    let text = side_of(alloc, talk, false)?;
    let text = text.as_str().as_bytes();
    ends(rt, alloc, lines, input.as_str(), PLAIN, Status::Done, text)
}

/// How a run over a page and the commands of a talk ends, and how many bytes of its replies are not
/// written; none where what is written is no front of them.
pub fn left_of(
    alloc: Global,
    lines: &str,
    page: &str,
    talk: &str,
    setting: Setting,
) -> Result<(Status, Option<usize>), AllocError>
    requires { 1 ≤ setting.piece }
{
    let input = input_of(alloc, page, talk)?;
    let text = side_of(alloc, talk, false)?;
    let text = text.as_str().as_bytes();
    let (status, written) = run_of(alloc, lines, input.as_str().as_bytes(), setting)?;
    if !text.starts_with(&written) {
        return Ok((status, None));
    }
    Ok((status, Some(text.len().saturating_sub(written.len()))))
}
