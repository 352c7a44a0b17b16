// What words, texts and sources are read as.
use crate::numbers::{number, numbers};
use form_input::{ReadStop, Task, TaskStop, read_all, split_script, task_of, without_cr};
use form_ports::MemSource;
use std::alloc::{AllocError, Global};
use std::test::Fail;

// Texts, and their pages and scripts; a semicolon and a line feed stand between two rows. Where no line says
// `%script`, the whole text is the page.
const TEXTS: &str = "a\n%script\nb\n|a\n|b\n;
a\n%script\r\nb\r\n|a\n|b\r\n;
a\r\n%script\r\nb|a\r\n|b;
a\n%script|a\n|;
a\n%script\r|a\n|;
%script\nb||b;
a\n%script\n%script\nb|a\n|%script\nb;
a\n %script\nb|a\n %script\nb|;
a\n%script \nb|a\n%script \nb|;
a\n%script\r\r\nb|a\n%script\r\r\nb|;
a\n%scr\ript\nb|a\n%scr\ript\nb|;
||";

// Lines, and what they say.
const LINES: &str = "show @2|show @2;
show @2\r|show @2;
show @2\r\r|show @2\r;
show\r @2|show\r @2;
\r|;
|";

// Words, with commas between them, and how many controls they ask for, or the URL of the document and the
// names of the files.
const WORDS: &str = "--generate,1|1;
--generate,4|4;
--generate,5000|5000;
--generate,0|usage;
--generate,04|usage;
--generate,+4|usage;
--generate,4 |usage;
--generate,5001|usage;
--generate,18446744073709551617|usage;
--generate,|usage;
|usage;
--generate|usage;
--generate,4,5|usage;
--Generate,4|usage;
example.com|usage;
,a|usage;
https://example.com/|https://example.com/;
https://example.com/,--generate,4|https://example.com/,--generate,4;
https://example.com/,a.txt|https://example.com/,a.txt;
https://example.com/,/tmp/a.txt|https://example.com/,a.txt;
https://example.com/,b/c/|https://example.com/,;
https://example.com/,//x|https://example.com/,x;
https://example.com/,--generate|https://example.com/,--generate;
https://example.com/,|https://example.com/,";

// What a source has, the most bytes of one call and the calls that fail, and what is read; the end is a call
// too.
const READINGS: &str = "abcdef 65536|abcdef;
abcdef 1|abcdef;
 1|;
abcdef 4 1|fault;
abcdef 4 2|fault;
abcdef 4 3|fault";

// How many bytes a source has, and how many are read.
const SIZES: &str = "16777218|too long;
16777217|too long;
16777216|16777216";

fn split(alloc: Global, text: &str) -> Result<String, AllocError> {
    let (page, script) = split_script(text);
    format!(in alloc; "{page}|{script}")
}

fn words(alloc: Global, text: &str) -> Result<Vec<String>, AllocError> {
    let mut words = Vec::new(alloc);
    if !text.is_empty() {
        for word in text.split(',') {
            words.push(String::from_str(alloc, word)?)?;
        }
    }
    Ok(words)
}

// The URL of the document, and each name of a file behind a comma.
fn page(alloc: Global, base: &str, names: &[String]) -> Result<String, AllocError> {
    let mut text = String::from_str(alloc, base)?;
    for name in names {
        text.push(',')?;
        text.push_str(name.as_str())?;
    }
    Ok(text)
}

fn task(alloc: Global, text: &str) -> Result<String, AllocError> {
    match task_of(alloc, &words(alloc, text)?) {
        Ok(Task::Generated(count)) => format!(in alloc; "{count}"),
        Ok(Task::Page { base, names }) => page(alloc, base.as_str(), &names),
        Err(TaskStop::Usage) => String::from_str(alloc, "usage"),
        Err(TaskStop::Memory) => String::from_str(alloc, "memory"),
    }
}

fn stopped(alloc: Global, stop: ReadStop) -> Result<String, AllocError> {
    String::from_str(
        alloc,
        match stop {
            ReadStop::Fault => "fault",
            ReadStop::TooLong => "too long",
            ReadStop::Memory => "memory",
        },
    )
}

fn read(alloc: Global, given: &str) -> Result<String, AllocError> {
    let (text, rest) = given.split_once(' ').unwrap_or((given, ""));
    let (piece, failing) = rest.split_once(' ').unwrap_or((rest, ""));
    let bytes = text.as_bytes().to_vec(alloc)?;
    let failing = numbers(alloc, failing)?;
    let mut source = MemSource::new(bytes, usize::max(number(piece), 1), failing);
    match read_all(alloc, &mut source) {
        Ok(bytes) => String::from_str(alloc, str::from_utf8(&bytes).unwrap_or("no text")),
        Err(stop) => stopped(alloc, stop),
    }
}

fn size(alloc: Global, count: usize) -> Result<String, AllocError> {
    let mut bytes = Vec::new(alloc);
    bytes.resize(count, b' ')?;
    let mut source = MemSource::new(bytes, 65_536, Vec::new(alloc));
    match read_all(alloc, &mut source) {
        Ok(all) => format!(in alloc; "{}", all.len()),
        Err(stop) => stopped(alloc, stop),
    }
}

fn answer(alloc: Global, call: &str, given: &str) -> Result<String, AllocError> {
    match call {
        "split" => split(alloc, given),
        "without_cr" => String::from_str(alloc, without_cr(given)),
        "task" => task(alloc, given),
        "read" => read(alloc, given),
        "size" => size(alloc, number(given)),
        _ => String::from_str(alloc, "no call"),
    }
}

// The first row that does not hold, and what is answered; an empty text where all hold.
fn first_wrong(alloc: Global, call: &str, rows: &str) -> Result<String, AllocError> {
    for row in rows.split(";\n") {
        let (given, want) = row.split_once('|').unwrap_or((row, "no answer"));
        let answer = answer(alloc, call, given)?;
        if answer.as_str() != want {
            return format!(in alloc; "{row}: {}", answer.as_str());
        }
    }
    Ok(String::new(alloc))
}

#[test]
fn texts_and_words(rt: HostRuntime) -> Result<(), Fail> {
    let calls = [("split", TEXTS), ("without_cr", LINES), ("task", WORDS)];
    for (call, rows) in calls {
        assert_eq!(rt; first_wrong(rt.alloc(), call, rows)?.as_str(), "");
    }
    Ok(())
}

#[test]
fn readings(rt: HostRuntime) -> Result<(), Fail> {
    for (call, rows) in [("read", READINGS), ("size", SIZES)] {
        assert_eq!(rt; first_wrong(rt.alloc(), call, rows)?.as_str(), "");
    }
    Ok(())
}
