//! The program: its words, a file for each word that names one, standard input and standard output,
//! and one call of `run`.
//!
//! What it writes to standard output is proved of `run`; which line and which exit status an ending
//! has is proved of `Ending`; that the files are those of the words is a condition of `run`, which
//! `main` is proved to meet. What stands here alone is only tested, by the stored run and by
//! tools/check-endings: the words of the command line, that a file's path is its word, and that the
//! line goes to standard error.
#![tactic(auto)]

mod ending;

ghost use Rattle.std.specs.Prelude.{◌≡◌, map, string_bytes};
ghost use Rattle.std.specs.Process.{exit_status};
ghost use Rattle.form_input.specs.Words.{file_words};
ghost use Rattle.form_lab.specs.Ending.{exit_code_of};

use crate::ending::Ending;
use form_ports::{Blob, LazyFile, StdSink, StdSource};
use form_run::{Status, run};
use std::alloc::AllocError;
use std::process::ExitCode;
use std::{env, io};

/// The most files: each has a number of its own.
const MOST_FILES: usize = 4_294_967_295;

// The words behind the program's own name, or how the program ends without them.
fn words(rt: &HostRuntime) -> Result<Vec<String>, Ending> {
    let all = match env::args(rt) {
        Ok(all) => all,
        Err(error) if error.kind() == io::ErrorKind::OutOfMemory => {
            return Err(Ending::Ran(Status::Memory));
        }
        Err(_) => return Err(Ending::NoWords),
    };
    let mut words = Vec::new(rt.alloc());
    for word in all.skip(1) {
        if words.push(word).is_err() {
            return Err(Ending::Ran(Status::Memory));
        }
    }
    Ok(words)
}

// The words that name files: all but the first.
fn file_words(words: &[String]) -> &[String]
    ensures { map string_bytes result.now ≡ file_words (map string_bytes words.now) }
{
    match words {
        [_, files @ ..] => files,
        [] => words,
    }
}

// The file of that path, which is not opened yet.
fn file_of(rt: HostRuntime, path: &str) -> Result<Box<LazyFile<HostRuntime>>, AllocError> {
    let path = String::from_str(rt.alloc(), path)?;
    let file = Box::new(rt.alloc(), LazyFile::new(rt, path))?;
    Ok(file)
}

// Says how the program ends, and ends so.
fn finish(rt: &HostRuntime, ending: &Ending) -> ExitCode
    ensures { exit_status result ≡ exit_code_of ending.now }
{
    if let Some(line) = ending.line() {
        let _ = eprintln!(rt; "{}", line);
    }
    ending.exit_code()
}

fn main(rt: HostRuntime) -> ExitCode {
    let words = match words(&rt) {
        Ok(words) => words,
        Err(ending) => return finish(&rt, &ending),
    };
    let paths = file_words(&words);
    if paths.len() > MOST_FILES {
        return finish(&rt, &Ending::Ran(Status::Memory));
    }
    let mut shelf: Vec<Option<Box<dyn Blob>>> = Vec::new(rt.alloc());
    for path in paths {
        let file: Box<dyn Blob> = match file_of(rt, path.as_str()) {
            Ok(file) => file,
            Err(_) => return finish(&rt, &Ending::Ran(Status::Memory)),
        };
        if shelf.push(Some(file)).is_err() {
            return finish(&rt, &Ending::Ran(Status::Memory));
        }
    }
    let mut source = StdSource::new(rt);
    let mut sink = StdSink::new(rt);
    let status = run(rt.alloc(), &words, &mut source, &mut sink, &mut shelf);
    finish(&rt, &Ending::Ran(status))
}
