// A submission's outcome as text.
ghost use Rattle.std.specs.Prelude.{◌≡◌};

use crate::files::has_files;
use form_page::Page;
use form_ports::{Blob, MemSink};
use form_submit::{Outcome, SubmitFault, Why, submit, write_request};
use form_tree::Key;
use std::alloc::{AllocError, Global};
use std::str::from_utf8;
use url::Url;

// The URL of the document.
const BASE: &str = "https://example.com/a?x#f";

// The most bytes of a request that is shown.
const ROOM: usize = 65_536;

// What is submitted: the form, the submitter, and whether the form is validated.
#[derive(Clone, Copy)]
pub struct Asked {
    pub form: Key,
    pub submitter: Option<Key>,
    pub check: bool,
}

// A text with `|` for each line feed and `^` for each carriage return.
fn marked(alloc: Global, bytes: &[u8]) -> Result<String, AllocError> {
    let Ok(text) = from_utf8(bytes) else {
        return String::from_str(alloc, "not UTF-8");
    };
    let mut out = String::new(alloc);
    for c in text.chars() {
        out.push(match c {
            '\n' => '|',
            '\r' => '^',
            c => c,
        })?;
    }
    Ok(out)
}

fn word(why: Why) -> &'static str {
    match why {
        Why::Dialog => "none dialog",
        Why::Action => "none action",
        Why::Scheme => "none scheme",
        Why::Long => "none long",
        Why::Clash => "none clash",
    }
}

fn stopped(alloc: Global, keys: &[Key]) -> Result<String, AllocError> {
    let mut out = String::from_str(alloc, "stopped")?;
    for key in keys {
        let one = format!(in alloc; " {}", key.0)?;
        out.push_str(one.as_str())?;
    }
    Ok(out)
}

// The outcome of a submission where an image button is clicked at (4, 5), and the request as it is
// written, if there is one and if it is to be written.
pub fn shown(
    alloc: Global,
    page: &Page,
    asked: Asked,
    bounds: &[String],
    shelf: &mut Vec<Option<Box<dyn Blob>>>,
    is_written: bool,
) -> Result<String, AllocError> {
    let Ok(base) = Url::parse(alloc, BASE) else {
        return Err(AllocError);
    };
    if !bounds.iter().all(|bound| bound.as_str().len() <= 70) || !has_files(shelf, page) {
        return String::from_str(alloc, "no such row");
    }
    match submit(
        alloc,
        page,
        &base,
        asked.form,
        asked.submitter,
        asked.check,
        (4, 5),
        bounds,
        shelf,
    ) {
        Ok(Outcome::Stopped(keys)) => stopped(alloc, keys.as_slice()),
        Ok(Outcome::NoRequest(why)) => String::from_str(alloc, word(why)),
        Ok(Outcome::Request(request)) => {
            if !is_written {
                return String::from_str(alloc, "request");
            }
            let mut sink = MemSink::new(alloc, ROOM, 100, Vec::new(alloc))?;
            match write_request(&request, shelf, &mut sink) {
                Ok(()) => marked(alloc, sink.bytes()),
                Err(_) => String::from_str(alloc, "not written"),
            }
        }
        Err(SubmitFault::Blob) => String::from_str(alloc, "blob"),
        Err(SubmitFault::Memory) => Err(AllocError),
    }
}
