// A run over objects in memory, without files.
use form_ports::{Blob, MemSink, MemSource};
use form_run::{Status, run};
use std::alloc::{AllocError, Global};

// A form, a text field, an image button, a text area, a checkbox, a select and its option.
const PAGE: &str =
    "<form><input><input type=\"image\"><textarea></textarea><input type=\"checkbox\"><select><option>a</option></select></form>";

/// The end of a run over that input, and what is written.
pub fn run_over(alloc: Global, input: &[u8]) -> Result<(Status, String), AllocError> {
    let words = vec![in alloc; String::from_str(alloc, "https://example.com/a?x#f")?]?;
    let mut shelf: Vec<Option<Box<dyn Blob>>> = Vec::new(alloc);
    let mut source = MemSource::new(input.to_vec(alloc)?, 65_536, Vec::new(alloc));
    let mut sink = MemSink::new(alloc, 65_536, 65_536, Vec::new(alloc))?;
    let status = run(alloc, &words, &mut source, &mut sink, &mut shelf);
    let written = str::from_utf8(sink.bytes()).unwrap_or("no text");
    Ok((status, String::from_str(alloc, written)?))
}

/// What a run over the page and that line writes behind the line of the page, where it ends with Done.
pub fn reply_to(alloc: Global, line: &str) -> Result<String, AllocError> {
    let input = format!(in alloc; "{PAGE}\n%script\n{line}\n")?;
    let (status, written) = run_over(alloc, input.as_str().as_bytes())?;
    match written.as_str().split_once('\n') {
        Some(("page 7", reply)) if status == Status::Done => String::from_str(alloc, reply),
        _ => String::from_str(alloc, "another end"),
    }
}
