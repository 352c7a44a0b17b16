// The outcomes of submissions with files.
ghost use Rattle.std.specs.Prelude.{◌≡◌, ◌<◌};

use crate::pages::{bounds_of, choose, opened};
use crate::shown::{Asked, shown};
use form_judge::Steps;
use form_page::Page;
use form_ports::{Blob, Got, MemBlob};
use form_tree::Key;
use std::alloc::{AllocError, Global};
use std::sync::ledger::{Blank, Ledger};

const PAGE: &str =
    "<form method=\"post\" enctype=\"multipart/form-data\"><input type=\"file\" name=\"f\" multiple></form>";

// The numbers of the files of the input, the boundaries, and the outcome, with a tab between each two. The
// files are `hi` and `--B`, with the names `hi.txt` and `b`.
const OUTCOMES: &str = "\
    1\tB\trequest POST https://example.com/a?x#f|type multipart/form-data; boundary=B|data 119|--B^|Content-Disposition: form-data; name=\"f\"; filename=\"hi.txt\"^|Content-Type: application/octet-stream^|^|hi^|--B--^||end|\n\
    2\tB\tnone clash\n\
    2 1\tB C\trequest POST https://example.com/a?x#f|type multipart/form-data; boundary=C|data 227|--C^|Content-Disposition: form-data; name=\"f\"; filename=\"b\"^|Content-Type: application/octet-stream^|^|--B^|--C^|Content-Disposition: form-data; name=\"f\"; filename=\"hi.txt\"^|Content-Type: application/octet-stream^|^|hi^|--C--^||end|\n\
    1 1\tB\trequest POST https://example.com/a?x#f|type multipart/form-data; boundary=B|data 231|--B^|Content-Disposition: form-data; name=\"f\"; filename=\"hi.txt\"^|Content-Type: application/octet-stream^|^|hi^|--B^|Content-Disposition: form-data; name=\"f\"; filename=\"hi.txt\"^|Content-Type: application/octet-stream^|^|hi^|--B--^||end|\n\
    3\tB\tno such row\n\
    ";

const ASKED: Asked = Asked {
    form: Key(1),
    submitter: None,
    check: true,
};

// The outcome of the page with the files `hi` and `--B`, of the first of which the calls of these numbers fail.
fn outcome(
    alloc: Global,
    page: &Page,
    bounds: &str,
    fail: Vec<usize>,
) -> Result<String, AllocError> {
    let mut shelf: Vec<Option<Box<dyn Blob>>> = Vec::new(alloc);
    shelf.push(Some(Box::new(alloc, MemBlob::new(b"hi".to_vec(alloc)?, 1, fail))?))?;
    shelf.push(Some(Box::new(
        alloc,
        MemBlob::new(b"--B".to_vec(alloc)?, 2, Vec::new(alloc)),
    )?))?;
    let bounds = bounds_of(alloc, bounds)?;
    let outcome = shown(alloc, page, ASKED, &bounds, &mut shelf, true)?;
    if shelf.len() != 2 || !shelf.iter().all(|file| file.is_some()) {
        return String::from_str(alloc, "a file is gone");
    }
    Ok(outcome)
}

// The page whose input has the files of these numbers.
fn page_of<L: Ledger>(alloc: Global, numbers: &str, steps: &mut Steps<L>) -> Option<Page> {
    let mut page = opened(alloc, PAGE, steps)?;
    let mut files = Vec::new(alloc);
    for number in numbers.split(' ') {
        let Ok(number) = number.parse::<u32>() else {
            return None;
        };
        files.push(number).ok()?;
    }
    choose(alloc, &mut page, Key(2), &files, steps).ok()?;
    Some(page)
}

// Whether a row holds.
fn holds<L: Ledger>(alloc: Global, row: &str, steps: &mut Steps<L>) -> bool {
    let Some((numbers, row)) = row.split_once('\t') else {
        return false;
    };
    let (Some((bounds, want)), Some(page)) = (row.split_once('\t'), page_of(alloc, numbers, steps))
    else {
        return false;
    };
    match outcome(alloc, &page, bounds, Vec::new(alloc)) {
        Ok(outcome) => outcome.as_str() == want,
        Err(_) => false,
    }
}

// The number of the first row that does not hold, from 1; 0 where all hold.
fn first_wrong<L: Ledger>(blank: Blank, alloc: Global) -> u32
    requires name { blank.name ≡ L.name }
    requires parts { blank.parts ≡ L.parts }
    requires some { 0 < blank.parts }
{
    let mut steps = Steps::<L>::new(blank);
    let mut number = 0u32;
    for row in OUTCOMES.lines() {
        number = number.saturating_add(1);
        if !holds(alloc, row, &mut steps) {
            return number;
        }
    }
    0
}

#[test]
fn outcomes_of_files(rt: HostRuntime) {
    let wrong = first_wrong::<std::marker::Brand>(Blank::new(1), rt.alloc());
    assert_eq!(rt; wrong, 0);
}

// Whether the outcome where that call of the first file fails is the fault of a file.
fn is_fault(alloc: Global, page: &Page, call: usize) -> Option<bool> {
    let fail = vec![in alloc; call].ok()?;
    let outcome = outcome(alloc, page, "B", fail).ok()?;
    Some(outcome.as_str() == "blob")
}

// The first of nine calls that is not answered as it should be, where it alone fails; 0 where each is. When it
// is scanned the file has a rewind, two reads of a byte, and one that finds the end; then it is written.
fn first_unseen<L: Ledger>(blank: Blank, alloc: Global) -> usize
    requires name { blank.name ≡ L.name }
    requires parts { blank.parts ≡ L.parts }
    requires some { 0 < blank.parts }
{
    let mut steps = Steps::<L>::new(blank);
    let Some(page) = page_of(alloc, "1", &mut steps) else {
        return 9;
    };
    for call in 1usize..9 {
        if is_fault(alloc, &page, call) != Some(call <= 4) {
            return call;
        }
    }
    0
}

#[test]
fn each_call_of_a_file_fails_in_turn(rt: HostRuntime) {
    let wrong = first_unseen::<std::marker::Brand>(Blank::new(1), rt.alloc());
    assert_eq!(rt; wrong, 0);
}

// The outcome with a file `b` of so many bytes, and how many bytes of it were not read, up to 2.
fn large(alloc: Global, page: &Page, size: usize) -> Result<(String, usize), AllocError> {
    let mut shelf: Vec<Option<Box<dyn Blob>>> = Vec::new(alloc);
    shelf.push(None)?;
    shelf.push(Some(Box::new(
        alloc,
        MemBlob::new(vec![in alloc; b'x'; size]?, 65_536, Vec::new(alloc)),
    )?))?;
    let bounds = bounds_of(alloc, "B")?;
    let outcome = shown(alloc, page, ASKED, &bounds, &mut shelf, false)?;
    let mut room = [0u8; 2];
    match shelf.get_mut(1) {
        Some(Some(file)) => match file.read(&mut room) {
            Got::Bytes(count) => Ok((outcome, count)),
            Got::End | Got::Failed => Ok((outcome, 0)),
        },
        Some(None) | None => Ok((outcome, 2)),
    }
}

fn is_large(alloc: Global, page: &Page, size: usize, want: &str, left: usize) -> bool {
    match large(alloc, page, size) {
        Ok((outcome, count)) => outcome.as_str() == want && count == left,
        Err(_) => false,
    }
}

// Whether files below, at and past the limit are answered so: the names of the input and of the file have a
// byte each, so that 67,108,862 bytes are left for the file. Reading stops at the byte that passes.
fn is_limit<L: Ledger>(blank: Blank, alloc: Global) -> bool
    requires name { blank.name ≡ L.name }
    requires parts { blank.parts ≡ L.parts }
    requires some { 0 < blank.parts }
{
    let mut steps = Steps::<L>::new(blank);
    let Some(page) = page_of(alloc, "2", &mut steps) else {
        return false;
    };
    is_large(alloc, &page, 67_108_861, "request", 0)
        && is_large(alloc, &page, 67_108_862, "request", 0)
        && is_large(alloc, &page, 67_108_863, "none long", 0)
        && is_large(alloc, &page, 67_108_864, "none long", 1)
}

#[test]
fn a_file_at_the_limit(rt: HostRuntime) {
    let is_limit = is_limit::<std::marker::Brand>(Blank::new(1), rt.alloc());
    assert_eq!(rt; is_limit, true);
}
