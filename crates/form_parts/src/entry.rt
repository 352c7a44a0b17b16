// The part of one entry.
ghost use Rattle.std.specs.Prelude.{◌≡◌, ℕ, ◌<◌, ◌-◌, ◌^◌, IfOk, All, Contains};
ghost use Rattle.form_ports.specs.Shelf.{contents_of, numbers_of, at_number, IsThere, NoneFell, SomeRose};
ghost use Rattle.form_parts.specs.Parts.{given_number, file_size, FedText, FedPart, FileLonger};

use crate::file::scan_numbered;
use crate::parts::PartsStop;
use form_encode::{Given, Scan};
use form_ports::Blob;
use form_text::normalise_crlf;
use std::alloc::{AllocError, Global};

// Feeds a text to the scan, with its line ends made CR LF, and gives how many bytes it has then.
fn scan_text(alloc: Global, text: &str, scan: &mut Scan) -> Result<u64, AllocError>
    ensures { IfOk result (λ size. FedText text.now size scan.old scan.new) }
{
    let text = normalise_crlf(alloc, text)?;
    scan.feed(text.as_bytes());
    Ok(text.len() as u64)
}

/// Feeds the part of an entry with that value to the scan, and gives how many bytes it has. A file's
/// are at most `most`.
pub fn scan_part(
    alloc: Global,
    value: &Given,
    scan: &mut Scan,
    shelf: &mut Vec<Option<Box<dyn Blob>>>,
    most: u64,
) -> Result<u64, PartsStop>
    requires there { All (λ number. IsThere (contents_of (λ b. content b) shelf.old.items) number)
        (given_number value.now) }
    requires most { most < 2 ^ 64 - 1 }
    ensures kept { contents_of (λ b. content b) shelf.new.items ≡ contents_of (λ b. content b) shelf.old.items }
    ensures counts { NoneFell (numbers_of (λ b. faults b) shelf.old.items)
        (numbers_of (λ b. faults b) shelf.new.items) }
    ensures others { (k : ℕ) → ¬ (Contains (given_number value.now) k)
        → at_number shelf.new.items k ≡ at_number shelf.old.items k }
    ensures part { IfOk result (λ size. FedPart (contents_of (λ b. content b) shelf.old.items)
        (numbers_of (λ b. position b) shelf.new.items) value.now most size scan.old scan.new) }
    ensures past { result ≡ Err PartsStop.Long → FileLonger (contents_of (λ b. content b) shelf.old.items)
        (numbers_of (λ b. position b) shelf.new.items) (given_number value.now) most }
    ensures fault { result ≡ Err PartsStop.Fault → SomeRose (given_number value.now)
        (numbers_of (λ b. faults b) shelf.old.items) (numbers_of (λ b. faults b) shelf.new.items) }
{
    match value {
        Given::Text(text) => match scan_text(alloc, text.as_str(), scan) {
            Ok(size) => Ok(size),
            Err(_) => Err(PartsStop::Memory),
        },
        Given::File {
            number: Some(number),
            ..
        } => scan_numbered(shelf, *number, scan, most),
        Given::File { number: None, .. } => Ok(0),
    }
}

/// How many bytes of a part of that size are a file's.
pub fn file_size(value: &Given, size: u64) -> u64
    ensures { result ≡ file_size value.now size }
{
    match value {
        Given::File {
            number: Some(_),
            ..
        } => size,
        Given::File { number: None, .. } | Given::Text(_) => 0,
    }
}
