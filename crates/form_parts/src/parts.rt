// The parts of all entries.
ghost use Rattle.std.specs.Prelude.{◌≡◌, ℕ, ◌<◌, ◌≤◌, ◌-◌, ◌^◌, length, IfOk, All, Contains, map, string_bytes};
ghost use Rattle.form_ports.specs.Shelf.{contents_of, numbers_of, at_number, IsThere, NoneFell, SomeRose, Passes};
ghost use Rattle.form_encode.specs.Boundaries.{longest_boundary};
ghost use Rattle.form_parts.specs.Parts.{file_numbers, FedEntries, HasParts, StopsPast};

use crate::entry::{file_size, scan_part};
use form_encode::{Entry, Scan};
use form_ports::Blob;
use form_text::Sequence;
use std::alloc::Global;

/// What is known of the parts of a multipart body once their bytes have passed by.
#[derive(Debug, Drop)]
pub struct Parts {
    /// How many bytes the part of each entry has, in order.
    pub sizes: Sequence<u64>,
    /// The place of the first boundary, from 0, whose delimiter stands in no part, if there is one.
    pub boundary: Option<usize>,
}

/// Why the parts were not read to their end.
#[derive(Clone, Copy, Debug, PartialEq, Eq)]
pub enum PartsStop {
    /// A file failed.
    Fault,
    /// The files have more bytes than they may have.
    Long,
    /// There is no memory, for the sizes or for a text with its line ends made CR LF.
    Memory,
}

// Feeds the parts of the entries to the scan, each as a part of its own, and gives how many bytes each
// has. The files' are at most `most` together; at the byte that passes that no later file is read.
fn scan_entries(
    alloc: Global,
    entries: &[Entry],
    scan: &mut Scan,
    shelf: &mut Vec<Option<Box<dyn Blob>>>,
    most: u64,
) -> Result<Sequence<u64>, PartsStop>
    requires there { All (λ number. IsThere (contents_of (λ b. content b) shelf.old.items) number)
        (file_numbers entries.now) }
    requires most { most < 2 ^ 64 - 1 }
    ensures kept { contents_of (λ b. content b) shelf.new.items ≡ contents_of (λ b. content b) shelf.old.items }
    ensures counts { NoneFell (numbers_of (λ b. faults b) shelf.old.items)
        (numbers_of (λ b. faults b) shelf.new.items) }
    ensures others { (k : ℕ) → ¬ (Contains (file_numbers entries.now) k)
        → at_number shelf.new.items k ≡ at_number shelf.old.items k }
    ensures parts { IfOk result (λ sizes. FedEntries (contents_of (λ b. content b) shelf.old.items)
        (numbers_of (λ b. position b) shelf.new.items) entries.now most sizes scan.old scan.new) }
    ensures stops { result ≡ Err PartsStop.Long → StopsPast (contents_of (λ b. content b) shelf.old.items)
        (numbers_of (λ b. position b) shelf.new.items) (file_numbers entries.now) most shelf.old.items shelf.new.items }
    ensures fault { result ≡ Err PartsStop.Fault → SomeRose (file_numbers entries.now)
        (numbers_of (λ b. faults b) shelf.old.items) (numbers_of (λ b. faults b) shelf.new.items) }
{
    let mut sizes = Sequence::new(alloc);
    let mut left = most;
    'scanning: for entry in entries {
        match scan_part(alloc, &entry.value, scan, shelf, left) {
            Ok(size) => {
                scan.end_part();
                left -= file_size(&entry.value, size);
                match sizes.push(size) {
                    Ok(()) => {}
                    Err(_) => return Err(PartsStop::Memory),
                }
            }
            Err(stop) => return Err(stop),
        }
    }
    Ok(sizes)
}

/// Reads the parts of a multipart body of these entries (HTML, "Multipart form data"), and finds how
/// long they are and which boundary, of at most 70 bytes each (RFC 2046, "Common Syntax"), stands in
/// none of them. The part of an entry with a text is the text with its line ends made CR LF; that of
/// an entry with a file are the file's bytes; that of the empty file has none.
///
/// Files are rewound and read in entry order. They may have `most` bytes together: at the byte that
/// passes that no later file is read.
pub fn read_parts(
    alloc: Global,
    entries: &[Entry],
    bounds: &[String],
    shelf: &mut Vec<Option<Box<dyn Blob>>>,
    most: u64,
) -> Result<Parts, PartsStop>
    requires there { All (λ number. IsThere (contents_of (λ b. content b) shelf.old.items) number)
        (file_numbers entries.now) }
    requires bounds { All (λ boundary. length (string_bytes boundary) ≤ longest_boundary) bounds.now }
    requires most { most < 2 ^ 64 - 1 }
    ensures kept { contents_of (λ b. content b) shelf.new.items ≡ contents_of (λ b. content b) shelf.old.items }
    ensures counts { NoneFell (numbers_of (λ b. faults b) shelf.old.items)
        (numbers_of (λ b. faults b) shelf.new.items) }
    ensures others { (k : ℕ) → ¬ (Contains (file_numbers entries.now) k)
        → at_number shelf.new.items k ≡ at_number shelf.old.items k }
    ensures parts { IfOk result (λ parts. HasParts (contents_of (λ b. content b) shelf.old.items)
        (numbers_of (λ b. position b) shelf.new.items) entries.now (map string_bytes bounds.now) most parts) }
    ensures past { result ≡ Err PartsStop.Long → Passes (contents_of (λ b. content b) shelf.old.items)
        (numbers_of (λ b. position b) shelf.new.items) (file_numbers entries.now) most }
    ensures stops { result ≡ Err PartsStop.Long → StopsPast (contents_of (λ b. content b) shelf.old.items)
        (numbers_of (λ b. position b) shelf.new.items) (file_numbers entries.now) most shelf.old.items shelf.new.items }
    ensures fault { result ≡ Err PartsStop.Fault → SomeRose (file_numbers entries.now)
        (numbers_of (λ b. faults b) shelf.old.items) (numbers_of (λ b. faults b) shelf.new.items) }
{
    let mut scan = match Scan::new(alloc, bounds) {
        Ok(scan) => scan,
        Err(_) => return Err(PartsStop::Memory),
    };
    match scan_entries(alloc, entries, &mut scan, shelf, most) {
        Ok(sizes) => Ok(Parts {
            sizes,
            boundary: scan.free(),
        }),
        Err(stop) => Err(stop),
    }
}
