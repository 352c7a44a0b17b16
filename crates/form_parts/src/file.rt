// The bytes of a file, fed to a scan as they are read.
ghost use Rattle.std.specs.Prelude.{◌≡◌, ◌≢◌, ℕ, ◌<◌, ◌≤◌, ◌+◌, ◌-◌, ◌^◌, length, IfOk, IfSome, Some};
ghost use Rattle.form_ports.specs.Ports.{Rose};
ghost use Rattle.form_ports.specs.Shelf.{contents_of, numbers_of, at_number, IsThere, told, NoneFell, FileRose};
ghost use Rattle.form_parts.specs.Parts.{FedFile};

use crate::parts::PartsStop;
use form_encode::Scan;
use form_ports::{Blob, Got, Rewound, read_front, rewind};

// How many bytes are read at once.
const ROOM: usize = 16_384;

// Feeds all bytes of a file to the scan, where they are at most `most`, and gives how many they are.
// It reads up to one byte past that.
fn scan_file(blob: &mut Box<dyn Blob>, scan: &mut Scan, most: u64) -> Result<u64, PartsStop>
    requires { most < 2 ^ 64 - 1 }
    ensures same { content blob.new ≡ content blob.old }
    ensures fed { IfOk result (λ size. FedFile (content blob.old) size scan.old scan.new) }
    ensures size { IfOk result (λ size. size ≤ most) }
    ensures position { IfOk result (λ size. position blob.new ≡ size) }
    ensures long { result ≡ Err PartsStop.Long → position blob.new ≡ most + 1 }
    ensures longer { result ≡ Err PartsStop.Long → IfSome (content blob.old) (λ all. most < length all) }
    ensures fault { result ≡ Err PartsStop.Fault → Rose (faults blob.old) (faults blob.new) }
    ensures later { faults blob.old ≤ faults blob.new }
{
    match rewind(blob) {
        Rewound::Done => {}
        Rewound::Failed => return Err(PartsStop::Fault),
    }
    let mut room = [0u8; ROOM];
    let mut done = 0;
    'reading: while done <= most {
        let want = u64::min(ROOM as u64, most - done + 1) as usize;
        match read_front(blob, &mut room, want) {
            Got::Bytes(count) => {
                scan.feed(&room[..count]);
                done += count as u64;
            }
            Got::End => return Ok(done),
            Got::Failed => return Err(PartsStop::Fault),
        }
    }
    Err(PartsStop::Long)
}

/// Feeds all bytes of the file of that number to the scan, where they are at most `most`, and gives
/// how many they are.
pub fn scan_numbered(
    shelf: &mut Vec<Option<Box<dyn Blob>>>,
    number: u32,
    scan: &mut Scan,
    most: u64,
) -> Result<u64, PartsStop>
    requires there { IsThere (contents_of (λ b. content b) shelf.old.items) number }
    requires most { most < 2 ^ 64 - 1 }
    ensures kept { contents_of (λ b. content b) shelf.new.items ≡ contents_of (λ b. content b) shelf.old.items }
    ensures counts { NoneFell (numbers_of (λ b. faults b) shelf.old.items)
        (numbers_of (λ b. faults b) shelf.new.items) }
    ensures others { (k : ℕ) → k ≢ number → at_number shelf.new.items k ≡ at_number shelf.old.items k }
    ensures fed { IfOk result (λ size.
        FedFile (told (contents_of (λ b. content b) shelf.old.items) number) size scan.old scan.new) }
    ensures size { IfOk result (λ size. size ≤ most) }
    ensures position { IfOk result (λ size.
        at_number (numbers_of (λ b. position b) shelf.new.items) number ≡ Some (Some size)) }
    ensures past { result ≡ Err PartsStop.Long
        → at_number (numbers_of (λ b. position b) shelf.new.items) number ≡ Some (Some (most + 1)) }
    ensures longer { result ≡ Err PartsStop.Long
        → IfSome (told (contents_of (λ b. content b) shelf.old.items) number) (λ all. most < length all) }
    ensures fault { result ≡ Err PartsStop.Fault
        → FileRose number (numbers_of (λ b. faults b) shelf.old.items) (numbers_of (λ b. faults b) shelf.new.items) }
{
    match &mut shelf[number as usize - 1] {
        Some(blob) => scan_file(blob, scan, most),
        None => unreachable!(),
    }
}
