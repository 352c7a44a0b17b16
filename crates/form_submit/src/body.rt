// A body, piece by piece.
ghost use Rattle.std.specs.Prelude.{◌≡◌, ◌≢◌, ℕ, ◌∷◌, [], ◌-◌, ◌≤◌, ◌<◌, ◌^◌, length, IfErr, IfSome, OnOk, All, Contains, Some};
ghost use Rattle.form_ports.specs.Ports.{Rose};
ghost use Rattle.form_ports.specs.Shelf.{contents_of, numbers_of, at_number, IsThere, told, NoneFell, LastSizes};
ghost use Rattle.form_submit.specs.PrintedRequest.{IsReady, file_numbers, file_sizes};
ghost use Rattle.form_submit.specs.Sending.{FileGathers, FilePart, NumberCause, PieceGathers, PiecePart, BodyCause, WroteBody, WroteBodyPart};

use crate::file::send_file;
use crate::gatherer::Gatherer;
use crate::request::{Piece, SendFault};
use form_ports::{Blob, Sink};

// Gathers the file of that number, which has so many bytes.
fn send_numbered<K: Sink>(
    shelf: &mut Vec<Option<Box<dyn Blob>>>,
    number: u32,
    size: u64,
    gatherer: &mut Gatherer,
    sink: &mut K,
) -> Result<(), SendFault>
    requires there { IsThere (contents_of (λ b. content b) shelf.old.items) number }
    requires size { size < 2 ^ 64 - 1 }
    requires told { IfSome (told (contents_of (λ b. content b) shelf.old.items) number) (λ all. length all ≡ size) }
    ensures kept { contents_of (λ b. content b) shelf.new.items ≡ contents_of (λ b. content b) shelf.old.items }
    ensures counts { NoneFell (numbers_of (λ b. (⟦<dyn Blob as Blob>⟧ b.vtable).faults b.value) shelf.old.items)
        (numbers_of (λ b. (⟦<dyn Blob as Blob>⟧ b.vtable).faults b.value) shelf.new.items) }
    ensures others { (k : ℕ) → k ≢ number → at_number shelf.new.items k ≡ at_number shelf.old.items k }
    ensures gathers { OnOk result (FileGathers (told (contents_of (λ b. content b) shelf.old.items) number) size
        (K.written sink.old) (K.written sink.new) gatherer.old gatherer.new) }
    ensures position { OnOk result (at_number (numbers_of (λ b. position b) shelf.new.items) number ≡ Some (Some size)) }
    ensures part { FilePart (told (contents_of (λ b. content b) shelf.old.items) number) size
        (K.written sink.old) (K.written sink.new) gatherer.old }
    ensures cause { IfErr result (λ fault. NumberCause fault
        (told (contents_of (λ b. content b) shelf.old.items) number) number size
        (numbers_of (λ b. position b) shelf.new.items) (Rose (K.faults sink.old) (K.faults sink.new))
        (numbers_of (λ b. (⟦<dyn Blob as Blob>⟧ b.vtable).faults b.value) shelf.old.items)
        (numbers_of (λ b. (⟦<dyn Blob as Blob>⟧ b.vtable).faults b.value) shelf.new.items)) }
    ensures sink_later { K.faults sink.old ≤ K.faults sink.new }
{
    match &mut shelf[number as usize - 1] {
        Some(blob) => send_file(blob, size, gatherer, sink),
        None => unreachable!(),
    }
}

// Gathers one piece of a body.
fn send_piece<K: Sink>(
    piece: &Piece,
    shelf: &mut Vec<Option<Box<dyn Blob>>>,
    gatherer: &mut Gatherer,
    sink: &mut K,
) -> Result<(), SendFault>
    requires ready { IsReady (contents_of (λ b. content b) shelf.old.items) piece.now }
    ensures kept { contents_of (λ b. content b) shelf.new.items ≡ contents_of (λ b. content b) shelf.old.items }
    ensures counts { NoneFell (numbers_of (λ b. (⟦<dyn Blob as Blob>⟧ b.vtable).faults b.value) shelf.old.items)
        (numbers_of (λ b. (⟦<dyn Blob as Blob>⟧ b.vtable).faults b.value) shelf.new.items) }
    ensures others { (k : ℕ) → ¬ (Contains (file_numbers (piece.now ∷ [])) k)
        → at_number shelf.new.items k ≡ at_number shelf.old.items k }
    ensures gathers { OnOk result (PieceGathers (contents_of (λ b. content b) shelf.old.items) piece.now
        (K.written sink.old) (K.written sink.new) gatherer.old gatherer.new) }
    ensures position { OnOk result (LastSizes (numbers_of (λ b. position b) shelf.new.items)
        (file_numbers (piece.now ∷ [])) (file_sizes (piece.now ∷ []))) }
    ensures part { PiecePart (contents_of (λ b. content b) shelf.old.items) piece.now
        (K.written sink.old) (K.written sink.new) gatherer.old }
    ensures cause { IfErr result (λ fault. BodyCause fault (contents_of (λ b. content b) shelf.old.items)
        (numbers_of (λ b. position b) shelf.new.items) (piece.now ∷ []) (Rose (K.faults sink.old) (K.faults sink.new))
        (numbers_of (λ b. (⟦<dyn Blob as Blob>⟧ b.vtable).faults b.value) shelf.old.items)
        (numbers_of (λ b. (⟦<dyn Blob as Blob>⟧ b.vtable).faults b.value) shelf.new.items)) }
    ensures sink_later { K.faults sink.old ≤ K.faults sink.new }
{
    match piece {
        Piece::Bytes(bytes) => match gatherer.take(sink, bytes.as_slice()) {
            Ok(()) => Ok(()),
            Err(_) => Err(SendFault::Sink),
        },
        Piece::File { number, size } => send_numbered(shelf, *number, *size, gatherer, sink),
    }
}

/// Prints a body: its bytes in pieces, and its end.
pub fn send_body<K: Sink>(
    pieces: &[Piece],
    shelf: &mut Vec<Option<Box<dyn Blob>>>,
    sink: &mut K,
) -> Result<(), SendFault>
    requires ready { All (λ piece. IsReady (contents_of (λ b. content b) shelf.old.items) piece) pieces.now }
    ensures kept { contents_of (λ b. content b) shelf.new.items ≡ contents_of (λ b. content b) shelf.old.items }
    ensures counts { NoneFell (numbers_of (λ b. (⟦<dyn Blob as Blob>⟧ b.vtable).faults b.value) shelf.old.items)
        (numbers_of (λ b. (⟦<dyn Blob as Blob>⟧ b.vtable).faults b.value) shelf.new.items) }
    ensures others { (k : ℕ) → ¬ (Contains (file_numbers pieces.now) k)
        → at_number shelf.new.items k ≡ at_number shelf.old.items k }
    ensures whole { OnOk result (WroteBody (contents_of (λ b. content b) shelf.old.items) pieces.now
        (K.written sink.old) (K.written sink.new)) }
    ensures position { OnOk result (LastSizes (numbers_of (λ b. position b) shelf.new.items)
        (file_numbers pieces.now) (file_sizes pieces.now)) }
    ensures part { WroteBodyPart (contents_of (λ b. content b) shelf.old.items) pieces.now
        (K.written sink.old) (K.written sink.new) }
    ensures cause { IfErr result (λ fault. BodyCause fault (contents_of (λ b. content b) shelf.old.items)
        (numbers_of (λ b. position b) shelf.new.items) pieces.now (Rose (K.faults sink.old) (K.faults sink.new))
        (numbers_of (λ b. (⟦<dyn Blob as Blob>⟧ b.vtable).faults b.value) shelf.old.items)
        (numbers_of (λ b. (⟦<dyn Blob as Blob>⟧ b.vtable).faults b.value) shelf.new.items)) }
    ensures sink_later { K.faults sink.old ≤ K.faults sink.new }
{
    let mut gatherer = Gatherer::new();
    'sending: for piece in pieces {
        match send_piece(piece, shelf, &mut gatherer, sink) {
            Ok(()) => {}
            Err(fault) => return Err(fault),
        }
    }
    match gatherer.finish(sink) {
        Ok(()) => Ok(()),
        Err(_) => Err(SendFault::Sink),
    }
}
