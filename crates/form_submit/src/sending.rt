// A whole request.
ghost use Rattle.std.specs.Prelude.{◌≡◌, ℕ, ◌≤◌, true, IsSome, IfErr, OnOk, OnErr, Contains};
ghost use Rattle.std.specs.Io.KnownBytes.{append_known};
ghost use Rattle.form_ports.specs.Ports.{Rose};
ghost use Rattle.form_ports.specs.Written.{WrotePart};
ghost use Rattle.form_ports.specs.Shelf.{contents_of, numbers_of, at_number, NoneFell, LastSizes};
ghost use Rattle.form_submit.specs.PrintedRequest.{IsSendable, file_numbers, file_sizes, get_head, post_head};
ghost use Rattle.form_submit.specs.Sending.{BodyCause, WroteRequest, WroteRequestPart};

use crate::body::send_body;
use crate::parts::write_parts;
use crate::request::{Request, SendFault};
use form_ports::{Blob, Sink, WriteFault};

// Writes the line of a request that sends no body.
fn write_get<K: Sink>(url: &[u8], sink: &mut K) -> Result<(), WriteFault>
    ensures whole { OnOk result (K.written sink.new ≡ append_known (K.written sink.old) (get_head url.now)) }
    ensures part { WrotePart (K.written sink.old) (K.written sink.new) (get_head url.now) }
    ensures fault { OnErr result (Rose (K.faults sink.old) (K.faults sink.new)) }
    ensures later { K.faults sink.old ≤ K.faults sink.new }
{
    write_parts(sink, &[b"request GET ", url, b"\n"])
}

// Writes the lines before a body.
fn write_post<K: Sink>(url: &[u8], kind: &[u8], sink: &mut K) -> Result<(), WriteFault>
    ensures whole { OnOk result (K.written sink.new ≡ append_known (K.written sink.old) (post_head url.now kind.now)) }
    ensures part { WrotePart (K.written sink.old) (K.written sink.new) (post_head url.now kind.now) }
    ensures fault { OnErr result (Rose (K.faults sink.old) (K.faults sink.new)) }
    ensures later { K.faults sink.old ≤ K.faults sink.new }
{
    write_parts(sink, &[b"request POST ", url, b"\ntype ", kind, b"\n"])
}

/// Writes a request in its printed form. It takes no memory and never holds a file: the body is gathered
/// in a buffer of 1,024 bytes, behind the lines of at most 64 pieces that are not written yet. Each file
/// that a piece names is rewound, read once more, and has to end after as many bytes as its piece says.
///
/// Of a POST request the kind is there, and so is each file that a piece names; where a file tells its
/// content, the size of its piece is that content's length. After a fault what was written is a front of
/// the printed request.
pub fn write_request<K: Sink>(
    request: &Request,
    shelf: &mut Vec<Option<Box<dyn Blob>>>,
    sink: &mut K,
) -> Result<(), SendFault>
    requires sendable { IsSendable (contents_of (λ b. content b) shelf.old.items) request.now }
    ensures kept { contents_of (λ b. content b) shelf.new.items ≡ contents_of (λ b. content b) shelf.old.items }
    ensures counts { NoneFell (numbers_of (λ b. (⟦<dyn Blob as Blob>⟧ b.vtable).faults b.value) shelf.old.items)
        (numbers_of (λ b. (⟦<dyn Blob as Blob>⟧ b.vtable).faults b.value) shelf.new.items) }
    ensures others { (k : ℕ) → ¬ (Contains (file_numbers request.now.body) k)
        → at_number shelf.new.items k ≡ at_number shelf.old.items k }
    ensures whole { OnOk result (WroteRequest (contents_of (λ b. content b) shelf.old.items) request.now
        (K.written sink.old) (K.written sink.new)) }
    ensures position { OnOk result (request.now.post ≡ true → LastSizes (numbers_of (λ b. position b) shelf.new.items)
        (file_numbers request.now.body) (file_sizes request.now.body)) }
    ensures part { WroteRequestPart (contents_of (λ b. content b) shelf.old.items) request.now
        (K.written sink.old) (K.written sink.new) }
    ensures cause { IfErr result (λ fault. BodyCause fault (contents_of (λ b. content b) shelf.old.items)
        (numbers_of (λ b. position b) shelf.new.items) request.now.body
        (Rose (K.faults sink.old) (K.faults sink.new))
        (numbers_of (λ b. (⟦<dyn Blob as Blob>⟧ b.vtable).faults b.value) shelf.old.items)
        (numbers_of (λ b. (⟦<dyn Blob as Blob>⟧ b.vtable).faults b.value) shelf.new.items)) }
    ensures sink_later { K.faults sink.old ≤ K.faults sink.new }
{
    let url = request.url.as_str().as_bytes();
    if request.post {
        let Some(kind) = &request.kind else {
            unreachable!()
        };
        match write_post(url, kind.as_str().as_bytes(), sink) {
            Ok(()) => {}
            Err(_) => return Err(SendFault::Sink),
        }
        match send_body(request.body.as_slice(), shelf, sink) {
            Ok(()) => Ok(()),
            Err(fault) => Err(fault),
        }
    } else {
        match write_get(url, sink) {
            Ok(()) => Ok(()),
            Err(_) => Err(SendFault::Sink),
        }
    }
}
