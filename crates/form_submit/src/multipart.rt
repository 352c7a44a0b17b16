// Multipart bodies.
ghost use Rattle.std.specs.Prelude.{◌≡◌, ◌++◌, length, map, IfOk, OnOk, option_copied, string_bytes};
ghost use Rattle.form_submit.specs.Outcome.{chosen, multipart_kind, multipart_outcome, multipart_pieces, part_pieces, value_piece};

use crate::outcome::{Outcome, Why};
use crate::request::Piece;
use crate::requests::{body_request, bytes_of};
use form_encode::{Entry, Given, closing_line, part_head};
use form_text::{Sequence, Text, normalise_crlf};
use std::alloc::{AllocError, Global};
use url::Url;

/// The boundary of that place among those that were handed in.
pub fn chosen(bounds: &[String], place: Option<usize>) -> Option<&str>
    ensures { option_copied result ≡ chosen (map string_bytes bounds.now) place }
{
    match place {
        Some(place) => match bounds.get(place) {
            Some(boundary) => Some(boundary.as_str()),
            None => None,
        },
        None => None,
    }
}

/// What a multipart body with that boundary comes to, if there is one. `sizes` says how many bytes each
/// entry's part has.
pub fn multipart_outcome(
    alloc: Global,
    url: Url,
    entries: &[Entry],
    sizes: &[u64],
    boundary: Option<&str>,
) -> Result<Outcome, AllocError>
    requires { length sizes.now ≡ length entries.now }
    ensures { IfOk result (λ outcome.
        outcome ≡ multipart_outcome url entries.now sizes.now (option_copied boundary.entry)) }
{
    match boundary {
        Some(boundary) => {
            let kind = multipart_kind(alloc, boundary)?;
            let body = multipart_pieces(alloc, entries, sizes, boundary)?;
            Ok(Outcome::Request(body_request(url, kind, body)))
        }
        None => Ok(Outcome::NoRequest(Why::Clash)),
    }
}

#[tactic(auto, unfolding(crate::specs::Outcome::multipart_kind))]
fn multipart_kind(alloc: Global, boundary: &str) -> Result<Text, AllocError>
    ensures { IfOk result (λ kind. kind ≡ multipart_kind boundary.now) }
{
    let mut kind = String::from_str(alloc, "multipart/form-data; boundary=")?;
    kind.push_str(boundary)?;
    Ok(Text::from_string(kind))
}

// The pieces of all parts, and the closing line.
fn multipart_pieces(
    alloc: Global,
    entries: &[Entry],
    sizes: &[u64],
    boundary: &str,
) -> Result<Vec<Piece>, AllocError>
    requires { length sizes.now ≡ length entries.now }
    ensures { IfOk result (λ pieces. pieces.items ≡ multipart_pieces boundary.now entries.now sizes.now) }
{
    let mut pieces = Vec::new(alloc);
    for (place, entry) in entries.iter().enumerate() {
        push_part(alloc, &mut pieces, entry, sizes[place], boundary)?;
    }
    let end = closing_line(alloc, boundary)?;
    pieces.push(bytes_of(end))?;
    Ok(pieces)
}

fn push_part(
    alloc: Global,
    pieces: &mut Vec<Piece>,
    entry: &Entry,
    size: u64,
    boundary: &str,
) -> Result<(), AllocError>
    ensures { OnOk result (pieces.new.items ≡ pieces.old.items ++ part_pieces boundary.now entry.now size) }
{
    let head = part_head(alloc, entry, boundary)?;
    pieces.push(bytes_of(head))?;
    pieces.push(value_piece(alloc, &entry.value, size)?)?;
    let end = String::from_str(alloc, "\r\n")?;
    pieces.push(bytes_of(end))?;
    Ok(())
}

fn value_piece(alloc: Global, value: &Given, size: u64) -> Result<Piece, AllocError>
    ensures { IfOk result (λ piece. piece ≡ value_piece value.now size) }
{
    match value {
        Given::Text(text) => {
            let text = normalise_crlf(alloc, text.as_str())?;
            Ok(bytes_of(text))
        }
        Given::File { number, .. } => match number {
            Some(number) => Ok(Piece::File {
                number: *number,
                size,
            }),
            None => Ok(Piece::Bytes(Sequence::new(alloc))),
        },
    }
}
