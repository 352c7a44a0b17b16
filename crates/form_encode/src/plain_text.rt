// Plain-text bodies.
ghost use Rattle.std.specs.Prelude.{◌≡◌, ◌++◌, IfOk, OnOk, string_bytes};
ghost use Rattle.form_encode.specs.PlainText.{plain_line, plain_text};

use crate::entry::Pair;
use std::alloc::{AllocError, Global};

// Writes the line of a pair.
fn push_line(out: &mut String, pair: &Pair) -> Result<(), AllocError>
    ensures { OnOk result (string_bytes out.new ≡ string_bytes out.old ++ plain_line pair.now) }
{
    out.push_str(pair.name.as_str())?;
    out.push_str("=")?;
    out.push_str(pair.value.as_str())?;
    out.push_str("\r\n")
}

// Room for the lines of the pairs.
fn room_of(pairs: &[Pair]) -> usize {
    let mut room = 0usize;
    for pair in pairs {
        let texts = pair
            .name
            .as_str()
            .len()
            .saturating_add(pair.value.as_str().len());
        room = room.saturating_add(texts).saturating_add(3);
    }
    room
}

/// The pairs as a plain text, a line each (HTML, "Plain text form data"). The memory is taken once,
/// before the first byte is written.
pub fn plain(alloc: Global, pairs: &[Pair]) -> Result<String, AllocError>
    ensures { IfOk result (λ text. string_bytes text ≡ plain_text pairs.now) }
{
    let mut out = String::with_capacity(alloc, room_of(pairs))?;
    for pair in pairs {
        push_line(&mut out, pair)?;
    }
    Ok(out)
}
