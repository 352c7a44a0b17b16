// Form-urlencoded texts.
ghost use Rattle.std.specs.Prelude.{◌≡◌, IfOk, string_bytes};
ghost use Rattle.form_encode.specs.Urlencoded.{urlencoded_text};

use crate::entry::Pair;
use form_urlencoded::Serializer;
use std::alloc::{AllocError, Global};

// How many bytes a text has once its bytes are escaped.
fn escaped_len(text: &str) -> usize {
    let mut len = 0usize;
    for byte in text.bytes() {
        let is_kept = byte.is_ascii_alphanumeric()
            || matches!(byte, b'*' | b'-' | b'.' | b'_' | b' ');
        len = len.saturating_add(if is_kept { 1 } else { 3 });
    }
    len
}

// Room for the text of the pairs.
fn room_of(pairs: &[Pair]) -> usize {
    let mut room = 0usize;
    for pair in pairs {
        let field = escaped_len(pair.name.as_str()).saturating_add(escaped_len(
            pair.value.as_str(),
        ));
        room = room.saturating_add(field).saturating_add(2);
    }
    room
}

/// The pairs as a form-urlencoded text (URL Standard, "application/x-www-form-urlencoded
/// serializing"). The memory is taken once, before the first byte is written.
pub fn urlencoded(alloc: Global, pairs: &[Pair]) -> Result<String, AllocError>
    ensures { IfOk result (λ text. string_bytes text ≡ urlencoded_text pairs.now) }
{
    let room = String::with_capacity(alloc, room_of(pairs))?;
    let mut form = Serializer::new(room);
    for pair in pairs {
        form.append_pair(pair.name.as_str(), pair.value.as_str())?;
    }
    Ok(form.finish())
}
