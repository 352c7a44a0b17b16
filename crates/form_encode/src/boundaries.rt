// The choice of a multipart boundary.
ghost use Rattle.std.specs.Prelude.{◌≡◌, ◌≤◌, ◌<◌, ◌+◌, ◌++◌, length, take, map, true, false, All, string_bytes};
ghost use Rattle.form_encode.specs.Boundaries.{longest_boundary, Occurs, IsFree, IsFirstFree, first_free};

use memchr::memmem;

// Puts the bytes into the room, from `at` on.
pub fn put(room: &mut [u8], at: usize, bytes: &[u8])
    requires fits { at + length bytes.now ≤ length room.old }
    ensures { take (at + length bytes.now) room.new ≡ take at room.old ++ bytes.now }
{
    room[at..at + bytes.len()].copy_from_slice(bytes);
}

// Whether the boundary's delimiter stands somewhere in the bytes.
fn occurs(bytes: &[u8], boundary: &str) -> bool
    requires { length boundary.now ≤ longest_boundary }
    ensures found { result ≡ true → Occurs bytes.now boundary.now }
    ensures nowhere { result ≡ false → ¬ (Occurs bytes.now boundary.now) }
{
    let text = boundary.as_bytes();
    let mut room = [b'-'; 72];
    put(&mut room, 2, text);
    match memmem::find(bytes, &room[..2 + text.len()]) {
        Some(_) => true,
        None => false,
    }
}

// Whether the boundary's delimiter stands in no part.
fn is_free(parts: &[Vec<u8>], boundary: &str) -> bool
    requires { length boundary.now ≤ longest_boundary }
    ensures free { result ≡ true → IsFree (map (λ part. part.items) parts.now) boundary.now }
    ensures taken { result ≡ false → ¬ (IsFree (map (λ part. part.items) parts.now) boundary.now) }
{
    'searching: for part in parts {
        if occurs(part, boundary) {
            return false;
        }
    }
    true
}

// The place of the first boundary that is free.
fn first_free(bounds: &[String], parts: &[Vec<u8>]) -> Option<usize>
    requires { All (λ boundary. length (string_bytes boundary) ≤ longest_boundary) bounds.now }
    ensures { IsFirstFree (map string_bytes bounds.now) (map (λ part. part.items) parts.now) result }
{
    'choosing: for (i, boundary) in bounds.iter().enumerate() {
        if is_free(parts, boundary.as_str()) {
            return Some(i);
        }
    }
    None
}

/// The place of the first boundary, from 0, whose delimiter stands in no part; None where there is no
/// such boundary. A boundary has at most 70 bytes (RFC 2046, "Common Syntax").
pub fn choose_boundary(bounds: &[String], parts: &[Vec<u8>]) -> Option<usize>
    requires { All (λ boundary. length (string_bytes boundary) ≤ longest_boundary) bounds.now }
    ensures rule { IsFirstFree (map string_bytes bounds.now) (map (λ part. part.items) parts.now) result }
    ensures value { result ≡ first_free (map string_bytes bounds.now) (map (λ part. part.items) parts.now) }
{
    first_free(bounds, parts)
}
