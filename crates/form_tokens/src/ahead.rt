// How far one may go over characters without a look at each.
ghost use Rattle.std.specs.Prelude.{◌≤◌, ◌≡◌, ◌+◌, ℕ, drop, length, min, not, ◌==◌};
ghost use Rattle.std.specs.List.{list_any, prefix_len};
ghost use Rattle.form_tokens.specs.Ahead.{IsClear, ends_plain};
ghost use Rattle.form_tokens.specs.Characters.{shown_len};
ghost use Rattle.form_tokens.specs.Runs.{is_other};
ghost use Rattle.form_tokens.specs.declared.chunk.Context.TheVariants as contexts;

use crate::chunk::Context;
use crate::cursor::before;
use memchr::memmem::find;

// So far one looks at most, before the bytes are used, for what ends characters.
const LOOK_AHEAD: usize = 4_096;

// In a text that is not longer each byte is tested before any is written.
const SHORT_TEXT: usize = 512;

// One more than these places, unless that is past the end.
fn one_more(near: usize, len: usize) -> usize
    requires { near ≤ len }
    ensures { result ≡ min (near + 1) len }
{
    if near < len {
        return near + 1;
    }
    len
}

// How many of the next bytes stand before the first `</`: what stands before it and before the first
// U+0000 is clear in a textarea.
fn before_end_tag(bytes: &[u8], near: usize) -> usize
    requires { near ≤ length bytes.now }
    ensures bound { result ≤ near }
    ensures clear { (n : ℕ) → n ≤ result → n ≤ prefix_len (is_other 0) bytes.now
        → IsClear contexts.Textarea n bytes.now }
{
    let (front, _) = bytes.split_at(one_more(near, bytes.len()));
    let Some((_, behind)) = front.split_first() else {
        return near;
    };
    // The next `/` is often the one, or there is none.
    let place = before(b'/', behind);
    if place == behind.len() {
        return near;
    }
    if front[place] == b'<' {
        return usize::min(place, near);
    }
    match find(front, b"</") {
        Some(place) => usize::min(place, near),
        None => near,
    }
}

// How many of the next bytes stand before the first `<`: what stands before it and before the first
// U+0000 is clear.
fn before_angle(context: Context, bytes: &[u8], near: usize) -> usize
    requires { near ≤ length bytes.now }
    ensures bound { result ≤ near }
    ensures clear { (n : ℕ) → n ≤ result → n ≤ prefix_len (is_other 0) bytes.now
        → IsClear context n bytes.now }
{
    let (front, _) = bytes.split_at(near);
    before(b'<', front)
}

// How many of the next bytes stand before the first `<` that may be no character: what stands before it
// and before the first U+0000 is clear.
#[inline(always)]
fn before_stop(context: Context, bytes: &[u8], near: usize) -> usize
    requires { near ≤ length bytes.now }
    ensures bound { result ≤ near }
    ensures clear { (n : ℕ) → n ≤ result → n ≤ prefix_len (is_other 0) bytes.now
        → IsClear context n bytes.now }
{
    match context {
        Context::Value => near,
        Context::Content => before_angle(context, bytes, near),
        Context::Textarea => before_end_tag(bytes, near),
    }
}

// How many bytes at the front are characters or `&`, as far as one looks.
fn clear_len(context: Context, bytes: &[u8]) -> usize
    ensures { IsClear context result bytes.now }
{
    let near = usize::min(LOOK_AHEAD, bytes.len());
    let (front, _) = bytes.split_at(before_stop(context, bytes, near));
    before(0, front)
}

/// How many bytes at the front are clear: those that are known, or else as far as one looks.
#[inline(always)]
pub fn some_clear(context: Context, bytes: &[u8], clear: usize) -> usize
    requires { IsClear context clear bytes.now }
    ensures { IsClear context result bytes.now }
{
    if clear > 0 {
        return clear;
    }
    clear_len(context, bytes)
}

// 0 at a `&` and at U+0000, and at no other byte.
fn plainness(byte: u8) -> u8
    ensures { (result == 0) ≡ ends_plain byte }
{
    u8::min(byte, byte.wrapping_sub(b'&'))
}

// Whether no byte is a `&` or U+0000. The loop goes over all, so that the compiler makes vectors of it.
fn is_plain(bytes: &[u8]) -> bool
    ensures { result ≡ not (list_any ends_plain bytes.now) }
{
    let mut least = u8::MAX;
    for b in bytes {
        least = u8::min(least, plainness(*b));
    }
    least != 0
}

/// How many bytes at the front are characters and no `&`, where there are few of them before what may end
/// characters; else 0.
#[inline(always)]
pub fn plain_len(context: Context, bytes: &[u8]) -> usize
    ensures value { shown_len context bytes.now ≡ result + shown_len context (drop result bytes.now) }
    ensures bound { result ≤ length bytes.now }
{
    let near = usize::min(SHORT_TEXT, bytes.len());
    let count = before_stop(context, bytes, near);
    let (front, _) = bytes.split_at(count);
    if is_plain(front) { count } else { 0 }
}
