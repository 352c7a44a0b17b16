// The pieces of a text.
ghost use Rattle.std.specs.Prelude.{◌≡◌, ◌≤◌, ◌-◌, ◌&&◌, nat_eq, nat_le, codes, drop, length, Err, if◌then◌else◌};
ghost use Rattle.std.specs.List.{prefix_len, starts_with};
ghost use Rattle.form_tokens.specs.Readers.{Gives};
ghost use Rattle.form_markup.specs.Machine.{piece_of};
ghost use Rattle.form_markup.specs.Pieces.{behind_ignored, behind_tag, comment_at, comment_end, comment_len, doctype_at, end_at, end_tag_at, ignored_at, is_before_end, is_doctype, start_at, tag_at, tag_end, tag_piece};
ghost use Rattle.form_markup.specs.Tags.{start_kept, tag_kept};

use crate::names::{is_textarea, is_void};
use crate::piece::{Found, Head};
use form_tokens::{
    Attributes, Class, Fault, Stop, after_byte, attributes_of, before, begins, begins_letter,
    behind_space, run_of,
};
use std::alloc::Global;

// The piece of a tag that begins an element.
fn tag_piece<'a>(name: &'a str, attributes: Attributes) -> Found<'a>
    ensures { piece_of result ≡ tag_kept name.now attributes }
{
    let Attributes {
        kept,
        count: _,
        oversized,
    } = attributes;
    if oversized {
        return Found::Oversized;
    }
    if is_void(name) {
        return Found::Void(Head { name, attrs: kept });
    }
    Found::Start(Head { name, attrs: kept })
}

// `>`, or `/>` where the element is void.
#[tactic(auto, unfolding(crate::specs::Pieces::tag_end))]
fn tag_end<'a>(name: &str, text: &'a str) -> Result<&'a str, Stop>
    ensures { Gives (λ x. x.now) result (tag_end name.now text.now) }
{
    if begins(text, b'/') && is_void(name) {
        let rest = after_byte(text, b'/')?;
        return after_byte(rest, b'>');
    }
    after_byte(text, b'>')
}

// Behind the start tag of a textarea one LF is dropped.
fn behind_tag<'a>(name: &str, rest: &'a str) -> &'a str
    ensures { result.now ≡ behind_tag name.now rest.now }
{
    if begins(rest, b'\n') && is_textarea(name) {
        let (_, behind) = rest.split_at(1);
        return behind;
    }
    rest
}

// What stands behind `<`.
#[tactic(auto, unfolding(crate::specs::Tags::start_kept))]
fn start_kept(alloc: Global, text: &str) -> Result<(Found<'_>, &str), Stop>
    ensures { Gives (λ x. (piece_of x.0, x.1.now)) result (start_kept text.now) }
{
    let (name, rest) = run_of(Class::Name, text)?;
    match attributes_of(alloc, rest) {
        Ok((attributes, rest)) => {
            let rest = tag_end(name, behind_space(rest))?;
            Ok((tag_piece(name, attributes), behind_tag(name, rest)))
        }
        Err(stop) => Err(stop),
    }
}

// What stands behind `<`, by what is kept of the attributes.
fn start_of(alloc: Global, text: &str) -> Result<(Found<'_>, &str), Stop>
    ensures { Gives (λ x. (piece_of x.0, x.1.now)) result (start_at text.now) }
{
    start_kept(alloc, text)
}

// What stands behind `</`.
#[tactic(auto, unfolding(crate::specs::Pieces::end_at))]
fn end_of(text: &str) -> Result<(Found<'_>, &str), Stop>
    ensures { Gives (λ x. (piece_of x.0, x.1.now)) result (end_at text.now) }
{
    let (name, rest) = run_of(Class::Name, text)?;
    let rest = after_byte(behind_space(rest), b'>')?;
    Ok((Found::End(name), rest))
}

// How many bytes stand before the first `>`.
fn before_end(bytes: &[u8]) -> usize
    ensures value { result ≡ prefix_len is_before_end bytes.now }
    ensures bound { result ≤ length bytes.now }
{
    before(b'>', bytes)
}

// Whether a comment ends with the byte at the place.
fn ends_with(bytes: &[u8], place: usize) -> bool
    requires { place ≤ length bytes.now }
    ensures { result
        ≡ (nat_le 2 place && starts_with nat_eq (drop (place - 2) bytes.now) comment_end) }
{
    if place < 2 {
        return false;
    }
    let (_, end) = bytes.split_at(place - 2);
    end.starts_with(b"-->")
}

// How many bytes there are to behind the first `-->`.
fn comment_len(bytes: &[u8]) -> Option<usize>
    ensures { result ≡ comment_len bytes.now }
{
    let mut done = 0;
    'ends: while done < bytes.len() {
        let (_, rest) = bytes.split_at(done);
        let place = done + before_end(rest);
        if ends_with(bytes, place) {
            return Some(place + 1);
        }
        done = place + 1;
    }
    None
}

fn is_early_end(text: &str) -> bool
    ensures { result ≡ starts_with nat_eq text.now (codes "->") }
{
    text.as_bytes().starts_with(b"->")
}

fn behind_comment(text: &str) -> Result<(Found<'_>, &str), Stop>
    ensures { Gives (λ x. (piece_of x.0, x.1.now)) result
        (behind_ignored text.now (comment_len text.now)) }
{
    let Some(count) = comment_len(text.as_bytes()) else {
        return Err(Stop::At(Fault::Lexical));
    };
    let (_, rest) = text.split_at(count);
    Ok((Found::Ignored, rest))
}

// What stands behind `<!--`.
#[tactic(auto, unfolding(crate::specs::Pieces::comment_at))]
fn comment_of(text: &str) -> Result<(Found<'_>, &str), Stop>
    ensures { Gives (λ x. (piece_of x.0, x.1.now)) result (comment_at text.now) }
{
    if begins(text, b'>') {
        return Err(Stop::At(Fault::Lexical));
    }
    if is_early_end(text) {
        return Err(Stop::At(Fault::Lexical));
    }
    behind_comment(text)
}

// What stands behind `<!doctype`.
#[tactic(auto, unfolding(crate::specs::Pieces::doctype_at))]
fn doctype_of(text: &str) -> Result<(Found<'_>, &str), Stop>
    ensures { Gives (λ x. (piece_of x.0, x.1.now)) result (doctype_at text.now) }
{
    let (_, rest) = text.split_at(before_end(text.as_bytes()));
    let rest = after_byte(rest, b'>')?;
    Ok((Found::Ignored, rest))
}

fn begins_comment(text: &str) -> bool
    ensures { result ≡ starts_with nat_eq text.now (codes "--") }
{
    text.as_bytes().starts_with(b"--")
}

fn is_doctype(text: &str) -> bool
    ensures { result ≡ is_doctype text.now }
{
    let bytes = text.as_bytes();
    if bytes.len() < 7 {
        return false;
    }
    let (front, _) = bytes.split_at(7);
    front.eq_ignore_ascii_case(b"doctype")
}

// What stands behind `<!`.
#[tactic(auto, unfolding(crate::specs::Pieces::ignored_at))]
fn ignored_of(text: &str) -> Result<(Found<'_>, &str), Stop>
    ensures { Gives (λ x. (piece_of x.0, x.1.now)) result (ignored_at text.now) }
{
    if begins_comment(text) {
        let (_, rest) = text.split_at(2);
        return comment_of(rest);
    }
    if is_doctype(text) {
        let (_, rest) = text.split_at(7);
        return doctype_of(rest);
    }
    Err(Stop::At(Fault::Lexical))
}

fn end_tag_of(text: &str) -> Result<(Found<'_>, &str), Stop>
    ensures { Gives (λ x. (piece_of x.0, x.1.now)) result (end_tag_at text.now) }
{
    if begins_letter(text) {
        return end_of(text);
    }
    Err(Stop::At(Fault::Lexical))
}

/// The piece at the front of what stands behind `<`, and what stands behind the piece.
#[tactic(auto, unfolding(crate::specs::Pieces::tag_at))]
pub fn tag_of(alloc: Global, text: &str) -> Result<(Found<'_>, &str), Stop>
    ensures { Gives (λ x. (piece_of x.0, x.1.now)) result (tag_at text.now) }
{
    if begins(text, b'!') {
        let rest = after_byte(text, b'!')?;
        return ignored_of(rest);
    }
    if begins(text, b'/') {
        let rest = after_byte(text, b'/')?;
        return end_tag_of(rest);
    }
    if begins_letter(text) {
        return start_of(alloc, text);
    }
    Err(Stop::At(Fault::Lexical))
}
