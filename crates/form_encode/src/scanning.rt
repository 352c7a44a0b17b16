// The boundaries that stand in no part, found while the bytes of the parts pass by.
ghost use Rattle.std.specs.Prelude.{◌≡◌, ◌≢◌, ℕ, List, ◌≤◌, ◌<◌, ◌+◌, ◌++◌, [], ◌∷◌, length, take, drop, map, true, false, All, MatchOption, string_bytes, slice_index, IfOk};
ghost use Rattle.std.specs.List.{position};
ghost use Rattle.memchr.specs.Find.{FindsNeedle, Nowhere, OccursAt};
ghost use Rattle.form_encode.specs.Boundaries.{IsFirstFree, delimiter, first_free, longest_boundary, occurs_below};
ghost use Rattle.form_encode.specs.Scanning.{HasSeen, IsRun, StandsFor, is_untaken, mark_of, last_bytes, overlap, seen_below, seen_in, two_dashes};

use crate::boundaries::put;
use form_text::Text;
use memchr::memmem;
use std::alloc::{AllocError, Global};
use std::marker::Model;

// One byte less than the longest delimiter.
const OVERLAP: usize = 71;

// Dashes, to pass over many at once.
const DASHES: [u8; 64] = [b'-'; 64];

/// A boundary, and whether its delimiter was seen.
#[derive(Debug, Drop)]
pub struct Mark {
    pub boundary: Text,
    pub taken: bool,
}

// ---- runs of dashes

// The bytes from a place on.
fn behind(bytes: &[u8], place: usize) -> &[u8]
    requires { place ≤ length bytes.now }
    ensures { result.now ≡ drop place bytes.now }
{
    bytes.split_at(place).1
}

// The first place from `start` on that begins no block of dashes.
fn blocks_end(bytes: &[u8], start: usize) -> usize
    requires { start ≤ length bytes.now }
    ensures low { start ≤ result }
    ensures high { result ≤ length bytes.now }
    ensures dashes { (k : ℕ) → start ≤ k → k < result → slice_index bytes.now k ≡ 45 }
{
    let mut at = start;
    'passing: while DASHES.len() <= bytes.len() - at && behind(bytes, at).starts_with(&DASHES) {
        at += DASHES.len();
    }
    at
}

// The first place from `start` on where no dash stands, or else the end.
fn dashes_end(bytes: &[u8], start: usize) -> usize
    requires { start ≤ length bytes.now }
    ensures low { start ≤ result }
    ensures high { result ≤ length bytes.now }
    ensures dashes { (k : ℕ) → start ≤ k → k < result → slice_index bytes.now k ≡ 45 }
    ensures other { result < length bytes.now → slice_index bytes.now result ≢ 45 }
{
    let mut at = blocks_end(bytes, start);
    'passing: while at < bytes.len() && bytes[at] == b'-' {
        at += 1;
    }
    at
}

// Two dashes or more, and no other behind them.
#[derive(Clone, Copy, Drop)]
struct Run {
    start: usize,
    end: usize,
}

// The first run of two dashes or more from a place on.
fn next_run(bytes: &[u8], from: usize) -> Option<Run>
    requires { from ≤ length bytes.now }
    ensures { MatchOption result (Nowhere (OccursAt bytes.now two_dashes) from (length bytes.now + 1)) (λ run. IsRun bytes.now from run.start run.end) }
{
    match memmem::find(behind(bytes, from), b"--") {
        Some(place) => {
            let start = from + place;
            let end = dashes_end(bytes, start);
            Some(Run { start, end })
        }
        None => None,
    }
}

// Whether the boundary's delimiter begins in the run.
fn begins_in(boundary: &str, bytes: &[u8], from: usize, run: &Run) -> bool
    requires { IsRun bytes.now from run.now.start run.now.end }
    ensures found { result ≡ true → occurs_below bytes.now (delimiter boundary.now) run.now.end ≡ true }
    ensures nowhere { result ≡ false → Nowhere (OccursAt bytes.now (delimiter boundary.now)) run.now.start run.now.end }
{
    let text = boundary.as_bytes();
    let own = dashes_end(text, 0);
    own + 2 <= run.end - run.start && behind(bytes, run.end).starts_with(behind(text, own))
}

// Marks the boundary where its delimiter begins in the run.
fn see_boundary(mark: &mut Mark, bytes: &[u8], from: usize, run: &Run)
    requires run { IsRun bytes.now from run.now.start run.now.end }
    requires seen { HasSeen bytes.now from mark.old }
    ensures { mark.new ≡ seen_below bytes.now run.now.end mark.old }
{
    if !mark.taken && begins_in(mark.boundary.as_str(), bytes, from, run) {
        mark.taken = true;
    }
}

// Marks the boundaries whose delimiter begins in the run.
fn see_run(marks: &mut Vec<Mark>, bytes: &[u8], from: usize, run: &Run)
    requires run { IsRun bytes.now from run.now.start run.now.end }
    requires seen { All (HasSeen bytes.now from) marks.old.items }
    ensures { marks.new.items ≡ map (seen_below bytes.now run.now.end) marks.old.items }
{
    for i in 0..marks.len() {
        see_boundary(&mut marks[i], bytes, from, run);
    }
}

// Marks the boundaries whose delimiter stands in the bytes.
fn see(marks: &mut Vec<Mark>, bytes: &[u8])
    ensures { marks.new.items ≡ map (seen_in bytes.now) marks.old.items }
{
    let mut from = 0;
    'seeing: while let Some(run) = next_run(bytes, from) {
        see_run(marks, bytes, from, &run);
        from = run.end;
    }
}

// ---- the bytes of the open part

// Room for the last bytes of the open part, and as many of the next piece.
const ROOM: usize = 142;

// Puts the first bytes of the piece behind what is kept, and answers how many bytes stand there then.
fn join(room: &mut [u8; ROOM], kept: usize, piece: &[u8]) -> usize
    requires { kept ≤ overlap }
    ensures high { result ≤ 142 }
    ensures joined { take result room.new ≡ take kept room.old ++ take overlap piece.now }
{
    let more = usize::min(piece.len(), OVERLAP);
    put(room, kept, front(piece, more));
    kept + more
}

// The first bytes.
fn front(bytes: &[u8], most: usize) -> &[u8]
    requires { most ≤ length bytes.now }
    ensures { result.now ≡ take most bytes.now }
{
    bytes.split_at(most).0
}

// Keeps the last bytes of what was joined and of the piece, and answers how many these are.
fn keep_last(room: &mut [u8; ROOM], joined: usize, piece: &[u8]) -> usize
    requires { joined ≤ 142 }
    ensures few { result ≤ overlap }
    ensures long { overlap ≤ length piece.now → take result room.new ≡ last_bytes overlap piece.now }
    ensures short { length piece.now < overlap → take result room.new ≡ last_bytes overlap (take joined room.old) }
{
    if OVERLAP <= piece.len() {
        put(room, 0, behind(piece, piece.len() - OVERLAP));
        OVERLAP
    } else {
        let first = joined.saturating_sub(OVERLAP);
        room.copy_within(first..joined, 0);
        joined - first
    }
}

// ---- the scan

/// Which of some boundaries stand in no part, while the bytes of the parts are fed to it in pieces. It
/// keeps no part: of each boundary it keeps whether its delimiter was seen, and besides the last 71
/// bytes of the part that is open. It begins with one open part and no byte.
#[derive(Debug, Drop)]
pub struct Scan {
    marks: Vec<Mark>,
    room: [u8; ROOM],
    kept: usize,
}

impl Model for Scan {
    ghost use Rattle.std.specs.Prelude.{◌≤◌, All, length, take};
    ghost use Rattle.form_encode.specs.Boundaries.{longest_boundary};
    ghost use Rattle.form_encode.specs.Scanning.{Scanned, overlap};

    ghost Value = { Scanned };

    ghost view = { λ s. record { marks = s.marks.items; tail = take s.kept s.room } };

    ghost invariant = { λ s. (s.kept ≤ overlap) × All (λ mark. length mark.boundary ≤ longest_boundary) s.marks.items };
}

impl Scan {
    /// A scan for these boundaries, each of at most 70 bytes (RFC 2046, "Common Syntax"). Want of memory
    /// is `AllocError`; no other call takes any.
    pub fn new(alloc: Global, bounds: &[String]) -> Result<Scan, AllocError>
        requires { All (λ boundary. length (string_bytes boundary) ≤ longest_boundary) bounds.now }
        ensures { IfOk result (λ scan. StandsFor scan (map string_bytes bounds.now) [] []) }
    {
        Ok(Scan {
            marks: marks_of(alloc, bounds)?,
            room: [0; ROOM],
            kept: 0,
        })
    }

    /// Passes over the next bytes of the open part.
    pub fn feed(&mut self, piece: &[u8])
        ensures { (bounds ended : List (List ℕ)) (part : List ℕ) → StandsFor self.old bounds ended part → StandsFor self.new bounds ended (part ++ piece.now) }
    {
        let joined = join(&mut self.room, self.kept, piece);
        see(&mut self.marks, front(&self.room, joined));
        see(&mut self.marks, piece);
        self.kept = keep_last(&mut self.room, joined, piece);
    }

    /// Ends the open part, and opens another without a byte.
    pub fn end_part(&mut self)
        ensures { (bounds ended : List (List ℕ)) (part : List ℕ) → StandsFor self.old bounds ended part → StandsFor self.new bounds (ended ++ part ∷ []) [] }
    {
        self.kept = 0;
    }

    /// The place of the first boundary, from 0, whose delimiter stands in no part, the open one
    /// included; None where there is no such boundary.
    pub fn free(&self) -> Option<usize>
        ensures rule { (bounds ended : List (List ℕ)) (part : List ℕ) → StandsFor self.now bounds ended part → IsFirstFree bounds (ended ++ part ∷ []) result }
        ensures value { (bounds ended : List (List ℕ)) (part : List ℕ) → StandsFor self.now bounds ended part → result ≡ first_free bounds (ended ++ part ∷ []) }
    {
        first_untaken(self.marks.as_slice())
    }
}

// The boundaries, none of them taken.
fn marks_of(alloc: Global, bounds: &[String]) -> Result<Vec<Mark>, AllocError>
    ensures { IfOk result (λ marks. marks.items ≡ map (mark_of ([] ∷ [])) (map string_bytes bounds.now)) }
{
    let mut marks = Vec::with_capacity(alloc, bounds.len())?;
    for boundary in bounds {
        let boundary = Text::from_str(alloc, boundary.as_str())?;
        marks.push(Mark {
            boundary,
            taken: false,
        })?;
    }
    Ok(marks)
}

// The place of the first boundary that is not taken.
fn first_untaken(marks: &[Mark]) -> Option<usize>
    ensures { result ≡ position is_untaken marks.now }
{
    marks.iter().position(|mark| !mark.taken)
}
