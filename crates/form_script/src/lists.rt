// Parts of one kind, with one space between each and the next.
ghost use Rattle.std.specs.List.{count_by, list_all};
ghost use Rattle.std.specs.Prelude.{◌≡◌, is_some};
ghost use Rattle.form_script.specs.Gives.{Gives};
ghost use Rattle.form_script.specs.LineReading.{all_of, boundaries_of, is_space, positives_of, words_of};
ghost use Rattle.form_script.specs.Reading.{boundary_of};
ghost use Rattle.form_script.specs.Spelled.{passes};

use crate::boundary::{boundary_of, is_boundary_literal};
use crate::fault::LineFault;
use crate::reading::cut;
use crate::words::positive_of;
use form_text::{Sequence, Text};
use std::alloc::Global;

// The most boundaries.
const MOST_BOUNDARIES: usize = 8;

// What each word is to be.
#[derive(Clone, Copy)]
enum Part {
    Positive,
    Boundary,
}

impl Part {
    fn is_spelled(self, word: &str) -> bool
        ensures { result ≡ passes self word.now }
    {
        match self {
            Part::Positive => positive_of(word).is_some(),
            Part::Boundary => is_boundary_literal(word),
        }
    }
}

fn are_all(part: Part, text: &str) -> bool
    ensures { result ≡ list_all (passes part) (words_of text.now) }
{
    let mut rest = text;
    'words: loop {
        match cut(rest, ' ') {
            Some((word, behind)) => {
                if !part.is_spelled(word) {
                    return false;
                }
                rest = behind;
            }
            None => return part.is_spelled(rest),
        }
    }
}

/// Whether all are numbers from 1 on.
pub fn are_positives(text: &str) -> bool
    ensures { result ≡ is_some (positives_of text.now) }
{
    are_all(Part::Positive, text)
}

fn space_count(text: &str) -> usize
    ensures { result ≡ count_by is_space text.now }
{
    text.as_bytes().iter().filter(|b| **b == b' ').count()
}

/// Whether they are literals of boundaries, and not too many.
pub fn are_boundaries(text: &str) -> bool
    ensures { result ≡ is_some (boundaries_of text.now) }
{
    if space_count(text) >= MOST_BOUNDARIES {
        return false;
    }
    are_all(Part::Boundary, text)
}

/// Numbers from 1 on.
pub fn positives_of(alloc: Global, text: &str) -> Result<Sequence<u32>, LineFault>
    ensures { Gives (λ numbers. numbers) result (positives_of text.now) }
{
    let mut numbers = Sequence::new(alloc);
    let mut rest = text;
    'words: loop {
        match cut(rest, ' ') {
            Some((word, behind)) => {
                let Some(number) = positive_of(word) else {
                    return Err(LineFault::Syntax);
                };
                numbers.push(number)?;
                rest = behind;
            }
            None => {
                let Some(number) = positive_of(rest) else {
                    return Err(LineFault::Syntax);
                };
                numbers.push(number)?;
                return Ok(numbers);
            }
        }
    }
}

/// Boundaries.
pub fn boundaries_of(alloc: Global, text: &str) -> Result<Sequence<Text>, LineFault>
    ensures { Gives (λ boundaries. boundaries) result (boundaries_of text.now) }
{
    if space_count(text) >= MOST_BOUNDARIES {
        return Err(LineFault::Syntax);
    }
    all_boundaries_of(alloc, text)
}

fn all_boundaries_of(alloc: Global, text: &str) -> Result<Sequence<Text>, LineFault>
    ensures { Gives (λ boundaries. boundaries) result (all_of boundary_of (words_of text.now)) }
{
    let mut boundaries = Sequence::new(alloc);
    let mut rest = text;
    'words: loop {
        match cut(rest, ' ') {
            Some((word, behind)) => match boundary_of(alloc, word) {
                Ok(boundary) => {
                    boundaries.push(boundary)?;
                    rest = behind;
                }
                Err(fault) => return Err(fault),
            },
            None => match boundary_of(alloc, rest) {
                Ok(boundary) => {
                    boundaries.push(boundary)?;
                    return Ok(boundaries);
                }
                Err(fault) => return Err(fault),
            },
        }
    }
}
