//! Classes as they are written.
ghost use Rattle.std.specs.Prelude.{◌≡◌, IfOk, length, option_map};
ghost use Rattle.form_pattern.specs.Reading.{range_from, read_item, items, class_with, read_class};

use crate::characters::{Set, after};
use crate::escapes::{member, set_escape};
use form_text::Sequence;
use std::alloc::{AllocError, Global};

/// What a class lists.
#[derive(Clone, Copy)]
pub enum Item {
    /// The characters from one to another.
    Range(char, char),
    /// A set, or its complement.
    Set(bool, Set),
}

/// A class: the characters that it lists, or all others.
#[derive(Drop)]
pub struct Class {
    pub negated: bool,
    pub items: Sequence<Item>,
}

// The range from a character, or the character alone.
#[tactic(auto, unfolding(crate::specs::Reading::range_from))]
fn range_from(first: char, text: &[char]) -> Option<(Item, &[char])>
    ensures { option_map (λ r. (r.0, r.1.now)) result ≡ range_from first text.now }
{
    let Some((c, rest)) = text.split_first() else {
        return Some((Item::Range(first, first), text));
    };
    if *c != '-' {
        return Some((Item::Range(first, first), text));
    }
    let Some((last, rest)) = member(rest) else {
        return None;
    };
    if first <= last {
        return Some((Item::Range(first, last), rest));
    }
    None
}

#[tactic(auto, unfolding(crate::specs::Reading::read_item))]
fn read_item(text: &[char]) -> Option<(Item, &[char])>
    ensures { option_map (λ r. (r.0, r.1.now)) result ≡ read_item text.now }
{
    if let Some((absent, set, rest)) = set_escape(text) {
        return Some((Item::Set(absent, set), rest));
    }
    let Some((first, rest)) = member(text) else {
        return None;
    };
    range_from(first, rest)
}

// The items up to `]`.
#[tactic(auto, unfolding(crate::specs::Reading::items))]
fn items(alloc: Global, text: &[char]) -> Result<Option<(Vec<Item>, &[char])>, AllocError>
    ensures { IfOk result (λ o. option_map (λ r. (r.0.items, r.1.now)) o ≡ items (length text.now) text.now) }
{
    let mut found: Vec<Item> = Vec::new(alloc);
    let mut rest = text;
    for _ in 0..text.len() {
        if let Some(behind) = after(rest, ']') {
            return Ok(Some((found, behind)));
        }
        let Some((one, behind)) = read_item(rest) else {
            return Ok(None);
        };
        found.push(one)?;
        rest = behind;
    }
    Ok(None)
}

// The items of a class up to its `]`.
#[tactic(auto, unfolding(crate::specs::Reading::class_with))]
fn class_with(
    alloc: Global,
    negated: bool,
    text: &[char],
) -> Result<Option<(Class, &[char])>, AllocError>
    ensures { IfOk result (λ o. option_map (λ r. (r.0, r.1.now)) o ≡ class_with negated text.now) }
{
    let Some((items, rest)) = items(alloc, text)? else {
        return Ok(None);
    };
    let items = Sequence::from_vec(items);
    Ok(Some((Class { negated, items }, rest)))
}

/// A class, from behind its `[`.
#[tactic(auto, unfolding(crate::specs::Reading::read_class))]
pub fn read_class(alloc: Global, text: &[char]) -> Result<Option<(Class, &[char])>, AllocError>
    ensures { IfOk result (λ o. option_map (λ r. (r.0, r.1.now)) o ≡ read_class text.now) }
{
    match after(text, '^') {
        Some(rest) => class_with(alloc, true, rest),
        None => class_with(alloc, false, text),
    }
}
