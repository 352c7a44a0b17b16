// Pages that are read from text.
use form_judge::Steps;
use form_markup::{MOST_ELEMENTS, read};
use form_page::{Edit, Page};
use form_tree::{Key, State};
use std::alloc::{AllocError, Global};
use std::sync::ledger::Ledger;

// The page that a text is read into, with the files `hi.txt` and `b`.
pub fn opened<L: Ledger>(alloc: Global, text: &str, steps: &mut Steps<L>) -> Option<Page> {
    let (Ok(raws), Ok(names)) = (read(alloc, text), names(alloc)) else {
        return None;
    };
    if MOST_ELEMENTS < raws.len() {
        return None;
    }
    match Page::from_raws(alloc, raws, names, steps) {
        Ok(page) => Some(page),
        Err(_) => None,
    }
}

fn names(alloc: Global) -> Result<Vec<String>, AllocError> {
    let one = String::from_str(alloc, "hi.txt")?;
    let other = String::from_str(alloc, "b")?;
    Ok(vec![in alloc; one, other]?)
}

// Gives the input of that key the files of these numbers.
pub fn choose<L: Ledger>(
    alloc: Global,
    page: &mut Page,
    input: Key,
    numbers: &[u32],
    steps: &mut Steps<L>,
) -> Result<(), AllocError> {
    let mut state = State::empty(alloc);
    for number in numbers {
        state.files.push(*number)?;
    }
    if page.tree().place(input).is_none() {
        return Ok(());
    }
    let edits = vec![in alloc; Edit::Put { key: input, state }]?;
    page.edit(edits, steps)?;
    Ok(())
}

// The boundaries of a text, between which a space stands.
pub fn bounds_of(alloc: Global, text: &str) -> Result<Vec<String>, AllocError> {
    let mut bounds = Vec::new(alloc);
    for one in text.split(' ') {
        bounds.push(String::from_str(alloc, one)?)?;
    }
    Ok(bounds)
}
