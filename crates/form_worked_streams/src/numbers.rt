// Numbers in rows.
use std::alloc::{AllocError, Global};

// The number that a text spells, and 0 where it spells none.
pub fn number(text: &str) -> usize {
    text.parse::<usize>().unwrap_or(0)
}

// The numbers of a text, with spaces between them.
pub fn numbers(alloc: Global, text: &str) -> Result<Vec<usize>, AllocError> {
    let mut all = Vec::new(alloc);
    for word in text.split(' ') {
        if !word.is_empty() {
            all.push(number(word))?;
        }
    }
    Ok(all)
}
