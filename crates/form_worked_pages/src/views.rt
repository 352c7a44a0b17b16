// What is seen of pages, as text.
use form_judge::{Flags, Steps};
use form_markup::{MOST_ELEMENTS, read};
use form_page::Page;
use form_tree::Key;
use std::alloc::{AllocError, Global};
use std::sync::ledger::Ledger;

// The page that a text is read into, with the files `hi.txt` and `b`.
pub fn opened<L: Ledger>(alloc: Global, text: &str, steps: &mut Steps<L>) -> Option<Page> {
    let (Ok(raws), Ok(files)) = (read(alloc, text), files(alloc)) else {
        return None;
    };
    if MOST_ELEMENTS < raws.len() {
        return None;
    }
    match Page::from_raws(alloc, raws, files, steps) {
        Ok(page) => Some(page),
        Err(_) => None,
    }
}

fn files(alloc: Global) -> Result<Vec<String>, AllocError> {
    let one = String::from_str(alloc, "hi.txt")?;
    let other = String::from_str(alloc, "b")?;
    Ok(vec![in alloc; one, other]?)
}

// The key of a number; of another text it is that of no element.
pub fn key_of(number: &str) -> Key {
    match number.parse::<u32>() {
        Ok(number) => Key(number),
        Err(_) => Key(0),
    }
}

// The letters of the flags that hold: `m`issing, `t`ype, `p`attern, `l`ong, `s`hort, `u`nderflow,
// `o`verflow, step (`x`), `b`ad input, `c`ustom error.
fn letters(alloc: Global, flags: Flags) -> Result<String, AllocError> {
    let mut out = String::new(alloc);
    push_if(&mut out, flags.value_missing, "m")?;
    push_if(&mut out, flags.type_mismatch, "t")?;
    push_if(&mut out, flags.pattern_mismatch, "p")?;
    push_if(&mut out, flags.too_long, "l")?;
    push_if(&mut out, flags.too_short, "s")?;
    push_if(&mut out, flags.range_underflow, "u")?;
    push_if(&mut out, flags.range_overflow, "o")?;
    push_if(&mut out, flags.step_mismatch, "x")?;
    push_if(&mut out, flags.bad_input, "b")?;
    push_if(&mut out, flags.custom_error, "c")?;
    Ok(out)
}

fn push_if(out: &mut String, mark: bool, letter: &str) -> Result<(), AllocError> {
    if mark {
        out.push_str(letter)?;
    }
    Ok(())
}

fn word_if(mark: bool, letter: &str) -> &str {
    if mark { letter } else { "" }
}

// What is seen of an element: its value, then `c`hecked, `s`elected, `k`andidate, then its flags.
pub fn shown(alloc: Global, page: &Page, key: Key) -> Result<String, AllocError> {
    let Some(view) = page.view(key) else {
        return String::from_str(alloc, "none");
    };
    let flags = letters(alloc, view.flags)?;
    format!(in alloc;
        "{}|{}{}{}|{}",
        view.value,
        word_if(view.checked, "c"),
        word_if(view.selected, "s"),
        word_if(view.candidate, "k"),
        flags.as_str()
    )
}
