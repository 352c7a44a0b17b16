// A row: commands of a script with `;` between them; what they answer, in turn, with `;` between; and
// the page, with a tab between each two. An act answers the elements that are seen to change, each
// with what is seen of it; a click what it asks for.
use form_acts::{Act, ActFault, Clicked, apply, click, implicit};
use form_judge::{Flags, Steps};
use form_markup::{MOST_ELEMENTS, read};
use form_page::Page;
use form_script::{Command, parse_line};
use form_tree::Key;
use std::alloc::{AllocError, Global};
use std::sync::ledger::Ledger;

// ---- the page

// The page that a text is read into, with the files `hi.txt` and `b`.
fn opened<L: Ledger>(alloc: Global, text: &str, steps: &mut Steps<L>) -> Option<Page> {
    let (Ok(raws), Ok(files)) = (read(alloc, text), files(alloc)) else {
        return None;
    };
    if MOST_ELEMENTS < raws.len() {
        return None;
    }
    match Page::from_raws(alloc, raws, files, steps) {
        Ok(page) => Some(page),
        Err(_) => None,
    }
}

fn files(alloc: Global) -> Result<Vec<String>, AllocError> {
    let one = String::from_str(alloc, "hi.txt")?;
    let other = String::from_str(alloc, "b")?;
    Ok(vec![in alloc; one, other]?)
}

// ---- what is seen

// The letters of the flags that hold: `m`issing, `t`ype, `p`attern, `l`ong, `s`hort, `u`nderflow,
// `o`verflow, step (`x`), `b`ad input, `c`ustom error.
fn letters(alloc: Global, flags: Flags) -> Result<String, AllocError> {
    let mut out = String::new(alloc);
    push_if(&mut out, flags.value_missing, "m")?;
    push_if(&mut out, flags.type_mismatch, "t")?;
    push_if(&mut out, flags.pattern_mismatch, "p")?;
    push_if(&mut out, flags.too_long, "l")?;
    push_if(&mut out, flags.too_short, "s")?;
    push_if(&mut out, flags.range_underflow, "u")?;
    push_if(&mut out, flags.range_overflow, "o")?;
    push_if(&mut out, flags.step_mismatch, "x")?;
    push_if(&mut out, flags.bad_input, "b")?;
    push_if(&mut out, flags.custom_error, "c")?;
    Ok(out)
}

fn push_if(out: &mut String, mark: bool, letter: &str) -> Result<(), AllocError> {
    if mark {
        out.push_str(letter)?;
    }
    Ok(())
}

fn word_if(mark: bool, letter: &str) -> &str {
    if mark { letter } else { "" }
}

// What is seen of an element: its value, then `c`hecked, `s`elected, `k`andidate, then its flags.
fn shown(alloc: Global, page: &Page, key: Key) -> Result<String, AllocError> {
    let Some(view) = page.view(key) else {
        return String::from_str(alloc, "none");
    };
    let flags = letters(alloc, view.flags)?;
    format!(in alloc;
        "{}|{}{}{}|{}",
        view.value,
        word_if(view.checked, "c"),
        word_if(view.selected, "s"),
        word_if(view.candidate, "k"),
        flags.as_str()
    )
}

fn all_shown(alloc: Global, page: &Page, keys: &[Key]) -> Result<String, AllocError> {
    let mut out = String::new(alloc);
    for key in keys {
        let seen = shown(alloc, page, *key)?;
        let mark = !out.is_empty();
        push_if(&mut out, mark, " ")?;
        let word = format!(in alloc; "{} {}", key.0, seen.as_str())?;
        out.push_str(&word)?;
    }
    Ok(out)
}

// ---- what is answered

fn refused(alloc: Global, fault: ActFault) -> Result<String, AllocError> {
    let word = match fault {
        ActFault::NoElement => "no-element",
        ActFault::WrongKind => "wrong-kind",
        ActFault::Immutable => "immutable",
        ActFault::Email => "email",
        ActFault::NoFile => "no-file",
        ActFault::Limit => "limit",
        ActFault::Memory => "memory",
    };
    String::from_str(alloc, word)
}

fn done<L: Ledger>(
    alloc: Global,
    page: &mut Page,
    act: &Act,
    steps: &mut Steps<L>,
) -> Result<String, AllocError> {
    match apply(alloc, page, act, steps) {
        Ok(keys) => all_shown(alloc, page, &keys),
        Err(fault) => refused(alloc, fault),
    }
}

fn asked(alloc: Global, clicked: Clicked) -> Result<String, AllocError> {
    match clicked {
        Clicked::Nothing => String::from_str(alloc, "nothing"),
        Clicked::Reset { form } => format!(in alloc; "reset {}", form.0),
        Clicked::Submit {
            form,
            submitter: Some(button),
            at,
        } => format!(in alloc; "submit {} {} {} {}", form.0, button.0, at.0, at.1),
        Clicked::Submit {
            form,
            submitter: None,
            at,
        } => format!(in alloc; "submit {} - {} {}", form.0, at.0, at.1),
    }
}

fn asked_or_refused(
    alloc: Global,
    clicked: Result<Clicked, ActFault>,
) -> Result<String, AllocError> {
    match clicked {
        Ok(clicked) => asked(alloc, clicked),
        Err(fault) => refused(alloc, fault),
    }
}

// What a command answers; a line that spells none, or one that submits, answers `syntax`.
fn answer<L: Ledger>(
    alloc: Global,
    page: &mut Page,
    line: &str,
    steps: &mut Steps<L>,
) -> Result<String, AllocError> {
    match parse_line(alloc, line) {
        Ok(Command::Act(act)) => done(alloc, page, &act, steps),
        Ok(Command::Click(key)) => asked_or_refused(alloc, click(page, key, None)),
        Ok(Command::ClickAt(key, x, y)) => asked_or_refused(alloc, click(page, key, Some((x, y)))),
        Ok(Command::Enter(key)) => asked_or_refused(alloc, implicit(page, key)),
        Ok(Command::Show(key)) => shown(alloc, page, key),
        _ => String::from_str(alloc, "syntax"),
    }
}

// What the commands answer, in turn.
fn answers<L: Ledger>(
    alloc: Global,
    page: &mut Page,
    lines: &str,
    steps: &mut Steps<L>,
) -> Result<String, AllocError> {
    let mut out = String::new(alloc);
    let mut later = false;
    for line in lines.split(';') {
        push_if(&mut out, later, ";")?;
        later = true;
        let said = answer(alloc, page, line, steps)?;
        out.push_str(&said)?;
    }
    Ok(out)
}

// ---- rows

fn answers_so<L: Ledger>(
    alloc: Global,
    lines: &str,
    want: &str,
    text: &str,
    steps: &mut Steps<L>,
) -> bool {
    let Some(mut page) = opened(alloc, text, steps) else {
        return false;
    };
    match answers(alloc, &mut page, lines, steps) {
        Ok(said) => said.as_str() == want,
        Err(_) => false,
    }
}

// Whether a row holds.
fn holds<L: Ledger>(alloc: Global, row: &str, steps: &mut Steps<L>) -> bool {
    let Some((lines, row)) = row.split_once('\t') else {
        return false;
    };
    match row.split_once('\t') {
        Some((want, text)) => answers_so(alloc, lines, want, text, steps),
        None => false,
    }
}

// The number of the first of these rows that does not hold, from 1; 0 where all hold.
pub fn wrong_row<L: Ledger>(alloc: Global, rows: &str, steps: &mut Steps<L>) -> u32 {
    let mut number = 0u32;
    for row in rows.lines() {
        number = number.saturating_add(1);
        if !holds(alloc, row, steps) {
            return number;
        }
    }
    0
}
