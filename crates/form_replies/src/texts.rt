// The texts of replies.
ghost use Rattle.std.specs.Prelude.{◌≡◌, ◌++◌, IfOk, OnOk, string_bytes};
ghost use Rattle.form_script.specs.Printed.{flag_words};
ghost use Rattle.form_replies.specs.Replies.{invalid_line, ok_line, refusal_word, refused_line, seen_line, seen_lines, stopped_lines, words_of_key};

use form_changes::ActFault;
use form_page::Page;
use form_script::{flag_words, view_line};
use form_tree::Key;
use std::alloc::{AllocError, Global};

/// The word for why a command is refused; want of memory has none.
pub fn refusal_word(fault: ActFault) -> &'static str
    ensures { result.now ≡ refusal_word fault }
{
    match fault {
        ActFault::NoElement => "no-element",
        ActFault::WrongKind => "wrong-kind",
        ActFault::Immutable => "immutable",
        ActFault::Email => "email",
        ActFault::NoFile => "no-file",
        ActFault::Limit => "limit",
        ActFault::Memory => "",
    }
}

/// The line of a command that is refused.
pub fn refused_line(alloc: Global, word: &str) -> Result<String, AllocError>
    ensures { IfOk result (λ line. string_bytes line ≡ refused_line word.now) }
{
    format!(in alloc; "refused {}\n", word)
}

// The line of what is seen of an element; of another one, nothing.
fn seen_line(alloc: Global, page: &Page, key: Key) -> Result<String, AllocError>
    ensures { IfOk result (λ line. string_bytes line ≡ seen_line page.now key) }
{
    if page.view(key).is_none() {
        return Ok(String::new(alloc));
    }
    view_line(alloc, page, key)
}

// Says behind a text that the command is done.
fn push_ok(text: &mut String) -> Result<(), AllocError>
    ensures { OnOk result (string_bytes text.new ≡ string_bytes text.old ++ ok_line) }
{
    text.push_str("ok\n")?;
    Ok(())
}

/// What is seen of an element, and that the command is done.
pub fn shown_text(alloc: Global, page: &Page, key: Key) -> Result<String, AllocError>
    ensures { IfOk result (λ text. string_bytes text ≡ seen_line page.now key ++ ok_line) }
{
    let mut text = seen_line(alloc, page, key)?;
    push_ok(&mut text)?;
    Ok(text)
}

/// What is seen of these elements, and that the command is done.
pub fn done_text(alloc: Global, page: &Page, keys: &[Key]) -> Result<String, AllocError>
    ensures { IfOk result (λ text. string_bytes text ≡ seen_lines page.now keys.now ++ ok_line) }
{
    let mut text = String::new(alloc);
    for key in keys {
        let view = seen_line(alloc, page, *key)?;
        text.push_str(view.as_str())?;
    }
    push_ok(&mut text)?;
    Ok(text)
}

// The words of an element's flags.
fn words_of_key(alloc: Global, page: &Page, key: Key) -> Result<String, AllocError>
    ensures { IfOk result (λ words. string_bytes words ≡ words_of_key page.now key) }
{
    match page.flags(key) {
        Some(flags) => flag_words(alloc, &flags),
        None => Ok(String::new(alloc)),
    }
}

// The line of a control that stops a submission.
fn invalid_line(alloc: Global, page: &Page, key: Key) -> Result<String, AllocError>
    ensures { IfOk result (λ line. string_bytes line ≡ invalid_line page.now key) }
{
    let words = words_of_key(alloc, page, key)?;
    format!(in alloc; "invalid @{} {}\n", key.0, words)
}

/// The lines of a submission that is stopped by these controls.
pub fn stopped_lines(alloc: Global, page: &Page, keys: &[Key]) -> Result<String, AllocError>
    ensures { IfOk result (λ text. string_bytes text ≡ stopped_lines page.now keys.now) }
{
    let mut text = String::from_str(alloc, "stopped\n")?;
    for key in keys {
        let line = invalid_line(alloc, page, *key)?;
        text.push_str(line.as_str())?;
    }
    Ok(text)
}
