// What is seen of an element, as a line.
ghost use Rattle.std.specs.Prelude.{◌≡◌, ◌++◌, if◌then◌else◌, IfOk, IfSome, OnOk, string_bytes};
ghost use Rattle.form_page.specs.Lent.{seen_in};
ghost use Rattle.form_script.specs.Printed.{control_line, flags_part, is_option_key, mark_part, marks_part, option_line, value_part, view_line};

use crate::flags::flag_words;
use crate::quoted::push_quoted;
use form_judge::Flags;
use form_page::{Page, View};
use form_tree::Key;
use std::alloc::{AllocError, Global};

/// The line of what is seen of a submittable element or an option, with its line feed; for every
/// other key, what no clause says.
pub fn view_line(alloc: Global, page: &Page, key: Key) -> Result<String, AllocError>
    ensures { IfOk result (λ line. IfSome (view_line page.now key) (λ text. string_bytes line ≡ text)) }
{
    match page.view(key) {
        Some(view) => line_of(alloc, is_option(page, key), key, &view),
        None => Ok(String::new(alloc)),
    }
}

fn is_option(page: &Page, key: Key) -> bool
    ensures { result ≡ is_option_key page.now key }
{
    match page.tree().node(key) {
        Some(node) => node.tag.is_option(),
        None => false,
    }
}

fn line_of(alloc: Global, is_option: bool, key: Key, view: &View<'_>) -> Result<String, AllocError>
    ensures { IfOk result (λ line. string_bytes line
        ≡ (if is_option then option_line key (seen_in view.now) else control_line key (seen_in view.now))) }
{
    if is_option {
        return option_line(alloc, key, view);
    }
    control_line(alloc, key, view)
}

fn option_line(alloc: Global, key: Key, view: &View<'_>) -> Result<String, AllocError>
    ensures { IfOk result (λ line. string_bytes line ≡ option_line key (seen_in view.now)) }
{
    let mut line = String::new(alloc);
    push_value(&mut line, key, view.value)?;
    push_mark(&mut line, " selected=", view.selected)?;
    line.push('\n')?;
    Ok(line)
}

fn control_line(alloc: Global, key: Key, view: &View<'_>) -> Result<String, AllocError>
    ensures { IfOk result (λ line. string_bytes line ≡ control_line key (seen_in view.now)) }
{
    let mut line = String::new(alloc);
    push_value(&mut line, key, view.value)?;
    push_marks(&mut line, view.checked, view.candidate)?;
    push_flags(alloc, &mut line, &view.flags)?;
    Ok(line)
}

fn push_marks(line: &mut String, checked: bool, candidate: bool) -> Result<(), AllocError>
    ensures { OnOk result (string_bytes line.new
        ≡ string_bytes line.old ++ marks_part checked candidate) }
{
    push_mark(line, " checked=", checked)?;
    push_mark(line, " candidate=", candidate)
}

fn push_flags(alloc: Global, line: &mut String, flags: &Flags) -> Result<(), AllocError>
    ensures { OnOk result (string_bytes line.new ≡ string_bytes line.old ++ flags_part flags.now) }
{
    let words = flag_words(alloc, flags)?;
    line.push_str(" flags=")?;
    line.push_str(words.as_str())?;
    line.push('\n')
}

fn push_value(line: &mut String, key: Key, value: &str) -> Result<(), AllocError>
    ensures { OnOk result (string_bytes line.new ≡ string_bytes line.old ++ value_part key value.now) }
{
    write!(line, "@{} value=", key.0)?;
    push_quoted(line, value)
}

fn push_mark(line: &mut String, name: &str, mark: bool) -> Result<(), AllocError>
    ensures { OnOk result (string_bytes line.new ≡ string_bytes line.old ++ mark_part name.now mark) }
{
    line.push_str(name)?;
    line.push_str(if mark { "yes" } else { "no" })
}
