ghost use Rattle.std.specs.Prelude.{◌≡◌};
ghost use Rattle.std.specs.Str.{str_eq_ignore_ascii_case};
ghost use Rattle.std.specs.List.{list_any};
ghost use Rattle.form_markup.specs.Names.{tag_named};
ghost use Rattle.form_markup.specs.Faults.{is_dash, is_refused};
ghost use Rattle.form_markup.specs.Pieces.{is_void, is_textarea};

use form_text::eq_ascii_case;
use form_tree::Tag;

const VOID: [&str; 8] = ["br", "col", "hr", "img", "input", "link", "meta", "wbr"];

const REFUSED: [&str; 26] = [
    "area",
    "base",
    "dialog",
    "embed",
    "frame",
    "frameset",
    "iframe",
    "image",
    "math",
    "meter",
    "noembed",
    "noframes",
    "noscript",
    "object",
    "output",
    "param",
    "plaintext",
    "progress",
    "script",
    "source",
    "style",
    "svg",
    "template",
    "title",
    "track",
    "xmp",
];

// Whether the name is the word, whose case does not count. Most words have another length, which is
// asked first.
#[inline(always)]
fn is_word(name: &str, word: &str) -> bool
    ensures { result ≡ str_eq_ignore_ascii_case name.now word.now }
{
    if name.len() != word.len() {
        return false;
    }
    eq_ascii_case(name, word)
}

fn is_one_of(name: &str, words: &[&str]) -> bool
    ensures { result ≡ list_any (λ word. str_eq_ignore_ascii_case name.now word.now) words.now }
{
    words.iter().any(|word| is_word(name, word))
}

/// Whether an element of the name has no contents and no end tag (HTML, "Void elements").
#[tactic(auto, using(crate::proofs::Words::short_closed))]
pub fn is_void(name: &str) -> bool
    ensures { result ≡ is_void name.now }
{
    // The shortest of the words has two letters.
    if name.len() < 2 {
        return false;
    }
    is_one_of(name, &VOID)
}

fn has_dash(name: &str) -> bool
    ensures { result ≡ list_any is_dash name.now }
{
    name.as_bytes().iter().any(|b| *b == b'-')
}

/// Whether the reader refuses elements of the name.
#[tactic(auto, using(crate::proofs::Words::short_allowed))]
pub fn is_refused(name: &str) -> bool
    ensures { result ≡ is_refused name.now }
{
    if has_dash(name) {
        return true;
    }
    // The shortest of the words has three letters, and the names of most elements have fewer.
    if name.len() < 3 {
        return false;
    }
    is_one_of(name, &REFUSED)
}

pub fn is_textarea(name: &str) -> bool
    ensures { result ≡ is_textarea name.now }
{
    is_word(name, "textarea")
}

/// What an element of the name is.
#[tactic(auto, using(crate::proofs::Words::short_other), unfolding(crate::specs::Names::tag_in))]
pub fn tag_named(name: &str) -> Tag
    ensures { result ≡ tag_named name.now }
{
    // The shortest of the words has four letters.
    if name.len() < 4 {
        return Tag::Other;
    }
    if is_word(name, "form") {
        return Tag::Form;
    }
    if is_word(name, "fieldset") {
        return Tag::Fieldset;
    }
    if is_word(name, "legend") {
        return Tag::Legend;
    }
    if is_word(name, "input") {
        return Tag::Input;
    }
    if is_word(name, "select") {
        return Tag::Select;
    }
    if is_word(name, "optgroup") {
        return Tag::Optgroup;
    }
    if is_word(name, "option") {
        return Tag::Choice;
    }
    if is_word(name, "textarea") {
        return Tag::Textarea;
    }
    if is_word(name, "button") {
        return Tag::Button;
    }
    if is_word(name, "datalist") {
        return Tag::Datalist;
    }
    Tag::Other
}
