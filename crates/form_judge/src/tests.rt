ghost use Rattle.std.specs.Prelude.{◌≡◌, IfOk};

use crate::flags::{Facts, Flags};
use crate::judging::{compile_own, flags_of};
use form_text::{Sequence, Text};
use form_tree::{Key, Node, State, Tag};
use std::alloc::Global;
use std::process::Abort;
use std::test::Fail;

// Attributes from words, each a name or a name, `=` and a value.
fn attrs_of(alloc: Global, words: &str) -> Result<Sequence<(Text, Text)>, Fail> {
    let mut attrs = Sequence::new(alloc);
    for word in words.split_whitespace() {
        let (name, value) = word.split_once('=').unwrap_or((word, ""));
        attrs.push((Text::from_str(alloc, name)?, Text::from_str(alloc, value)?))?;
    }
    Ok(attrs)
}

// A state with that value; `d` among the marks says that it is dirty, `u` that the user edited it,
// `c` that the control is checked.
fn state_of(alloc: Global, value: &str, marks: &str) -> Result<State, Fail> {
    let mut state = State::empty(alloc);
    state.value = Text::from_str(alloc, value)?;
    state.dirty = marks.contains('d');
    state.by_user = marks.contains('u');
    state.checked = marks.contains('c');
    Ok(state)
}

// The facts that the letters name: `d`isabled, `g`roup missing, `s`elect missing.
fn facts_of(letters: &str) -> Facts {
    Facts {
        disabled: letters.contains('d'),
        group_missing: letters.contains('g'),
        select_missing: letters.contains('s'),
    }
}

// The flags of a control of that tag, with those attributes, in that state and by those facts.
fn judged(alloc: Global, tag: Tag, attrs: &str, state: State, facts: &str) -> Result<Flags, Fail> {
    let node = Node {
        key: Key(1),
        parent: None,
        tag,
        attrs: attrs_of(alloc, attrs)?,
        text: Text::from_str(alloc, "")?,
        state,
    };
    let mut pattern = compile_own(alloc, &node)?;
    Ok(flags_of(alloc, &node, &facts_of(facts), &mut pattern)?)
}

// Checks that exactly the flags hold whose letters are wanted: `m`issing, `t`ype, `p`attern, `l`ong,
// `s`hort, `u`nderflow, `o`verflow, step (`x`), `b`ad input, `c`ustom error.
fn check(rt: &impl Abort, flags: Flags, want: &str, row: &str) {
    for (letter, flag) in [
        ('m', flags.value_missing),
        ('t', flags.type_mismatch),
        ('p', flags.pattern_mismatch),
        ('l', flags.too_long),
        ('s', flags.too_short),
        ('u', flags.range_underflow),
        ('o', flags.range_overflow),
        ('x', flags.step_mismatch),
        ('b', flags.bad_input),
        ('c', flags.custom_error),
    ] {
        assert!(rt; flag == want.contains(letter), "{row}");
    }
    assert!(rt; flags.has_some() == !want.is_empty(), "{row}");
}

// The first cell of a row, and the cells behind it.
fn cell(row: &str) -> (&str, &str) {
    match row.split_once('|') {
        Some((first, rest)) => (first.trim_ascii(), rest),
        None => (row.trim_ascii(), ""),
    }
}

// A state; what holds of an input in it that is required and has nothing else; and what holds of the
// value `ab` that the user entered, typed as `z`, where the lengths 1 and 3 and the pattern `x` are
// asked for.
const STATES: &str = "\
type=hidden |  |
 | m | lsp
type=text | m | lsp
type=search | m | lsp
type=tel | m | lsp
type=url | m | lspt
type=password | m | lsp
type=date | m | b
type=month | m | b
type=week | m | b
type=time | m | b
type=datetime-local | m | b
type=number | m | b
type=range |  |
type=color |  |
type=checkbox | m |
type=radio |  |
type=file | m |
type=submit |  |
type=image |  |
type=reset |  |
type=button |  |";

fn check_state(rt: &impl Abort, alloc: Global, row: &str) -> Result<(), Fail> {
    let (kind, rest) = cell(row);
    let (missing, edited) = cell(rest);
    let attrs = format!(in alloc; "{kind} required")?;
    let flags = judged(alloc, Tag::Input, &attrs, state_of(alloc, "", "")?, "")?;
    check(rt, flags, missing, row);
    let attrs = format!(in alloc; "{kind} maxlength=1 minlength=3 pattern=x")?;
    let mut state = state_of(alloc, "ab", "du")?;
    state.typed = Text::from_str(alloc, "z")?;
    let flags = judged(alloc, Tag::Input, &attrs, state, "")?;
    check(rt, flags, edited.trim_ascii(), row);
    Ok(())
}

#[test]
fn states(rt: HostRuntime) -> Result<(), Fail> {
    let alloc = rt.alloc();
    for row in STATES.lines() {
        check_state(&rt, alloc, row)?;
    }
    Ok(())
}

// Rows of an input: its attributes, its value, and what holds of it.
const URLS: &str = "\
type=url |  |
type=url | x | t
type=url | //example.com/ | t
type=url | http://[ | t
type=url | https://example.com/ |
type=url | mailto:a@b.c |
type=text | x |";

const PATTERNS: &str = "\
pattern=[0-9]{3} | 1234 | p
pattern=[0-9]{3} | 123 |
pattern=[0-9]{3} | 12 | p
pattern=[0-9]{3} |  |
pattern=[0-9] | a1 | p
pattern= | a | p
pattern=. | 😀 |
pattern=.. | 😀 | p
pattern=[ | a |
pattern=( | a |
type=number pattern=a | 1 |
type=url pattern=x | http://a/ | p";

const RANGES: &str = "\
type=number min=1 max=3 | 0 | u
type=number min=1 max=3 | 1 |
type=number min=1 max=3 | 3 |
type=number min=1 max=3 | 4 | o
type=number min=1 max=3 | 1.0 |
type=number min=1 max=3 |  |
type=number min=x max=y | 0 |
type=number min=3 max=1 | 0 | u
type=number min=3 max=1 | 2 | uo
type=number min=3 max=1 | 4 | o
type=range | -1 | u
type=range | 0 |
type=range | 100 |
type=range | 101 | o
type=date min=2024-01-01 max=2024-01-31 | 2023-12-31 | u
type=date min=2024-01-01 max=2024-01-31 | 2024-01-01 |
type=date min=2024-01-01 max=2024-01-31 | 2024-01-31 |
type=date min=2024-01-01 max=2024-01-31 | 2024-02-01 | o
type=month min=2024-01 max=2024-02 | 2023-12 | u
type=month min=2024-01 max=2024-02 | 2024-01 |
type=month min=2024-01 max=2024-02 | 2024-02 |
type=month min=2024-01 max=2024-02 | 2024-03 | o
type=week min=2024-W01 max=2024-W02 | 2023-W52 | u
type=week min=2024-W01 max=2024-W02 | 2024-W01 |
type=week min=2024-W01 max=2024-W02 | 2024-W02 |
type=week min=2024-W01 max=2024-W02 | 2024-W03 | o
type=time min=10:00 max=12:00 | 09:59 | u
type=time min=10:00 max=12:00 | 10:00 |
type=time min=10:00 max=12:00 | 12:00 |
type=time min=10:00 max=12:00 | 12:01 | o
type=datetime-local min=2024-01-01T00:00 | 2023-12-31T23:59 | u
type=datetime-local min=2024-01-01T00:00 | 2024-01-01T00:00 |
type=datetime-local max=2024-01-01T00:00 | 2024-01-01T00:00 |
type=datetime-local max=2024-01-01T00:00 | 2024-01-01T00:01 | o
type=text min=5 max=7 | 1 |";

const REVERSED_RANGES: &str = "\
type=time min=22:00 max=06:00 | 12:00 | uo
type=time min=22:00 max=06:00 | 21:59 | uo
type=time min=22:00 max=06:00 | 22:00 |
type=time min=22:00 max=06:00 | 23:00 |
type=time min=22:00 max=06:00 | 06:00 |
type=time min=22:00 max=06:00 | 06:01 | uo
type=date min=2024-01-03 max=2024-01-01 | 2024-01-02 | uo
type=date min=2024-01-03 max=2024-01-01 | 2024-01-01 | u";

const STEPS: &str = "\
type=number | 1.5 | x
type=number | .5 | x
type=number step=any | 1.5 |
type=number step=0.5 | 1.5 |
type=number step=0.5 | 1.25 | x
type=number step=0 | 1.5 | x
type=number step=-1 | 1.5 | x
type=number step=x | 1.5 | x
type=number min=0.5 | 1.5 |
type=number min=0.5 | 1 | x
type=number value=0.5 | 1.5 |
type=number min=0 value=0.5 | 1.5 | x
type=range step=2 | 3 | x
type=date min=2024-01-01 step=7 | 2024-01-09 | x
type=date min=2024-01-01 step=7 | 2024-01-08 |
type=month step=2 | 1970-01 |
type=month step=2 | 1970-02 | x
type=week step=2 | 1970-W01 |
type=week step=2 | 1970-W02 | x
type=time | 10:00:30 | x
type=time step=30 | 10:00:30 |
type=datetime-local | 2024-01-01T00:00:01 | x";

fn check_value(rt: &impl Abort, alloc: Global, row: &str) -> Result<(), Fail> {
    let (attrs, rest) = cell(row);
    let (value, want) = cell(rest);
    let state = state_of(alloc, value, "")?;
    let flags = judged(alloc, Tag::Input, attrs, state, "")?;
    check(rt, flags, want.trim_ascii(), row);
    Ok(())
}

fn check_values(rt: &impl Abort, alloc: Global, rows: &str) -> Result<(), Fail> {
    for row in rows.lines() {
        check_value(rt, alloc, row)?;
    }
    Ok(())
}

#[test]
fn values(rt: HostRuntime) -> Result<(), Fail> {
    let alloc = rt.alloc();
    check_values(&rt, alloc, URLS)?;
    check_values(&rt, alloc, PATTERNS)?;
    check_values(&rt, alloc, RANGES)?;
    check_values(&rt, alloc, REVERSED_RANGES)?;
    check_values(&rt, alloc, STEPS)
}

// Rows of a control: its tag, its attributes, its value, its marks, the facts, and what holds of it.
// Lengths are in UTF-16 code units, of a value that the user edited; then what is missing, and flags of
// a barred control.
const LENGTHS: &str = "\
input | maxlength=3 | abc | du |  |
input | maxlength=3 | abcd | du |  | l
input | maxlength=3 | abcd | d |  |
input | maxlength=3 | abcd | u |  |
input | maxlength=0 | a | du |  | l
input | maxlength=-1 | a | du |  |
input | maxlength=x | a | du |  |
input | maxlength=1 | 😀 | du |  | l
input | maxlength=1 | 😀 | d |  |
input | maxlength=2 | 😀 | du |  |
input | minlength=3 | ab | du |  | s
input | minlength=3 | abc | du |  |
input | minlength=3 |  | du |  |
input | minlength=3 | ab | d |  |
input | minlength=3 | ab | u |  |
input | minlength=2 | 😀 | du |  |
input | minlength=3 | 😀 | du |  | s
textarea | maxlength=3 | abcd | d |  |
button | maxlength=3 | abcd | du |  |";

const MISSING: &str = "\
input | required | x |  |  |
input |  |  |  |  |
input | required readonly |  |  |  |
input | required |  |  | d |
input | required |  |  | g | m
input | type=checkbox required |  | c |  |
input | type=checkbox |  |  | g |
input | type=checkbox required readonly |  |  |  | m
input | type=checkbox required |  |  | d | m
input | type=radio |  |  | g | m
input | type=radio required |  | c |  |
input | type=radio |  |  | dg | m
input | type=file |  |  |  |
textarea | required |  |  |  | m
textarea | required readonly |  |  |  |
textarea | required |  |  | d |
textarea | pattern=x | ab |  |  |
select | required |  |  | s | m
select | required |  |  |  |
select | required |  |  | g |
button | required |  |  | dgs |";

const BARRED: &str = "\
input | type=url readonly | x |  | d | t";

fn tag_of(word: &str) -> Tag {
    match word {
        "input" => Tag::Input,
        "textarea" => Tag::Textarea,
        "select" => Tag::Select,
        _ => Tag::Button,
    }
}

fn check_control(rt: &impl Abort, alloc: Global, row: &str) -> Result<(), Fail> {
    let (tag, rest) = cell(row);
    let (attrs, rest) = cell(rest);
    let (value, rest) = cell(rest);
    let (marks, rest) = cell(rest);
    let (facts, want) = cell(rest);
    let state = state_of(alloc, value, marks)?;
    let flags = judged(alloc, tag_of(tag), attrs, state, facts)?;
    check(rt, flags, want.trim_ascii(), row);
    Ok(())
}

fn check_controls(rt: &impl Abort, alloc: Global, rows: &str) -> Result<(), Fail> {
    for row in rows.lines() {
        check_control(rt, alloc, row)?;
    }
    Ok(())
}

#[test]
fn controls(rt: HostRuntime) -> Result<(), Fail> {
    let alloc = rt.alloc();
    check_controls(&rt, alloc, LENGTHS)?;
    check_controls(&rt, alloc, MISSING)?;
    check_controls(&rt, alloc, BARRED)
}

// The attributes of a textarea, its value that the user edited, and what holds of it: each line end
// counts as one.
const LINE_ENDS: [(&str, &str, &str); 5] = [
    ("maxlength=3", "a\r\nb", ""),
    ("maxlength=3", "a\r\nbc", "l"),
    ("minlength=4", "a\r\nb", "s"),
    ("minlength=3", "a\rb", ""),
    ("required", "\r", ""),
];

#[test]
fn line_ends(rt: HostRuntime) -> Result<(), Fail> {
    let alloc = rt.alloc();
    for (attrs, value, want) in LINE_ENDS {
        let state = state_of(alloc, value, "du")?;
        check(
            &rt,
            judged(alloc, Tag::Textarea, attrs, state, "")?,
            want,
            attrs,
        );
    }
    Ok(())
}

#[test]
fn files_and_messages(rt: HostRuntime) -> Result<(), Fail> {
    let alloc = rt.alloc();
    let mut state = state_of(alloc, "", "")?;
    state.files.push(1)?;
    let flags = judged(alloc, Tag::Input, "type=file required", state, "")?;
    check(&rt, flags, "", "a file");
    for tag in [Tag::Input, Tag::Select, Tag::Textarea, Tag::Button] {
        let mut state = state_of(alloc, "", "")?;
        state.message = Text::from_str(alloc, "no")?;
        check(&rt, judged(alloc, tag, "", state, "d")?, "c", "a message");
    }
    Ok(())
}
