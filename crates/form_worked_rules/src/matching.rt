// Which values patterns match.
use crate::patterns::repeated;
use form_pattern::Pattern;
use std::alloc::{AllocError, Global};
use std::process::Abort;
use std::test::Fail;

// Texts of one character or set after the other, and a value of such characters, parted by `→`.
const ALL_IN: [&str; 15] = [
    "\\t\\n\\r\\v\\f\\0→\t\n\r\u{B}\u{C}\0",
    "\\x41\\x7e→A~",
    "\\u0041\\u2028→A\u{2028}",
    "\\u{0}\\u{00041}\\u{10FFFF}→\0A\u{10FFFF}",
    "\\^\\$\\\\\\.\\*\\+\\?\\(\\)\\[\\]\\{\\}\\|\\/→^$\\.*+?()[]{}|/",
    "[\\&\\-\\!\\#\\%\\,\\:\\;\\<\\=\\>\\@\\`\\~]{14}→&-!#%,:;<=>@`~",
    "[\\^\\$\\t]{3}→^$\t",
    "[&!#$%*+,.:;<=>?@`~]{18}→&!#$%*+,.:;<=>?@`~",
    "\\d\\d→09",
    "\\D*→/:\u{660}",
    "\\w{7}→09AZ_az",
    "\\W*→@[`{\u{17F}\u{212A}",
    "\\s*→\t\n\u{B}\u{C}\r \u{A0}\u{1680}\u{2000}\u{200A}\u{2028}\u{2029}\u{202F}\u{205F}\u{3000}\u{FEFF}",
    "\\S*→\u{8}\u{E}\u{1F}!\u{85}\u{9F}\u{A1}\u{180E}\u{1FFF}\u{200B}\u{2027}\u{202A}\u{202E}\u{2030}\u{205E}\u{2060}\u{2FFF}\u{3001}\u{FEFE}\u{FF00}",
    ".*→\t\u{B}\u{C}\u{85}\u{2027}\u{202A}\u{10FFFF}",
];

// A set or a character, and a value that is outside of it.
const NOT_IN: [&str; 23] = [
    "\\d→/",
    "\\d→:",
    "\\d→\u{660}",
    "\\w→@",
    "\\w→[",
    "\\w→`",
    "\\w→{",
    "\\w→\u{17F}",
    "\\s→\u{85}",
    "\\s→\u{180E}",
    "\\s→\u{200B}",
    "\\S→\u{FEFF}",
    ".→\n",
    ".→\r",
    ".→\u{2028}",
    ".→\u{2029}",
    "[]→",
    "[]→a",
    "[^^]→^",
    "[^\\d]→5",
    "[^a-c]→b",
    "[+-\\-]→.",
    "[a-c]→A",
];

// Patterns, and a value that each matches.
const MATCHED: [&str; 36] = [
    "a|b→a",
    "(a*)*b→aaab",
    "a{2,}→aaa",
    "[^\\d]→x",
    "^a$→a",
    "[0-9]{3}→123",
    "(?=.*[0-9]).{3,}→ab1",
    "(?!ab).*→ba",
    "(?=(?!b)a)a→a",
    "a(?!b)→a",
    "(?!a)→",
    "[^]→\n",
    "[^^]→a",
    "[a^]→^",
    "[+-\\-]→,",
    "[^\\w]→-",
    "|→",
    "a||b→",
    "()*→",
    "(a|)*b→aab",
    "(|a|b)+→ab",
    "(()|a)*→aaa",
    "((a*)*)*→aa",
    "(a*)+→",
    "(^)*a→a",
    "($)*→",
    "(^|b)a→ba",
    "a{0}→",
    "a{2,3}→aa",
    "a{2,3}→aaa",
    "(ab){2}?→abab",
    "(?:a|b){3}→aba",
    ".→\u{1F600}",
    "[\u{1F600}-\u{1F64F}]→\u{1F610}",
    "\\u{1F600}+→\u{1F600}\u{1F600}",
    "[^a]→\u{1F600}",
];

// Patterns, and a value that each does not match.
const UNMATCHED: [&str; 27] = [
    "a|b→ab",
    "(a*)*b→aaa",
    "a{2,}→a",
    "[0-9]{3}→1234",
    "b→abc",
    "b→ab",
    "b→bc",
    "→a",
    "(?=.*[0-9]).{3,}→abc",
    "(?=.*[0-9]).{3,}→a1",
    "(?!ab).*→abc",
    "(?=(?!b)a)a→b",
    "a(?=b)→a",
    "a(?=b)→ab",
    "(?!)→",
    "a(?!)→a",
    "()*→a",
    "(a|)*b→aa",
    "a^b→ab",
    "$a→a",
    "a$→a\n",
    "a$\\n→a\n",
    "a{0}→a",
    "a{2,3}→a",
    "a{2,3}→aaaa",
    "..→\u{1F600}",
    "[\u{1F600}-\u{1F64F}]→\u{1F650}",
];

// Whether the value matches; nothing where the text does not compile.
fn matches(alloc: Global, text: &str, value: &str) -> Result<Option<bool>, AllocError> {
    match Pattern::compile(alloc, text)? {
        Some(mut pattern) => Ok(Some(pattern.matches(value))),
        None => Ok(None),
    }
}

// That each row's pattern matches its value, or that none does.
fn check_values(rt: &impl Abort, alloc: Global, rows: &[&str], want: bool) -> Result<(), Fail> {
    for row in rows {
        let (text, value) = row.split_once('→').ok_or("no value")?;
        assert_eq!(rt; (*row, matches(alloc, text, value)?), (*row, Some(want)));
    }
    Ok(())
}

#[test]
fn values(rt: HostRuntime) -> Result<(), Fail> {
    let alloc = rt.alloc();
    check_values(&rt, alloc, &ALL_IN, true)?;
    check_values(&rt, alloc, &MATCHED, true)?;
    check_values(&rt, alloc, &NOT_IN, false)?;
    check_values(&rt, alloc, &UNMATCHED, false)
}

#[test]
fn a_long_value(rt: HostRuntime) -> Result<(), Fail> {
    let alloc = rt.alloc();
    let value = repeated(alloc, "", "a", 1_000, "")?;
    for (text, want) in [("(?:a?){1000}", true), ("(?:a?){999}", false)] {
        assert_eq!(rt; (text, matches(alloc, text, &value)?), (text, Some(want)));
    }
    Ok(())
}
