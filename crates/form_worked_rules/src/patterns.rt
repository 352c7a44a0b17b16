// Which texts are patterns.
use form_pattern::Pattern;
use std::alloc::{AllocError, Global};
use std::process::Abort;
use std::test::Fail;

// Texts of the grammar.
const INSIDE: [&str; 45] = [
    "",
    "a|b",
    "a||b",
    "|",
    "()",
    "(a*)*b",
    "a{2,}",
    "[^\\d]",
    "^a$",
    "[]",
    "[^]",
    "[^^]",
    "[a^]",
    "[\\^a]",
    "a*?",
    "a+?",
    "a??",
    "a{1}?",
    "a{2,3}?",
    "a{0}",
    "a{0,0}",
    "a{0002}",
    "a{00000000000000000000000000000000002000}",
    "a{2000,2000}",
    "()*",
    "(|a)*",
    "(?:)*",
    "(^)*",
    "\\x41\\u0041\\u{10FFFF}\\u{0}\\u{00000041}\\uD7FF\\uE000",
    "\\0a",
    "[\\0]",
    "\\/",
    "[a-z\\-&]",
    "[+-\\-]",
    "[a-a]",
    "[aa]",
    "[\\-\\-]",
    "[&!#$%*+,.:;<=>?@`~]",
    "[\\(\\)\\[\\]\\{\\}\\/\\|\\\\]",
    "[\\d\\D\\w\\W\\s\\S]",
    "(?=a)",
    "(?!)",
    "(?=(?!b)a)a",
    "(a{2000}b){0}",
    "((a{2000}){2000}){0}",
];

// Texts outside of the grammar.
const OUTSIDE: [&str; 107] = [
    "\\1",
    "\\8",
    "\\01",
    "\\09",
    "\\b",
    "\\c",
    "\\k",
    "\\p",
    "\\q",
    "\\B",
    "\\_",
    "\\-",
    "\\&",
    "\\ ",
    "\\",
    "\\x4",
    "\\xg0",
    "\\u004",
    "\\uD800",
    "\\uDFFF",
    "\\u{D800}",
    "\\u{110000}",
    "\\u{}",
    "\\u{41",
    "\\u{4g}",
    "[\\b]",
    "[\\1]",
    "[",
    "[a",
    "]",
    "{",
    "}",
    "{1}",
    "*",
    "+",
    "?",
    "|*",
    "(*)",
    "^*",
    "$?",
    "a**",
    "a*+",
    "a???",
    "a{1}{2}",
    "a{2001}",
    "a{0,2001}",
    "a{3,2}",
    "a{,2}",
    "a{}",
    "a{1",
    "a{1,",
    "a{1,2",
    "a{ 1}",
    "a{-1}",
    "(",
    ")",
    "(a",
    "a)",
    "(?",
    "(?)",
    "(?a)",
    "(?:a",
    "(?=a",
    "(?<n>a)",
    "(?<=a)b",
    "(?<!a)b",
    "(?i:a)",
    "(?=a)*",
    "(?=a)?",
    "(?!a){1}",
    "[z-a]",
    "[a-]",
    "[-a]",
    "[a-z-9]",
    "[a--b]",
    "[+--]",
    "[--a]",
    "[a-\\d]",
    "[\\d-a]",
    "[(]",
    "[)]",
    "[[]",
    "[{]",
    "[}]",
    "[/]",
    "[|]",
    "[-]",
    "[&&]",
    "[!!]",
    "[##]",
    "[$$]",
    "[%%]",
    "[**]",
    "[++]",
    "[,,]",
    "[..]",
    "[::]",
    "[;;]",
    "[<<]",
    "[==]",
    "[>>]",
    "[??]",
    "[@@]",
    "[a^^]",
    "[^^^]",
    "[``]",
    "[~~]",
];

// Texts that weigh at most 2,000; most weigh exactly that.
const LIGHT: [&str; 13] = [
    "a{2000}",
    "(?=a{1999})",
    "(?!a{1999})",
    "a{1999}|",
    "a{1998,1999}",
    "a{1998,}",
    "(a{1999})?",
    "(a{1999})*",
    "(a{1999})+",
    "(a{1000}){2}",
    "a{999}(a{500}){1,}",
    ".{1998}^$",
    "(a{2000}){1}",
];

// Texts that weigh more; most weigh 2,001.
const HEAVY: [&str; 13] = [
    "a{2000}b",
    "(?=a{2000})",
    "(?!a{2000})",
    "a{1999}|b",
    "a{1999,2000}",
    "a{1999,}",
    "(a{2000})?",
    "(a{2000})*",
    "(a{2000})+",
    "(a{1000}){3}",
    "(a{1000}){1,}",
    ".{1999}^$",
    "((a{2000}){2000}){2000}",
];

// Whether the text is of the grammar.
fn compiles(alloc: Global, text: &str) -> Result<bool, AllocError> {
    Ok(Pattern::compile(alloc, text)?.is_some())
}

// That the texts are of the grammar, or that they are not.
fn check_texts(rt: &impl Abort, alloc: Global, texts: &[&str], want: bool) -> Result<(), Fail> {
    for text in texts {
        assert_eq!(rt; (*text, compiles(alloc, text)?), (*text, want));
    }
    Ok(())
}

#[test]
fn texts(rt: HostRuntime) -> Result<(), Fail> {
    let alloc = rt.alloc();
    check_texts(&rt, alloc, &INSIDE, true)?;
    check_texts(&rt, alloc, &LIGHT, true)?;
    check_texts(&rt, alloc, &OUTSIDE, false)?;
    check_texts(&rt, alloc, &HEAVY, false)
}

// A text, a part so many times, and another text.
pub fn repeated(
    alloc: Global,
    front: &str,
    part: &str,
    count: usize,
    back: &str,
) -> Result<String, AllocError> {
    let mut text = String::from_str(alloc, front)?;
    for _ in 0..count {
        text.push_str(part)?;
    }
    text.push_str(back)?;
    Ok(text)
}

// Whether `a` within so many groups is of the grammar.
fn nests(alloc: Global, open: &str, count: usize) -> Result<bool, AllocError> {
    let deep = repeated(alloc, "", open, count, "a")?;
    let text = repeated(alloc, &deep, ")", count, "")?;
    compiles(alloc, &text)
}

#[test]
fn nesting(rt: HostRuntime) -> Result<(), Fail> {
    for open in ["(", "(?:", "(?=", "(?!"] {
        assert_eq!(rt; (open, nests(rt.alloc(), open, 64)?), (open, true));
        assert_eq!(rt; (open, nests(rt.alloc(), open, 65)?), (open, false));
    }
    Ok(())
}

// A front, a part, how often it stands, a back, and whether that is of the grammar.
const GROWING: [&str; 5] = [
    "((){1999,2000}){2000}||0||true",
    "(|(){0}|1000|a){2000}|true",
    "[|ab-zxy|10000|]{2000}|true",
    "|a|2000||true",
    "|a|2000|b|false",
];

// Whether such a row holds; nothing where it is no row or there is no memory.
fn grown(alloc: Global, row: &str) -> Option<bool> {
    let (front, rest) = row.split_once('|')?;
    let (part, rest) = rest.split_once('|')?;
    let (count, rest) = rest.split_once('|')?;
    let (back, want) = rest.split_once('|')?;
    let count = count.parse::<usize>().ok()?;
    let text = repeated(alloc, front, part, count, back).ok()?;
    let compiles = compiles(alloc, &text).ok()?;
    Some(compiles == (want == "true"))
}

// No tree grows beyond the weight, and a long text of 2,000 characters is no exception.
#[test]
fn growth(rt: HostRuntime) -> Result<(), Fail> {
    let alloc = rt.alloc();
    for row in GROWING {
        assert_eq!(rt; (row, grown(alloc, row)), (row, Some(true)));
    }
    Ok(())
}
