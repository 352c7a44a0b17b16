// What the calls on texts answer.
use crate::rows::parts;
use form_text::{
    Sequence, Text, behind, eq_ascii_case, normalise_crlf, normalise_lf, parse_nonneg,
    strip_collapse, strip_newlines, strip_whitespace, utf16_len,
};
use std::alloc::{AllocError, Global};
use std::test::Fail;

// A call, its text and its answer. `=` parts the two texts of a call.
const CALLS: [&str; 68] = [
    // line ends
    "strip_newlines|a\r\nb|ab",
    "normalise_lf|a\r\nb|a\nb",
    "normalise_crlf|a\r\nb|a\r\nb",
    "strip_newlines|a\nb\rc\r\n|abc",
    "normalise_lf|a\nb\rc\r\n|a\nb\nc\n",
    "normalise_crlf|a\nb\rc\r\n|a\r\nb\r\nc\r\n",
    "strip_newlines|a\r\nb\r|ab",
    "normalise_lf|a\r\nb\r|a\nb\n",
    "normalise_crlf|a\r\nb\r|a\r\nb\r\n",
    "strip_newlines||",
    "normalise_lf||",
    "normalise_crlf||",
    "strip_newlines|\r|",
    "normalise_lf|\r|\n",
    "normalise_crlf|\r|\r\n",
    "strip_newlines|\r\r\n\n|",
    "normalise_lf|\r\r\n\n|\n\n\n",
    "normalise_crlf|\r\r\n\n|\r\n\r\n\r\n",
    "strip_newlines|\n\r|",
    "normalise_lf|\n\r|\n\n",
    "normalise_crlf|\n\r|\r\n\r\n",
    "strip_newlines|é\r😀\n\u{A0}\u{85}|é😀\u{A0}\u{85}",
    "normalise_lf|é\r😀\n\u{A0}\u{85}|é\n😀\n\u{A0}\u{85}",
    "normalise_crlf|é\r😀\n\u{A0}\u{85}|é\r\n😀\r\n\u{A0}\u{85}",
    // U+00A0 and U+0085 are no ASCII whitespace
    "strip_whitespace| A \t B |A \t B",
    "strip_collapse| A \t B |A B",
    "strip_whitespace||",
    "strip_collapse||",
    "strip_whitespace| \t\n\u{C}\r |",
    "strip_collapse| \t\n\u{C}\r |",
    "strip_whitespace|a\rb\r\nc|a\rb\r\nc",
    "strip_collapse|a\rb\r\nc|a b c",
    "strip_whitespace|\u{A0} a\u{85} \u{A0}|\u{A0} a\u{85} \u{A0}",
    "strip_collapse|\u{A0} a\u{85} \u{A0}|\u{A0} a\u{85} \u{A0}",
    "strip_whitespace|  \u{B}x  y\u{C}|\u{B}x  y",
    "strip_collapse|  \u{B}x  y\u{C}|\u{B}x y",
    "strip_whitespace|\n😀  é\r|😀  é",
    "strip_collapse|\n😀  é\r|😀 é",
    // lengths, cases and fronts
    "utf16_len||0",
    "utf16_len|ab|2",
    "utf16_len|é\u{FFFD}|2",
    "utf16_len|😀|2",
    "utf16_len|a😀b\u{10000}|6",
    "eq_ascii_case|dateTime-LOCAL=DATETIME-local|true",
    "eq_ascii_case|é=É|false",
    "eq_ascii_case|\u{212A}=k|false",
    "eq_ascii_case|a=ab|false",
    "behind|été=é|té",
    "behind|ab=|ab",
    "behind|ab=ab|",
    "behind|ab=abc|none",
    "behind|ab=b|none",
    // numbers
    "parse_nonneg||none",
    "parse_nonneg|-|none",
    "parse_nonneg|x1|none",
    "parse_nonneg|\u{A0}1|none",
    "parse_nonneg|+-1|none",
    "parse_nonneg|- 1|none",
    "parse_nonneg|-1|none",
    "parse_nonneg|-0|0",
    "parse_nonneg|-00x|0",
    "parse_nonneg|+7|7",
    "parse_nonneg| \t\r\n\u{C}12x|12",
    "parse_nonneg|007.9|7",
    "parse_nonneg|4294967294|4294967294",
    "parse_nonneg|4294967295|4294967295",
    "parse_nonneg|4294967296|4294967295",
    "parse_nonneg|99999999999999999999999999|4294967295",
];

fn pair(text: &str) -> (&str, &str) {
    match text.split_once('=') {
        Some(pair) => pair,
        None => (text, ""),
    }
}

// What that call answers to that text.
fn answer(alloc: Global, call: &str, text: &str) -> Result<String, AllocError> {
    match call {
        "strip_newlines" => strip_newlines(alloc, text),
        "normalise_lf" => normalise_lf(alloc, text),
        "normalise_crlf" => normalise_crlf(alloc, text),
        "strip_whitespace" => String::from_str(alloc, strip_whitespace(text)),
        "strip_collapse" => strip_collapse(alloc, text),
        "utf16_len" => format!(in alloc; "{}", utf16_len(text)),
        "eq_ascii_case" => {
            let (left, right) = pair(text);
            format!(in alloc; "{}", eq_ascii_case(left, right))
        }
        "behind" => {
            let (text, front) = pair(text);
            String::from_str(alloc, behind(text, front).unwrap_or("none"))
        }
        "parse_nonneg" => match parse_nonneg(text) {
            Some(n) => format!(in alloc; "{n}"),
            None => String::from_str(alloc, "none"),
        },
        _ => String::from_str(alloc, "no call"),
    }
}

#[test]
fn calls(rt: HostRuntime) -> Result<(), Fail> {
    for row in CALLS {
        let (call, text, want) = parts(row).ok_or("no row")?;
        let answer = answer(rt.alloc(), call, text)?;
        assert_eq!(rt; (row, answer.as_str()), (row, want));
    }
    Ok(())
}

#[test]
fn small_types_hold_what_they_are_given(rt: HostRuntime) -> Result<(), Fail> {
    let alloc = rt.alloc();
    let text = Text::from_string(Text::from_str(alloc, "é")?.into_string());
    assert_eq!(rt; text.clone()?.as_str(), "é");
    assert_eq!(rt; text.into_string().as_str(), "é");

    let mut numbers: Sequence<u32> = Sequence::new(alloc);
    assert_eq!(rt; numbers.as_slice().len(), 0);
    numbers.push(3)?;
    numbers.push(1)?;
    assert_eq!(rt; numbers.clone()?.as_slice(), [3, 1].as_slice());
    let numbers = Sequence::from_vec(numbers.into_vec());
    assert_eq!(rt; numbers.as_slice(), [3, 1].as_slice());
    Ok(())
}
