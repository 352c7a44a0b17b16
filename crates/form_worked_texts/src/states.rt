// What the states of an input answer. A row names its state by the keyword.
use crate::rows::{decimal, given, parts, text, units};
use form_decimal::read_valid;
use form_states::{Limits, number, sanitise, text_of};
use form_types::Kind;
use std::alloc::{AllocError, Global};
use std::test::Fail;

// A state, a text, and the text that it is sanitised to without attributes.
const SANITISED: [&str; 47] = [
    "text| a b | a b ",
    "text|a\r\nb\n|ab",
    "text|\r\n|",
    "search| a b | a b ",
    "search|a\r\nb\n|ab",
    "search|\r\n|",
    "tel| a b | a b ",
    "tel|a\r\nb\n|ab",
    "tel|\r\n|",
    "password| a b | a b ",
    "password|a\r\nb\n|ab",
    "password|\r\n|",
    "hidden| a\r\n| a\r\n",
    "checkbox| a\r\n| a\r\n",
    "radio| a\r\n| a\r\n",
    "file| a\r\n| a\r\n",
    "submit| a\r\n| a\r\n",
    "image| a\r\n| a\r\n",
    "reset| a\r\n| a\r\n",
    "button| a\r\n| a\r\n",
    "url|http://a/|http://a/",
    "url| a\nb |ab",
    "url|\t a b\r\n|a b",
    "url| \t\r\n|",
    "date|2000-02-29|2000-02-29",
    "date|1900-02-29|",
    "month|1969-12|1969-12",
    "month|1969-13|",
    "week|2020-W53|2020-W53",
    "week|2021-W53|",
    "time|23:59:59.90|23:59:59.90",
    "time|24:00|",
    "datetime-local|2024-05-06T07:08|2024-05-06T07:08",
    "datetime-local|2024-05-06 07:08:00.500|2024-05-06T07:08:00.5",
    "datetime-local|2024-05-06 07:08:00.000|2024-05-06T07:08",
    "datetime-local|2024-05-06|",
    "number|1e17|1e17",
    "number|100000000000000000000e-20|100000000000000000000e-20",
    "number|1.|",
    "number|1e18|",
    "range|5.0|5.0",
    "range|5.5|6",
    "range||50",
    "color|#0a0b0c|#0a0b0c",
    "color|#ABCDEF|#abcdef",
    "color|#abcdeg|#000000",
    "color||#000000",
];

fn sanitised(alloc: Global, state: &str, text: &str) -> Result<String, AllocError> {
    let Ok(kind) = Kind::of(Some(state)) else {
        return String::from_str(alloc, "no state");
    };
    let limits = Limits::of(kind, None, None, None, None);
    sanitise(alloc, kind, &limits, text)
}

#[test]
fn each_state(rt: HostRuntime) -> Result<(), Fail> {
    for row in SANITISED {
        let (state, text, want) = parts(row).ok_or("no row")?;
        let made = sanitised(rt.alloc(), state, text)?;
        assert_eq!(rt; (row, made.as_str()), (row, want));
    }
    Ok(())
}

// A call, a state with a number or a text, and the answer. A number is answered as its ones and the
// units that are left.
const NUMBERS: [&str; 38] = [
    "text_of|date 0|1970-01-01",
    "number|date 1970-01-01|0:0",
    "text_of|date 86400000|1970-01-02",
    "number|date 1970-01-02|86400000:0",
    "text_of|month -1|1969-12",
    "number|month 1969-12|-1:0",
    "text_of|week -259200000|1970-W01",
    "number|week 1970-W01|-259200000:0",
    "text_of|time 45296789|12:34:56.789",
    "number|time 12:34:56.789|45296789:0",
    "text_of|datetime-local 0|1970-01-01T00:00",
    "number|datetime-local 1970-01-01T00:00|0:0",
    "text_of|number 0.5|0.5",
    "number|number 0.5|0:500000000000",
    "text_of|number -12.50|-12.5",
    "number|number -12.5|-12:-500000000000",
    "text_of|range 1e17|100000000000000000",
    "number|range 100000000000000000|100000000000000000:0",
    // No day begins 1 ms after another, months and milliseconds are whole, 1970-01-01 is no Monday,
    // and a day has 86,400,000 ms. In number and range each decimal has a text.
    "text_of|date 1|none",
    "text_of|month 0.5|none",
    "text_of|week 0|none",
    "text_of|time 86400000|none",
    "text_of|time -1|none",
    "text_of|datetime-local 0.5|none",
    "text_of|datetime-local 1e17|none",
    "text_of|text 0.5|none",
    "text_of|color 0|none",
    "text_of|hidden 0|none",
    "number|date 1970-1-2|none",
    "number|month 1969-00|none",
    "number|week 1970-W54|none",
    "number|time 12:60|none",
    "number|datetime-local 1970-01-01|none",
    "number|number +1|none",
    "number|number 1e-13|none",
    "number|range |none",
    "number|text 1|none",
    "number|hidden 1|none",
];

fn text_for(alloc: Global, kind: Kind, n: &str) -> Result<String, AllocError> {
    match read_valid(n) {
        Some(n) => text(alloc, text_of(alloc, kind, n)?),
        None => String::from_str(alloc, "no number"),
    }
}

// What that call answers to a state and a number or a text.
fn answer(alloc: Global, call: &str, asked: &str) -> Result<String, AllocError> {
    let Some((state, asked)) = asked.split_once(' ') else {
        return String::from_str(alloc, "no text");
    };
    match (call, Kind::of(Some(state))) {
        ("text_of", Ok(kind)) => text_for(alloc, kind, asked),
        ("number", Ok(kind)) => decimal(alloc, number(kind, asked)),
        _ => String::from_str(alloc, "no call"),
    }
}

#[test]
fn numbers_and_their_texts(rt: HostRuntime) -> Result<(), Fail> {
    for row in NUMBERS {
        let (call, asked, want) = parts(row).ok_or("no row")?;
        let answer = answer(rt.alloc(), call, asked)?;
        assert_eq!(rt; (row, answer.as_str()), (row, want));
    }
    Ok(())
}

// A state, its attributes `min`, `max`, `step` and `value`, `-` a missing one, and the limits: minimum,
// maximum, step and base.
const LIMITS: [&str; 22] = [
    "range|-,-,-,-|0:0 100:0 1:0 0:0",
    "range|-,-,-,3.3|0:0 100:0 1:0 3:300000000000",
    "range|x,x,x,x|0:0 100:0 1:0 0:0",
    "range|2,1,0.5,3.3|2:0 1:0 0:500000000000 2:0",
    "number|-,-,-,-|none none 1:0 0:0",
    "number| +1.e1x,1.5e,any,7|10:0 1:500000000000 none 10:0",
    "number|-,-,ANY,7|none none none 7:0",
    "number|-,-,0,-|none none 1:0 0:0",
    "number|-,-,-2,-|none none 1:0 0:0",
    "number|-,-, 2x,-|none none 2:0 0:0",
    "number|-,-,1e18,-|none none 1:0 0:0",
    // 2024-01-01 is day 19,723; there is no month 13.
    "date|2024-01-01,2024-13-01,7,1970-01-02|1704067200000:0 none 604800000:0 1704067200000:0",
    "date|5,-,-,1970-01-02|none none 86400000:0 86400000:0",
    "month|-,-,2,1969-12|none none 2:0 -1:0",
    "week|-,-,-,-|none none 604800000:0 -259200000:0",
    "week|1970-W02,-,-,-|345600000:0 none 604800000:0 345600000:0",
    // The greatest step: 10^17 weeks.
    "week|-,-,1e17,1970-W02|none none 60480000000000000000000000:0 345600000:0",
    "time|22:00,06:00,-,-|79200000:0 21600000:0 60000:0 79200000:0",
    // Four digits of a second do not read.
    "time|12:00:00.1234,-,0.001,00:00:01|none none 1:0 1000:0",
    "datetime-local|1970-01-01 00:01,-,-,-|60000:0 none 60000:0 60000:0",
    "text|1,2,3,4|none none none 0:0",
    "checkbox|1,2,3,4|none none none 0:0",
];

fn limits_of(state: &str, attributes: &str) -> Option<Limits> {
    let kind = Kind::of(Some(state)).ok()?;
    let (min, rest) = attributes.split_once(',')?;
    let (max, rest) = rest.split_once(',')?;
    let (step, value) = rest.split_once(',')?;
    Some(Limits::of(kind, given(min), given(max), given(step), given(value)))
}

fn spelled(alloc: Global, limits: Limits) -> Result<String, AllocError> {
    let min = decimal(alloc, limits.min)?;
    let max = decimal(alloc, limits.max)?;
    let step = units(alloc, limits.step)?;
    let base = decimal(alloc, Some(limits.base))?;
    format!(in alloc;
        "{} {} {} {}",
        min.as_str(),
        max.as_str(),
        step.as_str(),
        base.as_str()
    )
}

#[test]
fn limits(rt: HostRuntime) -> Result<(), Fail> {
    for row in LIMITS {
        let (state, attributes, want) = parts(row).ok_or("no row")?;
        let limits = limits_of(state, attributes).ok_or("no limits")?;
        let limits = spelled(rt.alloc(), limits)?;
        assert_eq!(rt; (row, limits.as_str()), (row, want));
    }
    Ok(())
}

// Minimum, maximum, step and base, a text, and the text that range makes of it.
const RANGES: [&str; 48] = [
    // Default 0 + 10 / 2 = 5, as far from 4 as from 6: the greater.
    "0 10 2 0|x|6",
    "0 10 2 0||6",
    // `+1` is no valid number: the default again.
    "0 10 2 0|+1|6",
    "0 10 2 0|5|6",
    // Below the minimum, and above the maximum; both are aligned.
    "0 10 2 0|-3|0",
    "0 10 2 0|12|10",
    // No step changes these numbers: 4, 10 and 0 keep their spelling.
    "0 10 2 0|4.0|4.0",
    "0 10 2 0|1e1|1e1",
    "0 10 2 0|-0|-0",
    // The maximum is below the minimum: the default is the minimum, and nothing is lowered.
    "10 5 1 0|x|10",
    "10 5 1 0|7|10",
    "10 5 1 0|12|12",
    // From 10 on the multiples of 4 begin at 12: 11 is next to it, 14 is between it and 16.
    "10 5 4 0|x|12",
    "10 5 4 0|11|12",
    "10 5 4 0|14|16",
    // No multiple of 5 is from 1 to 4: 2 stays, 0 is raised, 9 lowered, 1 + 3 / 2 the default.
    "1 4 5 0|2|2",
    "1 4 5 0|0|1",
    "1 4 5 0|9|4",
    "1 4 5 0|x|2.5",
    // 0.3, 1.3 and so on to 99.3: -0.7 and 100.3 are outside.
    "0 100 1 0.3|0|0.3",
    "0 100 1 0.3|0.8|1.3",
    "0 100 1 0.3|0.79|0.3",
    "0 100 1 0.3|100|99.3",
    // Without a step each number is aligned.
    "0 10 any 0|3.14159|3.14159",
    "0 5 any 0|x|2.5",
    "0 10 any 0|-1|0",
    "0 9 any 0|1e1|9",
    // 9 is the last multiple of 3 up to 10; 1.5 is between 0 and 3; 4.4 is 1.4 above 3.
    "0 10 3 0|10|9",
    "0 10 3 0|1.5|3",
    "0 10 3 0|4.4|3",
    // -10, -6, -2: -7 is next to -6, -8 is between, and so is the default -10 + 4.5 = -5.5 near -6.
    "-10 -1 4 -10|-7|-6",
    "-10 -1 4 -10|-8|-6",
    "-10 -1 4 -10|x|-6",
    // Half of one unit is rounded down to 0, half of three to one.
    "0 0.000000000001 any 0|x|0",
    "0 0.000000000003 0.000000000001 0|x|0.000000000001",
    // One number between the ends, which is odd, or the base itself.
    "5 5 2 0|x|5",
    "5 5 2 0|9|5",
    "5 5 2 5|0|5",
    // 1, 3 and so on to 9: -1 and 11 are outside.
    "0 10 2 1|0|1",
    "0 10 2 1|10|9",
    // Of the multiples of 100 only 0 is there.
    "0 10 100 0|7|0",
    // A step that does not read, or is not above 0, is 1.
    "0 10 x 0|2.5|3",
    "0 10 -1 0|2.4|2",
    "0 10 0.1 0|0.25|0.3",
    // 10^17 is 1 more than a multiple of 3, and no greater number is a candidate.
    "1e17 0 3 0|x|100000000000000000",
    "99999999999999999 0 3 0|x|99999999999999999",
    "99999999999999998 0 3 0|1e17|99999999999999999",
    // The same at the lower end: -10^17 is no multiple of 3, the next one up is.
    "-1e17 0 3 0|-1e17|-99999999999999999",
];

// The minimum, maximum, step and base of a row.
fn ends(text: &str) -> Option<(&str, &str, &str, &str)> {
    let (min, rest) = text.split_once(' ')?;
    let (max, rest) = rest.split_once(' ')?;
    let (step, base) = rest.split_once(' ')?;
    Some((min, max, step, base))
}

fn in_range(alloc: Global, limits: &str, text: &str) -> Result<String, AllocError> {
    let Some((min, max, step, base)) = ends(limits) else {
        return String::from_str(alloc, "no limits");
    };
    let Some(base) = read_valid(base) else {
        return String::from_str(alloc, "no base");
    };
    let read = Limits::of(Kind::Range, Some(min), Some(max), Some(step), None);
    let limits = Limits {
        min: read.min,
        max: read.max,
        step: read.step,
        base,
    };
    sanitise(alloc, Kind::Range, &limits, text)
}

#[test]
fn range(rt: HostRuntime) -> Result<(), Fail> {
    for row in RANGES {
        let (limits, text, want) = parts(row).ok_or("no row")?;
        let made = in_range(rt.alloc(), limits, text)?;
        assert_eq!(rt; (row, made.as_str()), (row, want));
    }
    Ok(())
}
