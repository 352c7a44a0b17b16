// What the calls on decimals answer.
ghost use Rattle.std.specs.Prelude.{pos, IfSome, ◌≤ℤ◌, ◌*◌, ◌^◌};

use crate::rows::{decimal, given, parts};
use form_decimal::{
    Decimal, aligned, half_between, nearest_aligned, print, read_lenient, read_valid,
};
use std::alloc::{AllocError, Global};
use std::test::Fail;

// The greatest step: 10^17 weeks, in units.
const WEEKS: i128 = 60_480_000_000_000_000_000_000_000_000_000_000_000;

// A call, its text and its answer. A number is answered as its ones and the units that are left.
const CALLS: [&str; 86] = [
    // a text: its number as a valid text, and its number in the lenient reading
    "read|1.|none 1:0",
    "read|+1|none 1:0",
    "read|1e18|none none",
    "read|1e-13|none none",
    "read|100000000000000000000e-20|1:0 1:0",
    "read|-0e99999999999999999999|0:0 0:0",
    "read| +1.e5x|none 100000:0",
    "read|1.5e|none 1:500000000000",
    "read|.e5|none none",
    "read|-12.50|-12:-500000000000 -12:-500000000000",
    "read|-0|0:0 0:0",
    "read|-0.0e5|0:0 0:0",
    "read|00012.500|12:500000000000 12:500000000000",
    "read|1e-12|0:1 0:1",
    "read|1e17|100000000000000000:0 100000000000000000:0",
    "read|-1e17|-100000000000000000:0 -100000000000000000:0",
    "read|100000000000000000.000000000001|none none",
    "read|-100000000000000000.000000000001|none none",
    "read|.|none none",
    "read|-.5|0:-500000000000 0:-500000000000",
    "read|1.e5|none 100000:0",
    "read||none none",
    "read|-|none none",
    "read|-+1|none none",
    "read|1e|none 1:0",
    "read|1e+|none 1:0",
    "read|1E+2|100:0 100:0",
    "read|1e-2|0:10000000000 0:10000000000",
    "read|1e1.5|none 10:0",
    "read|-.5e1.5|none -5:0",
    "read|1.0000000000000|1:0 1:0",
    "read|1.0000000000001|none none",
    "read|1 |none 1:0",
    "read|\t\n\x0c\r 7|none 7:0",
    "read|\u{a0}7|none none",
    "read|1,5|none 1:0",
    "read|Infinity|none none",
    "read|0x10|none 0:0",
    "read|0.5.5|none 0:500000000000",
    "read|e5|none none",
    // the same of a front, a digit so many times, and an end
    "read_long|1 0 100000 e-100000|1:0 1:0",
    "read_long|0. 0 99999 25e100000|2:500000000000 2:500000000000",
    "read_long|. 0 99999 25e100000|2:500000000000 2:500000000000",
    "read_long|- 0 100000 7|-7:0 -7:0",
    "read_long|3.5 0 100000 |3:500000000000 3:500000000000",
    "read_long|1 3 100000 e-100000|none none",
    "read_long|0e 9 100000 |0:0 0:0",
    "read_long|1e- 9 100000 |none none",
    "read_long|1e 0 100000 2|100:0 100:0",
    // the greatest number, the least, and beyond
    "of_units|100000000000000000000000000000|100000000000000000:0",
    "of_units|-100000000000000000000000000000|-100000000000000000:0",
    "of_units|100000000000000000000000000001|none",
    "of_units|-100000000000000000000000000001|none",
    "of_units|-170141183460469231731687303715884105728|none",
    // a number
    "print|-12.50|-12.5",
    "print|-0.0e5|0",
    "print|00012.500|12.5",
    "print|.5|0.5",
    "print|10|10",
    "print|-1e-12|-0.000000000001",
    "print|1.05e0|1.05",
    "print|1e17|100000000000000000",
    "print|99999999999999999.999999999999|99999999999999999.999999999999",
    // a number, a base and a step
    "aligned|4 0 3|false",
    "aligned|6 0 3|true",
    "aligned|4 1 3|true",
    "aligned|-2 1 3|true",
    "aligned|-1 1 3|false",
    "aligned|0.3 0 0.1|true",
    "aligned|1e17 -1e17 2e-12|true",
    "aligned|5e-12 5e-12 weeks|true",
    "aligned|1e17 -1e17 weeks|false",
    // a number, a base, a step, a lower end and an upper one, which may be missing
    "nearest|5 0 2 0 10|6:0",
    "nearest|5 0 2 0 5|4:0",
    "nearest|1 0 5 1 4|none",
    "nearest|-5 0 2 -10 -|-4:0",
    "nearest|4.000000000001 0 3 0 -|3:0",
    "nearest|-8 1 3 0 9|1:0",
    "nearest|8 1 3 0 6|4:0",
    "nearest|1e17 0 3 0 -|99999999999999999:0",
    "nearest|0 1e17 weeks -1e17 0|none",
    // two numbers
    "half|0 1e-12|0:0",
    "half|-1e-12 0|0:-1",
    "half|1 4|2:500000000000",
    "half|-1e17 1e17|0:0",
    "half|7e-12 7e-12|0:7",
];

// Both readings of a text.
fn readings(alloc: Global, text: &str) -> Result<String, AllocError> {
    let valid = decimal(alloc, read_valid(text))?;
    let lenient = decimal(alloc, read_lenient(text))?;
    format!(in alloc; "{} {}", valid.as_str(), lenient.as_str())
}

// A front, a text, how often it stands there, and an end.
fn repeated(text: &str) -> Option<(&str, &str, usize, &str)> {
    let (front, rest) = text.split_once(' ')?;
    let (digit, rest) = rest.split_once(' ')?;
    let (count, end) = rest.split_once(' ')?;
    Some((front, digit, count.parse::<usize>().ok()?, end))
}

fn long_readings(alloc: Global, text: &str) -> Result<String, AllocError> {
    let Some((front, digit, count, end)) = repeated(text) else {
        return String::from_str(alloc, "no text");
    };
    let digits = digit.repeat(alloc, count)?;
    let long = format!(in alloc; "{front}{}{end}", digits.as_str())?;
    readings(alloc, long.as_str())
}

fn of_units(text: &str) -> Option<Decimal> {
    Decimal::of_units(text.parse::<i128>().ok()?)
}

fn printed(alloc: Global, text: &str) -> Result<String, AllocError> {
    match read_valid(text) {
        Some(n) => print(alloc, n),
        None => String::from_str(alloc, "no number"),
    }
}

// The step of a row, in units.
fn step_of(text: &str) -> Option<i128>
    ensures least { IfSome result (λ step. pos 1 ≤ℤ step) }
    ensures greatest { IfSome result (λ step. step ≤ℤ pos (6048 * 10 ^ 34)) }
{
    if text == "weeks" {
        return Some(WEEKS);
    }
    let step = read_valid(text)?.units();
    if step < 1 || step > WEEKS {
        return None;
    }
    Some(step)
}

fn is_aligned(text: &str) -> Option<bool> {
    let (n, rest) = text.split_once(' ')?;
    let (base, step) = rest.split_once(' ')?;
    Some(aligned(read_valid(n)?, read_valid(base)?, step_of(step)?))
}

fn nearest(text: &str) -> Option<Option<Decimal>> {
    let (n, rest) = text.split_once(' ')?;
    let (base, rest) = rest.split_once(' ')?;
    let (step, rest) = rest.split_once(' ')?;
    let (low, high) = rest.split_once(' ')?;
    let high = match given(high) {
        Some(high) => Some(read_valid(high)?),
        None => None,
    };
    Some(nearest_aligned(
        read_valid(n)?,
        read_valid(base)?,
        step_of(step)?,
        read_valid(low)?,
        high,
    ))
}

// Half of what lies between, where the second is not below the first.
fn half(text: &str) -> Option<Decimal> {
    let (low, high) = text.split_once(' ')?;
    let low = read_valid(low)?;
    let high = read_valid(high)?;
    if high < low {
        return None;
    }
    Some(half_between(low, high))
}

// What that call answers to that text.
fn answer(alloc: Global, call: &str, text: &str) -> Result<String, AllocError> {
    match call {
        "read" => readings(alloc, text),
        "read_long" => long_readings(alloc, text),
        "of_units" => decimal(alloc, of_units(text)),
        "print" => printed(alloc, text),
        "aligned" => match is_aligned(text) {
            Some(is) => format!(in alloc; "{is}"),
            None => String::from_str(alloc, "no numbers"),
        },
        "nearest" => match nearest(text) {
            Some(n) => decimal(alloc, n),
            None => String::from_str(alloc, "no numbers"),
        },
        "half" => decimal(alloc, half(text)),
        _ => String::from_str(alloc, "no call"),
    }
}

#[test]
fn calls(rt: HostRuntime) -> Result<(), Fail> {
    for row in CALLS {
        let (call, text, want) = parts(row).ok_or("no row")?;
        let answer = answer(rt.alloc(), call, text)?;
        assert_eq!(rt; (row, answer.as_str()), (row, want));
    }
    Ok(())
}
