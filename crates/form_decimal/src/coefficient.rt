//! A coefficient that is read digit by digit.
ghost use Rattle.std.specs.Prelude.{◌≡◌, ◌+◌, ◌*◌, ◌%◌, ◌^◌, ◌<◌, ◌≤◌, IfSome, IfNone, length};
ghost use Rattle.std.specs.Char.{digit_value};
ghost use Rattle.std.specs.Str.Parse.{digits_value, digits_value_after, AllDigits};
ghost use Rattle.form_decimal.specs.Scaled.{IsBig};

use crate::scaling::raised;

/// A coefficient without its last zeros, and how many these are.
#[derive(Clone, Copy)]
pub struct Trimmed {
    pub value: u128,
    pub zeros: u128,
    pub ghost last: { 0 < value → 0 < value % 10 },
    pub ghost below: { value < 10 ^ 30 },
}

// The coefficient with one digit more.
fn push(t: Trimmed, digit: u8) -> Option<Trimmed>
    requires digit { digit_value digit < 10 }
    requires room { t.zeros < 2 ^ 90 }
    ensures some { IfSome result (λ u. u.value * 10 ^ u.zeros
        ≡ t.value * 10 ^ t.zeros * 10 + digit_value digit) }
    ensures bound { IfSome result (λ u. u.zeros ≤ t.zeros + 1) }
    ensures none { IfNone result (IsBig (t.value * 10 ^ t.zeros * 10 + digit_value digit)) }
{
    if digit == b'0' {
        if t.value == 0 {
            return Some(t);
        }
        return Some(Trimmed {
            value: t.value,
            zeros: t.zeros + 1,
        });
    }
    let Some(higher) = raised(t.value, t.zeros + 1) else {
        return None;
    };
    Some(Trimmed {
        value: higher + (digit - b'0') as u128,
        zeros: 0,
    })
}

// The coefficient with more digits.
fn more(t: Trimmed, digits: &[u8]) -> Option<Trimmed>
    requires digits { AllDigits 10 digits.now }
    requires room { t.zeros < 2 ^ 80 }
    ensures some { IfSome result (λ u. u.value * 10 ^ u.zeros
        ≡ digits_value_after 10 (t.value * 10 ^ t.zeros) digits.now) }
    ensures bound { IfSome result (λ u. u.zeros ≤ t.zeros + length digits.now) }
    ensures none { IfNone result (IsBig (digits_value_after 10 (t.value * 10 ^ t.zeros) digits.now)) }
{
    let mut state = t;
    for d in digits {
        let Some(next) = push(state, *d) else {
            return None;
        };
        state = next;
    }
    Some(state)
}

/// The coefficient that digits before and behind a point write.
pub fn coefficient(whole: &[u8], fraction: &[u8]) -> Option<Trimmed>
    requires whole { AllDigits 10 whole.now }
    requires fraction { AllDigits 10 fraction.now }
    ensures some { IfSome result (λ t. t.value * 10 ^ t.zeros
        ≡ digits_value_after 10 (digits_value 10 whole.now) fraction.now) }
    ensures bound { IfSome result (λ t. t.zeros < 2 ^ 90) }
    ensures none { IfNone result
        (IsBig (digits_value_after 10 (digits_value 10 whole.now) fraction.now)) }
{
    let start = Trimmed { value: 0, zeros: 0 };
    let Some(before_point) = more(start, whole) else {
        return None;
    };
    more(before_point, fraction)
}
