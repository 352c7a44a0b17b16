//! The longest numeral at the front of a text.
ghost use Rattle.std.specs.Prelude.{◌≡◌, ◌&&◌, option_map, length, ◌≤◌, ◌+◌, nat_lt};
ghost use Rattle.form_decimal.specs.Numeral.{is_minus, places};
ghost use Rattle.form_decimal.specs.Plain.{plain, plain_power};
ghost use Rattle.form_decimal.specs.Spelling.{begins, digit_len, sign_at, behind_sign, has_point, point_at, behind_point, exponent_at, behind_exponent, numeral_front, is_plus, is_bare, is_valid};

/// A sign that is written.
#[derive(Clone, Copy)]
pub enum Sign {
    Plus,
    Minus,
}

/// An exponent: `e` or `E`, a sign or none, and digits.
#[derive(Clone, Copy)]
pub struct Power<'a> {
    pub capital: bool,
    pub sign: Option<Sign>,
    pub digits: &'a [u8],
}

/// A numeral: a sign, the digits before a point and behind it, and an exponent.
#[derive(Clone, Copy)]
pub struct Spelled<'a> {
    pub sign: Option<Sign>,
    pub whole: &'a [u8],
    pub fraction: Option<&'a [u8]>,
    pub exponent: Option<Power<'a>>,
}

impl Spelled<'_> {
    /// Whether it is valid: no `+` in front, and digits behind a point.
    pub fn is_valid(&self) -> bool
        ensures { result ≡ is_valid (plain self.now) }
    {
        !is_plus(self.sign) && !is_bare(self.fraction)
    }
}

fn is_plus(sign: Option<Sign>) -> bool
    ensures { result ≡ is_plus sign }
{
    match sign {
        Some(Sign::Plus) => true,
        _ => false,
    }
}

fn is_bare(fraction: Option<&[u8]>) -> bool
    ensures { result ≡ is_bare (option_map (λ d. d.now) fraction.entry) }
{
    match fraction {
        Some([]) => true,
        _ => false,
    }
}

/// Whether the sign is `-`.
pub fn is_minus(sign: Option<Sign>) -> bool
    ensures { result ≡ is_minus sign }
{
    match sign {
        Some(Sign::Minus) => true,
        _ => false,
    }
}

/// The digits behind the point.
pub fn places_of<'a>(fraction: Option<&'a [u8]>) -> &'a [u8]
    ensures { result.now ≡ places (option_map (λ d. d.now) fraction.entry) }
{
    match fraction {
        Some(digits) => digits,
        None => &[],
    }
}

fn begins(text: &[u8], byte: u8) -> bool
    ensures { result ≡ begins byte text.now }
{
    match text {
        [first, ..] => *first == byte,
        [] => false,
    }
}

// How many digits stand at the front.
fn digit_count(text: &[u8]) -> usize
    ensures value { result ≡ digit_len text.now }
    ensures bound { result ≤ length text.now }
{
    for (i, b) in text.iter().enumerate() {
        if !b.is_ascii_digit() {
            return i;
        }
    }
    text.len()
}

fn sign_of(text: &[u8]) -> Option<Sign>
    ensures { result ≡ sign_at text.now }
{
    if begins(text, b'-') {
        Some(Sign::Minus)
    } else if begins(text, b'+') {
        Some(Sign::Plus)
    } else {
        None
    }
}

fn behind_sign(text: &[u8]) -> &[u8]
    ensures { result.now ≡ behind_sign text.now }
{
    match sign_of(text) {
        Some(_) => &text[1..],
        None => text,
    }
}

fn has_point(some: bool, text: &[u8]) -> bool
    ensures { result ≡ has_point some text.now }
{
    match text {
        [b'.', next, ..] => some || next.is_ascii_digit(),
        [b'.'] => some,
        _ => false,
    }
}

// The digits behind a point, where it counts, and what stands behind them.
fn point_of(some: bool, text: &[u8]) -> (Option<&[u8]>, &[u8])
    ensures point { option_map (λ s. s.now) result.0 ≡ point_at some text.now }
    ensures rest { result.1.now ≡ behind_point some text.now }
{
    if !has_point(some, text) {
        return (None, text);
    }
    let rest = &text[1..];
    let count = digit_count(rest);
    (Some(&rest[..count]), &rest[count..])
}

// An exponent, where it has a digit, and what stands behind it.
fn exponent_of(text: &[u8]) -> (Option<Power<'_>>, &[u8])
    ensures power { option_map plain_power result.0 ≡ exponent_at text.now }
    ensures rest { result.1.now ≡ behind_exponent text.now }
{
    let capital = begins(text, b'E');
    if !capital && !begins(text, b'e') {
        return (None, text);
    }
    let sign = sign_of(&text[1..]);
    let digits = behind_sign(&text[1..]);
    let count = digit_count(digits);
    if count == 0 {
        return (None, text);
    }
    let power = Power {
        capital,
        sign,
        digits: &digits[..count],
    };
    (Some(power), &digits[count..])
}

fn has_digit(whole: usize, fraction: usize) -> bool
    ensures { result ≡ nat_lt 0 (whole + fraction) }
{
    whole != 0 || fraction != 0
}

/// The longest numeral at the front of the text, and what stands behind it.
pub fn numeral_of(text: &[u8]) -> Option<(Spelled<'_>, &[u8])>
    ensures { option_map (λ x. (plain x.0, x.1.now)) result ≡ numeral_front text.now }
{
    let unsigned = behind_sign(text);
    let count = digit_count(unsigned);
    let (fraction, behind_point) = point_of(count > 0, &unsigned[count..]);
    if !has_digit(count, places_of(fraction).len()) {
        return None;
    }
    let (exponent, rest) = exponent_of(behind_point);
    let spelled = Spelled {
        sign: sign_of(text),
        whole: &unsigned[..count],
        fraction,
        exponent,
    };
    Some((spelled, rest))
}
