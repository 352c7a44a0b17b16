//! Numbers in a pattern.
ghost use Rattle.std.specs.Prelude.{◌≡◌, ◌<◌, ◌≤◌, ◌*◌, ◌+◌, ◌^◌, IfSome, option_map};
ghost use Rattle.form_pattern.specs.NumberReading.{number_after, number, hex, two_hex, four_hex};

// The number that digits at the front go on with, and what is behind them; None above the most.
#[tactic(auto, unfolding(crate::specs::NumberReading::number_after))]
fn number_after(text: &[char], base: u32, most: u32, before: u32) -> Option<(u32, &[char])>
    requires low { 2 ≤ base }
    requires high { base ≤ 16 }
    requires most { most < 2 ^ 24 }
    requires before { before ≤ most }
    ensures { option_map (λ r. (r.0, r.1.now)) result ≡ number_after base most before text.now }
{
    let mut value = before;
    let mut rest = text;
    while let Some((c, behind)) = rest.split_first() {
        let Some(digit) = c.to_digit(base) else {
            return Some((value, rest));
        };
        value = value * base + digit;
        if most < value {
            return None;
        }
        rest = behind;
    }
    Some((value, rest))
}

/// The number of the digits at the front, and what is behind them; None where there is no digit, or
/// the number is above the most.
pub fn number(text: &[char], base: u32, most: u32) -> Option<(u32, &[char])>
    requires low { 2 ≤ base }
    requires high { base ≤ 16 }
    requires most { most < 2 ^ 24 }
    ensures { option_map (λ r. (r.0, r.1.now)) result ≡ number base most text.now }
{
    let Some((c, _)) = text.split_first() else {
        return None;
    };
    if c.is_digit(base) {
        return number_after(text, base, most, 0);
    }
    None
}

// The value of the hexadecimal digit at the front.
fn hex(text: &[char]) -> Option<(u32, &[char])>
    ensures value { option_map (λ r. (r.0, r.1.now)) result ≡ hex text.now }
    ensures small { IfSome result (λ r. r.0 < 16) }
{
    let Some((c, rest)) = text.split_first() else {
        return None;
    };
    let Some(digit) = c.to_digit(16) else {
        return None;
    };
    Some((digit, rest))
}

/// The number of the two hexadecimal digits at the front.
#[tactic(auto, unfolding(crate::specs::NumberReading::two_hex))]
pub fn two_hex(text: &[char]) -> Option<(u32, &[char])>
    ensures value { option_map (λ r. (r.0, r.1.now)) result ≡ two_hex text.now }
    ensures small { IfSome result (λ r. r.0 < 256) }
{
    let Some((a, rest)) = hex(text) else {
        return None;
    };
    let Some((b, rest)) = hex(rest) else {
        return None;
    };
    Some((a * 16 + b, rest))
}

/// The number of the four hexadecimal digits at the front.
#[tactic(auto, unfolding(crate::specs::NumberReading::four_hex))]
pub fn four_hex(text: &[char]) -> Option<(u32, &[char])>
    ensures { option_map (λ r. (r.0, r.1.now)) result ≡ four_hex text.now }
{
    let Some((a, rest)) = two_hex(text) else {
        return None;
    };
    let Some((b, rest)) = two_hex(rest) else {
        return None;
    };
    Some((a * 256 + b, rest))
}
