ghost use Rattle.std.specs.Prelude.{◌≡◌, ◌==◌, min, None, Some, if◌then◌else◌};
ghost use Rattle.std.specs.Option.{option_and_then, option_map};
ghost use Rattle.form_text.specs.Integers.{leading_number, most, non_negative_integer, not_negative, signed_number};

/// The number by the rules for parsing non-negative integers (HTML, "Non-negative integers"): white
/// space is skipped, a sign may stand, the longest run of digits counts and the rest is ignored.
/// None where these give an error; a number above 4,294,967,295 is read as that.
pub fn parse_nonneg(text: &str) -> Option<u32>
    ensures { result ≡ non_negative_integer text.now }
{
    signed(text.trim_ascii_start().as_bytes())
}

// The number behind an optional sign.
fn signed(text: &[u8]) -> Option<u32>
    ensures { result ≡ option_and_then not_negative (signed_number text.now) }
{
    let Some((sign, rest)) = text.split_first() else {
        return None;
    };
    if *sign == b'-' {
        return zero_alone(capped(rest));
    }
    if *sign == b'+' {
        return capped(rest);
    }
    capped(text)
}

// A number that stands behind a minus: 0, or an error.
fn zero_alone(number: Option<u32>) -> Option<u32>
    ensures { result ≡ option_and_then (λ n. if n == 0 then Some 0 else None) number }
{
    match number {
        Some(0) => Some(0),
        _ => None,
    }
}

// The number of the longest run of digits at the front, or the greatest `u32` where it is less;
// none where no digit stands there.
fn capped(text: &[u8]) -> Option<u32>
    ensures { result ≡ option_map (λ n. min n most) (leading_number text.now) }
{
    let mut number: Option<u32> = None;
    for byte in text {
        if !byte.is_ascii_digit() {
            return number;
        }
        let digit = (*byte - b'0') as u32;
        number = Some(number.unwrap_or(0).saturating_mul(10).saturating_add(digit));
    }
    number
}
