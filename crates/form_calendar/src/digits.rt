//! Numbers in a fixed number of digits, and the bytes between them.
ghost use Rattle.std.specs.Prelude.{◌≡◌, ◌≤◌, ◌<◌, IfSome, option_map, length};
ghost use Rattle.form_calendar.specs.Reading.{number_after, number_at, behind, pair_at, whole_pair};

// The number that all of the digits write.
pub fn number(digits: &[u8]) -> Option<u16>
    requires { length digits.now ≤ 4 }
    ensures value { result ≡ number_after 0 digits.now }
    ensures bound { IfSome result (λ n. n < 10000) }
{
    let mut value = 0;
    for d in digits {
        if !d.is_ascii_digit() {
            return None;
        }
        value = value * 10 + (*d - b'0') as u16;
    }
    Some(value)
}

// A number of so many digits, and what stands behind it.
pub fn number_front(text: &[u8], count: usize) -> Option<(u16, &[u8])>
    requires { count ≤ 4 }
    ensures value { option_map (λ x. (x.0, x.1.now)) result ≡ number_at count text.now }
    ensures bound { IfSome result (λ x. x.0 < 10000) }
{
    if text.len() < count {
        return None;
    }
    let (digits, rest) = text.split_at(count);
    let n = number(digits)?;
    Some((n, rest))
}

// Two numbers with a separator between them, the second of two digits, and what stands behind them.
#[tactic(auto, unfolding(crate::specs::Reading::pair_at))]
pub fn pair_front<'a>(
    text: &'a [u8],
    count: usize,
    separator: &[u8],
) -> Option<((u16, u16), &'a [u8])>
    requires { count ≤ 4 }
    ensures value { option_map (λ x. (x.0, x.1.now)) result ≡ pair_at count separator.now text.now }
    ensures bound { IfSome result (λ x. (x.0.0 < 10000) × (x.0.1 < 10000)) }
{
    let (first, rest) = number_front(text, count)?;
    let rest = behind(rest, separator)?;
    let (second, rest) = number_front(rest, 2)?;
    Some(((first, second), rest))
}

// A year and a second number with a separator between them, which are the whole text.
#[tactic(auto, unfolding(crate::specs::Reading::whole_pair))]
pub fn whole_pair(text: &[u8], separator: &[u8]) -> Option<(u16, u16)>
    ensures value { result ≡ whole_pair separator.now text.now }
    ensures bound { IfSome result (λ x. (x.0 < 10000) × (x.1 < 10000)) }
{
    let Some((pair, rest)) = pair_front(text, 4, separator) else {
        return None;
    };
    if !rest.is_empty() {
        return None;
    }
    Some(pair)
}

// What stands behind the front, if the text begins with it.
pub fn behind<'a>(text: &'a [u8], front: &[u8]) -> Option<&'a [u8]>
    ensures { option_map (λ s. s.now) result ≡ behind front.now text.now }
{
    text.strip_prefix(front)
}
