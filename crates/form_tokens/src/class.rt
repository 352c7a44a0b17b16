ghost use Rattle.std.specs.Prelude.{◌≡◌};
ghost use Rattle.form_tokens.specs.Runs.{ends_attribute_name, ends_unquoted, in_class, is_space};

/// What a byte of markup may be part of.
#[derive(Clone, Copy)]
pub enum Class {
    /// TAB, LF, FF and space.
    Space,
    /// The name of an element.
    Name,
    /// The name of an attribute.
    AttributeName,
    /// A value without quotes.
    Unquoted,
    /// A value in this quote.
    Quoted(u8),
    /// ASCII letters and digits.
    Alphanumeric,
    Digit,
    Hexadecimal,
}

fn is_space(b: u8) -> bool
    ensures { result ≡ is_space b }
{
    b == b' ' || b == b'\n' || b == b'\t' || b == b'\x0C'
}

fn ends_attribute_name(b: u8) -> bool
    ensures { result ≡ ends_attribute_name b }
{
    b == b'"'
        || b == b'\''
        || b == b'<'
        || b == b'>'
        || b == b'/'
        || b == b'='
        || b == b'&'
        || b == 0
}

fn ends_unquoted(b: u8) -> bool
    ensures { result ≡ ends_unquoted b }
{
    b == b'"' || b == b'\'' || b == b'=' || b == b'<' || b == b'>' || b == b'`' || b == 0
}

impl Class {
    /// Whether the byte is of the class.
    #[inline(always)]
    pub fn has(self, b: u8) -> bool
        ensures { result ≡ in_class self b }
    {
        match self {
            Class::Space => is_space(b),
            Class::Name => b.is_ascii_alphanumeric() || b == b'-',
            Class::AttributeName => !(is_space(b) || ends_attribute_name(b)),
            Class::Unquoted => !(is_space(b) || ends_unquoted(b)),
            Class::Quoted(quote) => !(b == quote || b == 0),
            Class::Alphanumeric => b.is_ascii_alphanumeric(),
            Class::Digit => b.is_ascii_digit(),
            Class::Hexadecimal => b.is_ascii_hexdigit(),
        }
    }
}
