ghost use Rattle.std.specs.Prelude.{◌≡◌, option_map};
ghost use Rattle.form_pattern.specs.Characters.{is_syntax, is_class_sign, escape_letter, is_member, is_doubled, is_plain, begins, after};

/// The sets of characters that an escape names.
#[derive(Clone, Copy)]
pub enum Set {
    Digit,
    Word,
    Space,
}

/// What a character behind a `\` begins.
#[derive(Clone, Copy)]
pub enum Letter {
    /// This character.
    Character(char),
    /// This character, inside a class alone.
    InClass(char),
    /// U+0000.
    Null,
    /// Two hexadecimal digits.
    Byte,
    /// Four hexadecimal digits, or some in braces.
    Unicode,
    /// A set, or its complement.
    Set(bool, Set),
    /// No escape.
    Other,
}

/// Whether a character has a meaning of its own outside of classes, or is `/`.
#[tactic(auto, unfolding(crate::specs::Characters::is_syntax))]
pub fn is_syntax(c: char) -> bool
    ensures { result ≡ is_syntax c }
{
    [
        '^', '$', '\\', '.', '*', '+', '?', '(', ')', '[', ']', '{', '}', '|', '/',
    ]
    .contains(&c)
}

/// Whether a character may be escaped inside a class alone.
#[tactic(auto, unfolding(crate::specs::Characters::is_class_sign))]
pub fn is_class_sign(c: char) -> bool
    ensures { result ≡ is_class_sign c }
{
    [
        '&', '-', '!', '#', '%', ',', ':', ';', '<', '=', '>', '@', '`', '~',
    ]
    .contains(&c)
}

/// What the character begins behind a `\`.
#[tactic(auto, unfolding(crate::specs::Characters::escape_letter))]
pub fn escape_letter(c: char) -> Letter
    ensures { result ≡ escape_letter c }
{
    match c {
        't' => Letter::Character('\t'),
        'n' => Letter::Character('\n'),
        'r' => Letter::Character('\r'),
        'v' => Letter::Character('\u{B}'),
        'f' => Letter::Character('\u{C}'),
        '0' => Letter::Null,
        'x' => Letter::Byte,
        'u' => Letter::Unicode,
        'd' => Letter::Set(false, Set::Digit),
        'D' => Letter::Set(true, Set::Digit),
        'w' => Letter::Set(false, Set::Word),
        'W' => Letter::Set(true, Set::Word),
        's' => Letter::Set(false, Set::Space),
        'S' => Letter::Set(true, Set::Space),
        c if is_syntax(c) => Letter::Character(c),
        c if is_class_sign(c) => Letter::InClass(c),
        _ => Letter::Other,
    }
}

/// Whether the character may stand in a class as it is.
#[tactic(auto, unfolding(crate::specs::Characters::is_member))]
pub fn is_member(c: char) -> bool
    ensures { result ≡ is_member c }
{
    !['(', ')', '[', ']', '{', '}', '/', '-', '\\', '|'].contains(&c)
}

/// Whether the character is kept for operators of classes where it stands twice in a row.
#[tactic(auto, unfolding(crate::specs::Characters::is_doubled))]
pub fn is_doubled(c: char) -> bool
    ensures { result ≡ is_doubled c }
{
    [
        '&', '!', '#', '$', '%', '*', '+', ',', '.', ':', ';', '<', '=', '>', '?', '@', '^', '`',
        '~',
    ]
    .contains(&c)
}

/// Whether the character stands for itself outside of classes.
#[tactic(auto, unfolding(crate::specs::Characters::is_plain))]
pub fn is_plain(c: char) -> bool
    ensures { result ≡ is_plain c }
{
    ![
        '^', '$', '\\', '.', '*', '+', '?', '(', ')', '[', ']', '{', '}', '|',
    ]
    .contains(&c)
}

/// Whether the text begins with the character.
pub fn begins(text: &[char], c: char) -> bool
    ensures { result ≡ begins c text.now }
{
    match text {
        [first, ..] => *first == c,
        [] => false,
    }
}

/// What is behind the character, where the text begins with it.
pub fn after(text: &[char], c: char) -> Option<&[char]>
    ensures { option_map (λ r. r.now) result ≡ after c text.now }
{
    match text {
        [first, rest @ ..] => if *first == c { Some(rest) } else { None },
        [] => None,
    }
}
