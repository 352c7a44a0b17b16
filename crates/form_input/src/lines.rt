// Lines of a text.
ghost use Rattle.std.specs.Prelude.{◌≡◌, ◌∷◌, ◌++◌, ◌<◌, ◌⊎◌, [], length, IfSome, IfNone, IsUtf8};
ghost use Rattle.form_input.specs.Lines.{lines_of, line_then, without_cr};

/// The first line without its end, and the text behind its end.
pub fn first_line(text: &str) -> Option<(&str, &str)>
    ensures none { IfNone result (text.now ≡ []) }
    ensures some { IfSome result (λ parts. lines_of text.now ≡ parts.0.now ∷ lines_of parts.1.now) }
    ensures bytes { IfSome result (λ parts. (text.now ≡ line_then parts.0.now parts.1.now) ⊎ (parts.1.now ≡ [])) }
    ensures text { IfSome result (λ parts. IsUtf8 parts.1.now) }
    ensures shorter { IfSome result (λ parts. length parts.1.now < length text.now) }
{
    if text.is_empty() {
        return None;
    }
    match text.split_once('\n') {
        Some((line, rest)) => Some((line, rest)),
        None => Some((text, "")),
    }
}

/// What a line says: the line without the one carriage return before its end, if it has one.
pub fn without_cr(line: &str) -> &str
    ensures { result.now ≡ without_cr line.now }
{
    match line.strip_suffix('\r') {
        Some(front) => front,
        None => line,
    }
}
