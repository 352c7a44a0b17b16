ghost use Rattle.std.specs.Prelude.{◌≡◌};
ghost use Rattle.form_script.specs.LineReading.{verb_of};

/// The first word of a line, by what stands behind it.
#[derive(Clone, Copy)]
pub enum Verb {
    /// A key alone.
    Key(KeyVerb),
    /// A key and a text.
    Text(TextVerb),
    /// A key, and `yes` or `no`.
    Mark(MarkVerb),
    Attr,
    Unattr,
    Choose,
    Withdraw,
    ClickAt,
    RequestSubmit,
    Boundary,
}

#[derive(Clone, Copy)]
pub enum KeyVerb {
    Check,
    Uncheck,
    Pick,
    Reset,
    Click,
    Enter,
    Submit,
    Show,
}

#[derive(Clone, Copy)]
pub enum TextVerb {
    User,
    Set,
    Text,
    Custom,
}

#[derive(Clone, Copy)]
pub enum MarkVerb {
    SetChecked,
    SetSelected,
}

/// The verb of a word, in lower case.
#[tactic(auto, unfolding(crate::specs::LineReading::verb_of))]
pub fn verb_of(word: &str) -> Option<Verb>
    ensures { result ≡ verb_of word.now }
{
    match word {
        "check" => Some(Verb::Key(KeyVerb::Check)),
        "uncheck" => Some(Verb::Key(KeyVerb::Uncheck)),
        "pick" => Some(Verb::Key(KeyVerb::Pick)),
        "reset" => Some(Verb::Key(KeyVerb::Reset)),
        "click" => Some(Verb::Key(KeyVerb::Click)),
        "enter" => Some(Verb::Key(KeyVerb::Enter)),
        "submit" => Some(Verb::Key(KeyVerb::Submit)),
        "show" => Some(Verb::Key(KeyVerb::Show)),
        "user" => Some(Verb::Text(TextVerb::User)),
        "set" => Some(Verb::Text(TextVerb::Set)),
        "text" => Some(Verb::Text(TextVerb::Text)),
        "custom" => Some(Verb::Text(TextVerb::Custom)),
        "setchecked" => Some(Verb::Mark(MarkVerb::SetChecked)),
        "setselected" => Some(Verb::Mark(MarkVerb::SetSelected)),
        "attr" => Some(Verb::Attr),
        "unattr" => Some(Verb::Unattr),
        "choose" => Some(Verb::Choose),
        "withdraw" => Some(Verb::Withdraw),
        "clickat" => Some(Verb::ClickAt),
        "requestsubmit" => Some(Verb::RequestSubmit),
        "boundary" => Some(Verb::Boundary),
        _ => None,
    }
}
