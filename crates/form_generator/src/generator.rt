// A generated page and its commands.
ghost use Rattle.std.specs.Prelude.{◌≡◌, ◌≤◌, ◌++◌, IfOk, OnOk, codes, flat_map, map, string_bytes};
ghost use Rattle.form_generator.specs.Generator.{command_on, commands_at, control_of, generated_lines, generated_page, keyword_of, numbers_to, own_type, tag_at};
ghost use Rattle.form_generator.specs.Limits.{most_generated};

use std::alloc::{AllocError, Global};

/// So many controls that follow each other are counted together: their radio buttons have one name.
const CONTROLS_OF_A_GROUP: u32 = 40;

/// A page's markup, and the commands on it.
#[derive(Drop)]
pub struct Generated {
    pub page: String,
    /// The lines, without their ends.
    pub lines: Vec<String>,
}

/// What kind of input a generated control is.
#[derive(Clone, Copy, Debug, PartialEq, Eq)]
pub enum Control {
    Text,
    Number,
    Checkbox,
    Radio,
}

impl Control {
    // Which control has that number.
    fn of(number: u32) -> Control
        ensures { result ≡ control_of number }
    {
        match number % 4 {
            1 => Control::Text,
            2 => Control::Number,
            3 => Control::Checkbox,
            _ => Control::Radio,
        }
    }

    // The keyword of its own type.
    fn keyword(self) -> &'static str
        ensures { result.now ≡ keyword_of self }
    {
        match self {
            Control::Text => "text",
            Control::Number => "number",
            Control::Checkbox => "checkbox",
            Control::Radio => "radio",
        }
    }
}

// Puts the tag of the control of that number behind the page so far.
fn push_tag(page: &mut String, number: u32) -> Result<(), AllocError>
    ensures { OnOk result (string_bytes page.new ≡ string_bytes page.old ++ tag_at number) }
{
    match Control::of(number) {
        Control::Text => write!(
            page,
            "<input name=\"c{}\" required maxlength=\"3\">",
            number
        ),
        Control::Number => write!(
            page,
            "<input type=\"number\" name=\"c{}\" min=\"0\" max=\"9\">",
            number
        ),
        Control::Checkbox => write!(
            page,
            "<input type=\"checkbox\" name=\"c{}\" required>",
            number
        ),
        Control::Radio => write!(
            page,
            "<input type=\"radio\" name=\"g{}\" required>",
            number / CONTROLS_OF_A_GROUP
        ),
    }
}

fn push_tags(page: &mut String, count: u32) -> Result<(), AllocError>
    requires { count ≤ most_generated }
    ensures { OnOk result (string_bytes page.new ≡ string_bytes page.old ++ flat_map tag_at (numbers_to count)) }
{
    for before in 0..count {
        push_tag(page, before + 1)?;
    }
    Ok(())
}

// The page of so many controls.
#[tactic(auto, unfolding(crate::specs::Generator::generated_page))]
fn page_of(alloc: Global, count: u32) -> Result<String, AllocError>
    requires { count ≤ most_generated }
    ensures { IfOk result (λ page. string_bytes page ≡ generated_page count) }
{
    let mut page = String::new(alloc);
    page.push_str("<form>")?;
    push_tags(&mut page, count)?;
    page.push_str("</form>")?;
    Ok(page)
}

// A command on the control of that number.
fn command_on(alloc: Global, number: u32, verb: &str, rest: &str) -> Result<String, AllocError>
    requires { number ≤ most_generated }
    ensures { IfOk result (λ line. string_bytes line ≡ command_on number verb.now rest.now) }
{
    format!(in alloc; "{} @{}{}", verb, number + 1, rest)
}

// Behind the key, the words that set the type back to the control's own.
fn own_type(alloc: Global, control: Control) -> Result<String, AllocError>
    ensures { IfOk result (λ words. string_bytes words ≡ own_type control) }
{
    format!(in alloc; " type \"{}\"", control.keyword())
}

// The command that sets the type of the control of that number back to its own.
fn type_back(alloc: Global, number: u32) -> Result<String, AllocError>
    requires { number ≤ most_generated }
    ensures { IfOk result (λ line. string_bytes line ≡ command_on number (codes "attr") (own_type (control_of number))) }
{
    let own = own_type(alloc, Control::of(number))?;
    command_on(alloc, number, "attr", own.as_str())
}

// The ten commands on the control of that number.
fn commands_at(alloc: Global, number: u32) -> Result<Vec<String>, AllocError>
    requires { number ≤ most_generated }
    ensures { IfOk result (λ lines. map string_bytes lines.items ≡ commands_at number) }
{
    Ok(vec![in alloc;
        command_on(alloc, number, "user", " \"a\"")?,
        command_on(alloc, number, "set", " \"12\"")?,
        command_on(alloc, number, "attr", " required \"\"")?,
        command_on(alloc, number, "check", "")?,
        command_on(alloc, number, "attr", " type \"date\"")?,
        command_on(alloc, number, "set", " \"2024-02-29\"")?,
        command_on(alloc, number, "attr", " min \"2024-03-01\"")?,
        command_on(alloc, number, "unattr", " min")?,
        type_back(alloc, number)?,
        command_on(alloc, number, "set", " \"\"")?,
    ]?)
}

// The commands on the page of so many controls.
#[tactic(auto, unfolding(crate::specs::Generator::generated_lines))]
fn lines_of(alloc: Global, count: u32) -> Result<Vec<String>, AllocError>
    requires { count ≤ most_generated }
    ensures { IfOk result (λ lines. map string_bytes lines.items ≡ generated_lines count) }
{
    let mut lines = Vec::new(alloc);
    for before in 0..count {
        lines.append(&mut commands_at(alloc, before + 1)?)?;
    }
    Ok(lines)
}

/// The page of so many controls, and the commands on it.
pub fn generate(alloc: Global, n: u32) -> Result<Generated, AllocError>
    requires { n ≤ most_generated }
    ensures page { IfOk result (λ generated. string_bytes generated.page ≡ generated_page n) }
    ensures lines { IfOk result (λ generated. map string_bytes generated.lines.items ≡ generated_lines n) }
{
    let page = page_of(alloc, n)?;
    let lines = lines_of(alloc, n)?;
    Ok(Generated { page, lines })
}
