// An input, cut into its page and its commands.
ghost use Rattle.std.specs.Prelude.{◌≡◌};
ghost use Rattle.form_input.specs.Lines.{lines_of};
ghost use Rattle.form_input.specs.Input.{command_lines, is_script_line, page_text};

use crate::lines::{first_line, without_cr};

// Whether the line is the one that ends the page.
fn is_script_line(line: &str) -> bool
    ensures { result ≡ is_script_line line.now }
{
    without_cr(line) == "%script"
}

/// The page, and the text of the commands: what stands before and behind the first line that says
/// `%script`, with or without a carriage return before its end.
pub fn split_script(text: &str) -> (&str, &str)
    ensures page { result.0.now ≡ page_text text.now }
    ensures commands { lines_of result.1.now ≡ command_lines text.now }
{
    let mut rest = text;
    'lines: while let Some((line, after)) = first_line(rest) {
        if is_script_line(line) {
            let (page, _) = text.split_at(text.len() - rest.len());
            return (page, after);
        }
        rest = after;
    }
    (text, "")
}
