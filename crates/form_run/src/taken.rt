// The elements of an input's page.
ghost use Rattle.std.specs.Prelude.{◌≡◌, [], Err, IfOk, IfErr};
ghost use Rattle.form_markup.specs.Answer.{answer_of};
ghost use Rattle.form_text.specs.LineEnds.{with_lf};
ghost use Rattle.form_acts.specs.Soundness.{IsOpenable};
ghost use Rattle.form_input.specs.Input.{command_lines};
ghost use Rattle.form_input.specs.Lines.{lines_of};
ghost use Rattle.form_replies.specs.PageLines.{IsStop};
ghost use Rattle.form_run.specs.Taken.{page_in, page_taken};

use form_input::split_script;
use form_markup::read;
use form_replies::{PageStop, bad_page, bad_page_at};
use form_text::normalise_lf;
use form_tree::Raw;
use std::alloc::Global;
use std::str::from_utf8;

// The elements of a page's text.
fn take_page(alloc: Global, page: &str) -> Result<Vec<Raw>, PageStop>
    ensures taken { IfOk result (λ raws. page_taken (answer_of [] (with_lf page.now)) ≡ Ok raws.items) }
    ensures openable { IfOk result (λ raws. IsOpenable raws.items) }
    ensures refused { IfErr result (λ stop. IsStop stop (page_taken (answer_of [] (with_lf page.now)))) }
{
    let text = match normalise_lf(alloc, page) {
        Ok(text) => text,
        Err(_) => return Err(PageStop::Memory),
    };
    match read(alloc, text.as_str()) {
        Ok(raws) => Ok(raws),
        Err(fault) => Err(bad_page_at(alloc, fault)),
    }
}

/// The elements of an input's page, and the text of its commands.
pub fn page_of_input(alloc: Global, input: &[u8]) -> Result<(Vec<Raw>, &str), PageStop>
    ensures taken { IfOk result (λ parts. page_in input.now ≡ Ok parts.0.items) }
    ensures commands { IfOk result (λ parts. lines_of parts.1.now ≡ command_lines input.now) }
    ensures openable { IfOk result (λ parts. IsOpenable parts.0.items) }
    ensures refused { IfErr result (λ stop. IsStop stop (page_in input.now)) }
{
    match from_utf8(input) {
        Ok(text) => {
            let (page, commands) = split_script(text);
            match take_page(alloc, page) {
                Ok(raws) => Ok((raws, commands)),
                Err(stop) => Err(stop),
            }
        }
        Err(error) => Err(bad_page(alloc, "utf8", error.valid_up_to())),
    }
}
