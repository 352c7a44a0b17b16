// Literals of boundaries.
ghost use Rattle.std.specs.Prelude.{◌≡◌, ◌≤◌, is_some};
ghost use Rattle.form_script.specs.Fitting.{begins_boundary, fits, some_fits};
ghost use Rattle.form_script.specs.Gives.{Gives};
ghost use Rattle.form_script.specs.Reading.{boundary_of, text_in};
ghost use Rattle.form_script.specs.Words.{is_name_byte};

use crate::fault::LineFault;
use crate::literal::{Step, between_quotes, first_step, text_of};
use crate::words::{LONGEST_BOUNDARY, all_name_bytes, is_boundary};
use form_text::Text;
use std::alloc::Global;

/// Whether the literal is one of a boundary; it takes no memory.
#[tactic(auto, unfolding(crate::specs::Reading::boundary_of, crate::specs::Reading::literal_text))]
pub fn is_boundary_literal(literal: &str) -> bool
    ensures { result ≡ is_some (boundary_of literal.now) }
{
    match between_quotes(literal) {
        Some(inside) => is_boundary_inside(inside),
        None => false,
    }
}

fn is_boundary_inside(inside: &str) -> bool
    ensures { result ≡ some_fits 0 (text_in inside.now) }
{
    let mut before = 0;
    let mut rest = inside;
    'steps: loop {
        match first_step(rest) {
            Step::Last(plain) => return fits(before, plain),
            Step::Escape(plain, c, behind) => {
                if !begins_boundary(before, plain, c) {
                    return false;
                }
                before += plain.len() + 1;
                rest = behind;
            }
            Step::Wrong => return false,
        }
    }
}

// Whether a boundary can end so, behind so many bytes.
fn fits(before: usize, text: &str) -> bool
    requires { before ≤ 70 }
    ensures { result ≡ fits before text.now }
{
    let length = before + text.len();
    if length == 0 {
        return false;
    }
    if length > LONGEST_BOUNDARY {
        return false;
    }
    all_name_bytes(text.as_bytes())
}

// Whether a boundary can go on so, behind so many bytes.
fn begins_boundary(before: usize, plain: &str, c: char) -> bool
    requires { before ≤ 70 }
    ensures { result ≡ begins_boundary before plain.now c }
{
    if before + plain.len() + 1 > LONGEST_BOUNDARY {
        return false;
    }
    if !is_name_character(c) {
        return false;
    }
    all_name_bytes(plain.as_bytes())
}

fn is_name_character(c: char) -> bool
    ensures { result ≡ is_name_byte c }
{
    c.is_ascii_alphanumeric() || c == '-' || c == '_'
}

/// The boundary of a literal.
#[tactic(auto, unfolding(crate::specs::Reading::boundary_of, crate::specs::Reading::literal_text))]
pub fn boundary_of(alloc: Global, literal: &str) -> Result<Text, LineFault>
    ensures { Gives (λ boundary. boundary) result (boundary_of literal.now) }
{
    let Some(inside) = between_quotes(literal) else {
        return Err(LineFault::Syntax);
    };
    let text = text_of(alloc, inside)?;
    if !is_boundary(text.as_str()) {
        return Err(LineFault::Syntax);
    }
    Ok(text)
}
