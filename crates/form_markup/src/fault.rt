ghost use Rattle.std.specs.Prelude.{◌≡◌};
ghost use Rattle.form_markup.specs.Spelling.{page_fault};

use form_tokens::{Fault, Stop};
use thiserror::Error;

/// Why a text is refused: the first piece from the left that has a fault decides, and of one piece
/// the first kind of this order. The number is the byte of the text, from 0, where that piece
/// begins, or the text's length where an element is left open at its end.
#[derive(Clone, Copy, Debug, PartialEq, Eq, Error)]
pub enum PageFault {
    /// No piece of the grammar begins here.
    #[error("no markup that is read begins at byte {0}")]
    Lexical(usize),
    /// A tag has too many attributes or too long a value, or its element is one too many or lies
    /// too deep.
    #[error("a limit is passed at byte {0}")]
    Limit(usize),
    /// An element that is not read.
    #[error("an element that is not read stands at byte {0}")]
    Element(usize),
    /// An input in the state email.
    #[error("an input of the type `email` stands at byte {0}")]
    Email(usize),
    /// A tag that may not stand here, or an element that is left open.
    #[error("a tag may not stand at byte {0}")]
    Nesting(usize),
    /// Memory was refused. This may stand in place of any answer.
    #[error("no memory")]
    Memory,
}

/// The fault of a text, of a piece that begins at a place.
pub fn fault_at(stop: Stop, place: usize) -> PageFault
    ensures { result ≡ page_fault stop place }
{
    match stop {
        Stop::Memory => PageFault::Memory,
        Stop::At(Fault::Lexical) => PageFault::Lexical(place),
        Stop::At(Fault::Limit) => PageFault::Limit(place),
        Stop::At(Fault::Element) => PageFault::Element(place),
        Stop::At(Fault::Email) => PageFault::Email(place),
        Stop::At(Fault::Nesting) => PageFault::Nesting(place),
    }
}
