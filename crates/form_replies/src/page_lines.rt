// The line that a transcript begins with.
ghost use Rattle.std.specs.Prelude.{◌≡◌, Err, IfOk, string_bytes};
ghost use Rattle.form_replies.specs.PageLines.{IsStop, bad_page_line, fault_line, page_line};

use form_markup::PageFault;
use std::alloc::{AllocError, Global};

/// The line of a page that is read.
pub fn page_line(alloc: Global, count: usize) -> Result<String, AllocError>
    ensures { IfOk result (λ line. string_bytes line ≡ page_line count) }
{
    format!(in alloc; "page {}\n", count)
}

/// Why there are no elements.
#[derive(Debug, Drop)]
pub enum PageStop {
    /// The page is refused; the line says why.
    Refused(String),
    Memory,
}

/// The line of a page that is refused: the kind and the place of its fault.
pub fn bad_page(alloc: Global, kind: &str, place: usize) -> PageStop
    ensures { IsStop result (Err (bad_page_line kind.now place)) }
{
    match format!(in alloc; "bad page {} {}\n", kind, place) {
        Ok(line) => PageStop::Refused(line),
        Err(_) => PageStop::Memory,
    }
}

/// The line of a page's fault.
pub fn bad_page_at(alloc: Global, fault: PageFault) -> PageStop
    ensures line { IsStop result (Err (fault_line fault)) }
    ensures memory { fault ≡ PageFault.Memory → result ≡ PageStop.Memory }
{
    match fault {
        PageFault::Lexical(place) => bad_page(alloc, "lexical", place),
        PageFault::Limit(place) => bad_page(alloc, "limit", place),
        PageFault::Element(place) => bad_page(alloc, "element", place),
        PageFault::Email(place) => bad_page(alloc, "email", place),
        PageFault::Nesting(place) => bad_page(alloc, "nesting", place),
        PageFault::Memory => PageStop::Memory,
    }
}
