//! What a run says: the line that its transcript begins with, the texts of replies, and how they
//! are said; and the shelf without a file that is withdrawn.
//!
//! Nothing here stands on what a run keeps from line to line. A page, keys, a word, an act are
//! handed in; a text or a line comes out, and `say_text` says it behind what is kept. Whatever a
//! relation asks of a text, `Said` and `SaidPart` say that such a text was said, whole or in part.
#![tactic(auto)]

mod files;
mod page_lines;
mod saying;
mod stop;
mod texts;

pub use files::{withdraw, withdrawn_by};
pub use page_lines::{PageStop, bad_page, bad_page_at, page_line};
pub use saying::{flush_before_files, say_refused, say_text};
pub use stop::Stop;
pub use texts::{done_text, refusal_word, refused_line, shown_text, stopped_lines};
