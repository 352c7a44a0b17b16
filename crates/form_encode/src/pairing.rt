// Entries as pairs.
ghost use Rattle.std.specs.Prelude.{◌≡◌, IfOk};
ghost use Rattle.form_encode.specs.Pairs.{value_text, pair_of, pairs_of};

use crate::entry::{Entry, Given, Pair};
use form_text::{Text, normalise_crlf};
use std::alloc::{AllocError, Global};

// The value of a pair.
fn value_text(alloc: Global, value: &Given) -> Result<Text, AllocError>
    ensures { IfOk result (λ text. text ≡ value_text value.now) }
{
    match value {
        Given::Text(text) => Ok(Text::from_string(normalise_crlf(alloc, text.as_str())?)),
        Given::File { name, .. } => Text::from_str(alloc, name.as_str()),
    }
}

fn pair_of(alloc: Global, entry: &Entry) -> Result<Pair, AllocError>
    ensures { IfOk result (λ pair. pair ≡ pair_of entry.now) }
{
    let name = Text::from_string(normalise_crlf(alloc, entry.name.as_str())?);
    let value = value_text(alloc, &entry.value)?;
    Ok(Pair { name, value })
}

/// The pairs of an entry list: line ends in names and in text values become CR LF, and a file
/// stands as its name (HTML, "Converting an entry list to a list of name-value pairs").
pub fn pairs(alloc: Global, entries: &[Entry]) -> Result<Vec<Pair>, AllocError>
    ensures { IfOk result (λ pairs. pairs.items ≡ pairs_of entries.now) }
{
    let mut pairs = Vec::with_capacity(alloc, entries.len())?;
    for entry in entries {
        pairs.push(pair_of(alloc, entry)?)?;
    }
    Ok(pairs)
}
