// The one public call.
ghost use Rattle.std.specs.Prelude.{◌≡◌, ℕ, ◌<◌, ◌≤◌, Err, IfOk};
ghost use Rattle.form_entries.specs.EntryList.{capped, entries_length, entry_list, most_bytes};
ghost use Rattle.form_entries.specs.declared.list.EntryFault.TheVariants.{Long};

use crate::collecting::collect;
use crate::measuring::length;
use form_encode::Entry;
use form_page::Page;
use form_tree::Key;
use std::alloc::Global;
use thiserror::Error;

/// The most bytes that the names, values and files of one submission may have together.
pub const MOST_BYTES: u64 = 67_108_864;

/// Why there is no entry list.
#[derive(Clone, Copy, Debug, Error)]
pub enum EntryFault {
    /// The names, text values and file names have more than 67,108,864 bytes: so many, or the
    /// greatest number of 64 bits where they are more.
    #[error("the entry list has {0} bytes")]
    Long(u64),
    /// There is no memory for the list.
    #[error("no memory")]
    Memory,
}

/// The entry list of a form (HTML, "Constructing the entry list"): of each submittable element that it
/// owns, in tree order, what the element gives. `submitter` is the button that submits the form, if
/// one does, and `at` is where an image button was clicked, from its left and its top edge.
///
/// That the list is too long is found before the first entry is made, and without memory.
pub fn entries(
    alloc: Global,
    page: &Page,
    form: Key,
    submitter: Option<Key>,
    at: (u32, u32),
) -> Result<Vec<Entry>, EntryFault>
    ensures list { IfOk result (λ entries. entries.items ≡ entry_list page.now form submitter at) }
    ensures long { most_bytes < entries_length (entry_list page.now form submitter at)
        → result ≡ Err (Long (capped (entries_length (entry_list page.now form submitter at)))) }
    ensures cause { (bytes : ℕ) → result ≡ Err (Long bytes) → most_bytes < entries_length (entry_list page.now form submitter at) }
    ensures fits { IfOk result (λ entries. entries_length entries.items ≤ most_bytes) }
{
    let bytes = length(page, form, submitter, at);
    if MOST_BYTES < bytes {
        return Err(EntryFault::Long(bytes));
    }
    match collect(alloc, page, form, submitter, at) {
        Ok(entries) => Ok(entries),
        Err(_) => Err(EntryFault::Memory),
    }
}
