// Submissions that read no file.
ghost use Rattle.std.specs.Prelude.{◌≡◌, ◌<◌, ◌≤◌, IfOk, MatchOption};
ghost use Rattle.form_entries.specs.EntryList.{entries_length, entry_list, most_bytes};
ghost use Rattle.form_submit.specs.Outcome.{direct_outcome};

use crate::outcome::{Outcome, Why};
use crate::requests::{action_request, listed_request};
use crate::route::Direct;
use form_encode::Entry;
use form_entries::{EntryFault, entries};
use form_page::Page;
use form_tree::Key;
use std::alloc::{AllocError, Global};

/// The entry list of a form; None where it has more bytes than a submission may have.
pub fn entries_unless_long(
    alloc: Global,
    page: &Page,
    form: Key,
    submitter: Option<Key>,
    at: (u32, u32),
) -> Result<Option<Vec<Entry>>, AllocError>
    ensures { IfOk result (λ found. MatchOption found (most_bytes < entries_length (entry_list page.now form submitter at))
        (λ entries. (entries.items ≡ entry_list page.now form submitter at)
        × (entries_length (entry_list page.now form submitter at) ≤ most_bytes))) }
{
    match entries(alloc, page, form, submitter, at) {
        Ok(entries) => Ok(Some(entries)),
        Err(EntryFault::Long(_)) => Ok(None),
        Err(EntryFault::Memory) => Err(AllocError),
    }
}

/// The outcome of a submission that reads no file.
pub fn direct_outcome(
    alloc: Global,
    direct: Direct,
    page: &Page,
    form: Key,
    submitter: Option<Key>,
    at: (u32, u32),
) -> Result<Outcome, AllocError>
    ensures { IfOk result (λ outcome. outcome ≡ direct_outcome direct (entry_list page.now form submitter at)) }
{
    match direct {
        Direct::Stopped(keys) => Ok(Outcome::Stopped(keys)),
        Direct::Dialog => Ok(Outcome::NoRequest(Why::Dialog)),
        Direct::Action => Ok(Outcome::NoRequest(Why::Action)),
        Direct::Scheme => Ok(Outcome::NoRequest(Why::Scheme)),
        Direct::AsItIs(url) => Ok(Outcome::Request(action_request(alloc, url))),
        Direct::Listed(url, way) => match entries_unless_long(alloc, page, form, submitter, at)? {
            Some(entries) => {
                let request = listed_request(alloc, url, way, &entries)?;
                Ok(Outcome::Request(request))
            }
            None => Ok(Outcome::NoRequest(Why::Long)),
        },
    }
}
