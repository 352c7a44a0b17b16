// A submission.
ghost use Rattle.std.specs.Prelude.{◌≡◌, ℕ, ◌≤◌, length, map, Err, IfOk, All, Contains, string_bytes};
ghost use Rattle.form_ports.specs.Shelf.{contents_of, numbers_of, at_number, IsThere, NoneFell, LastSizes, SomeRose};
ghost use Rattle.form_encode.specs.Boundaries.{longest_boundary};
ghost use Rattle.form_entries.specs.EntryList.{entries_length, entry_length, entry_list, given_length, most_bytes};
ghost use Rattle.form_parts.specs.Parts as multipart;
ghost use Rattle.form_submit.specs.Outcome.{HasFiles, IfLong, IfRequest, IsOutcomeBy, IsTooLong, files_read};
ghost use Rattle.form_submit.specs.PrintedRequest.{IsSendable, file_numbers, file_sizes};
ghost use Rattle.form_submit.specs.Route.{route_of};
ghost use Rattle.form_submit.specs.declared.route.Route.TheVariants as routes;

use crate::direct::{direct_outcome, entries_unless_long};
use crate::multipart::{chosen, multipart_outcome};
use crate::outcome::{Outcome, SubmitFault, Why};
use crate::route::{Route, route_of};
use form_encode::{Entry, Given};
use form_entries::MOST_BYTES;
use form_page::Page;
use form_parts::{PartsStop, read_parts};
use form_ports::Blob;
use form_tree::Key;
use std::alloc::Global;
use url::Url;

// How many bytes the names, text values and file names of the entries have.
fn length_of(entries: &[Entry]) -> u64
    requires { entries_length entries.now ≤ most_bytes }
    ensures { result ≡ entries_length entries.now }
{
    let mut bytes = 0;
    for entry in entries {
        bytes += entry_length(entry);
    }
    bytes
}

fn entry_length(entry: &Entry) -> u64
    requires { entry_length entry.now ≤ most_bytes }
    ensures { result ≡ entry_length entry.now }
{
    entry.name.as_str().len() as u64 + given_length(&entry.value) as u64
}

fn given_length(value: &Given) -> usize
    ensures { result ≡ given_length value.now }
{
    match value {
        Given::Text(text) => text.as_str().len(),
        Given::File { name, .. } => name.as_str().len(),
    }
}

// The outcome of a multipart body of these entries.
fn outcome_of_parts(
    alloc: Global,
    url: Url,
    entries: &[Entry],
    bounds: &[String],
    shelf: &mut Vec<Option<Box<dyn Blob>>>,
) -> Result<Outcome, SubmitFault>
    requires few { entries_length entries.now ≤ most_bytes }
    requires bounds { All (λ boundary. length (string_bytes boundary) ≤ longest_boundary) bounds.now }
    requires there { All (λ number. IsThere (contents_of (λ b. content b) shelf.old.items) number) (multipart.file_numbers entries.now) }
    ensures kept { contents_of (λ b. content b) shelf.new.items ≡ contents_of (λ b. content b) shelf.old.items }
    ensures counts { NoneFell (numbers_of (λ b. faults b) shelf.old.items) (numbers_of (λ b. faults b) shelf.new.items) }
    ensures others { (k : ℕ) → ¬ (Contains (multipart.file_numbers entries.now) k) → at_number shelf.new.items k ≡ at_number shelf.old.items k }
    ensures outcome { IfOk result (λ outcome. IsOutcomeBy (contents_of (λ b. content b) shelf.old.items)
        (routes.Multipart url) entries.now (map string_bytes bounds.now) outcome) }
    ensures long { IfOk result (λ outcome. IfLong outcome (IsTooLong (contents_of (λ b. content b) shelf.old.items)
        (numbers_of (λ b. position b) shelf.new.items) (routes.Multipart url) entries.now shelf.old.items shelf.new.items)) }
    ensures sizes { IfOk result (λ outcome. IfRequest outcome (λ request.
        LastSizes (numbers_of (λ b. position b) shelf.new.items) (file_numbers request.body) (file_sizes request.body))) }
    ensures sendable { IfOk result (λ outcome. IfRequest outcome (λ request.
        IsSendable (contents_of (λ b. content b) shelf.old.items) request)) }
    ensures fault { result ≡ Err SubmitFault.Blob → SomeRose (multipart.file_numbers entries.now)
        (numbers_of (λ b. faults b) shelf.old.items) (numbers_of (λ b. faults b) shelf.new.items) }
{
    let left = MOST_BYTES - length_of(entries);
    match read_parts(alloc, entries, bounds, shelf, left) {
        Ok(parts) => {
            let boundary = chosen(bounds, parts.boundary);
            match multipart_outcome(alloc, url, entries, parts.sizes.as_slice(), boundary) {
                Ok(outcome) => Ok(outcome),
                Err(_) => Err(SubmitFault::Memory),
            }
        }
        Err(PartsStop::Long) => Ok(Outcome::NoRequest(Why::Long)),
        Err(PartsStop::Fault) => Err(SubmitFault::Blob),
        Err(PartsStop::Memory) => Err(SubmitFault::Memory),
    }
}

// The outcome of a submission with a multipart body.
fn submit_parts(
    alloc: Global,
    url: Url,
    page: &Page,
    form: Key,
    submitter: Option<Key>,
    at: (u32, u32),
    bounds: &[String],
    shelf: &mut Vec<Option<Box<dyn Blob>>>,
) -> Result<Outcome, SubmitFault>
    requires bounds { All (λ boundary. length (string_bytes boundary) ≤ longest_boundary) bounds.now }
    requires files { HasFiles (contents_of (λ b. content b) shelf.old.items) page.now.tree.nodes }
    ensures kept { contents_of (λ b. content b) shelf.new.items ≡ contents_of (λ b. content b) shelf.old.items }
    ensures counts { NoneFell (numbers_of (λ b. faults b) shelf.old.items) (numbers_of (λ b. faults b) shelf.new.items) }
    ensures others { (k : ℕ) → ¬ (Contains (multipart.file_numbers (entry_list page.now form submitter at)) k)
        → at_number shelf.new.items k ≡ at_number shelf.old.items k }
    ensures outcome { IfOk result (λ outcome. IsOutcomeBy (contents_of (λ b. content b) shelf.old.items)
        (routes.Multipart url) (entry_list page.now form submitter at) (map string_bytes bounds.now) outcome) }
    ensures long { IfOk result (λ outcome. IfLong outcome (IsTooLong (contents_of (λ b. content b) shelf.old.items)
        (numbers_of (λ b. position b) shelf.new.items) (routes.Multipart url) (entry_list page.now form submitter at)
        shelf.old.items shelf.new.items)) }
    ensures sizes { IfOk result (λ outcome. IfRequest outcome (λ request.
        LastSizes (numbers_of (λ b. position b) shelf.new.items) (file_numbers request.body) (file_sizes request.body))) }
    ensures sendable { IfOk result (λ outcome. IfRequest outcome (λ request.
        IsSendable (contents_of (λ b. content b) shelf.old.items) request)) }
    ensures fault { result ≡ Err SubmitFault.Blob → SomeRose (multipart.file_numbers (entry_list page.now form submitter at))
        (numbers_of (λ b. faults b) shelf.old.items) (numbers_of (λ b. faults b) shelf.new.items) }
{
    let found = match entries_unless_long(alloc, page, form, submitter, at) {
        Ok(found) => found,
        Err(_) => return Err(SubmitFault::Memory),
    };
    match found {
        Some(entries) => outcome_of_parts(alloc, url, &entries, bounds, shelf),
        None => Ok(Outcome::NoRequest(Why::Long)),
    }
}

/// Submits a form (HTML, "Form submission algorithm"): answers the request, or why there is none. Nothing
/// is sent.
///
/// `base` is the document's URL. `submitter` is the button that submits the form, if one does; it is a
/// submit button that the form owns. With `check` the form is validated, unless it or the button says
/// otherwise. `at` is where an image button was clicked, in pixels from its left and its top edge.
/// `bounds` are the boundaries for a multipart body, each of at most 70 bytes; the first one is taken that
/// stands in no part.
///
/// Each file that an element names stands on the shelf. Files are read for a multipart body alone, in the
/// order of its entries, each from its start; none is held. At the byte that passes the limit reading
/// stops.
///
/// The outcome is the first of these: stopped, `Dialog`, `Action`, `Scheme`, `Long`, `Clash`, the request. It
/// can be written by [`write_request`](crate::write_request) over the shelf as it is then.
pub fn submit(
    alloc: Global,
    page: &Page,
    base: &Url,
    form: Key,
    submitter: Option<Key>,
    check: bool,
    at: (u32, u32),
    bounds: &[String],
    shelf: &mut Vec<Option<Box<dyn Blob>>>,
) -> Result<Outcome, SubmitFault>
    requires bounds { All (λ boundary. length (string_bytes boundary) ≤ longest_boundary) bounds.now }
    requires files { HasFiles (contents_of (λ b. content b) shelf.old.items) page.now.tree.nodes }
    ensures kept { contents_of (λ b. content b) shelf.new.items ≡ contents_of (λ b. content b) shelf.old.items }
    ensures counts { NoneFell (numbers_of (λ b. faults b) shelf.old.items) (numbers_of (λ b. faults b) shelf.new.items) }
    ensures others { (k : ℕ) → ¬ (Contains (files_read (route_of page.now.tree.nodes base.now form submitter check)
        (entry_list page.now form submitter at)) k) → at_number shelf.new.items k ≡ at_number shelf.old.items k }
    ensures outcome { IfOk result (λ outcome. IsOutcomeBy (contents_of (λ b. content b) shelf.old.items)
        (route_of page.now.tree.nodes base.now form submitter check) (entry_list page.now form submitter at)
        (map string_bytes bounds.now) outcome) }
    ensures long { IfOk result (λ outcome. IfLong outcome (IsTooLong (contents_of (λ b. content b) shelf.old.items)
        (numbers_of (λ b. position b) shelf.new.items) (route_of page.now.tree.nodes base.now form submitter check)
        (entry_list page.now form submitter at) shelf.old.items shelf.new.items)) }
    ensures sizes { IfOk result (λ outcome. IfRequest outcome (λ request.
        LastSizes (numbers_of (λ b. position b) shelf.new.items) (file_numbers request.body) (file_sizes request.body))) }
    ensures sendable { IfOk result (λ outcome. IfRequest outcome (λ request.
        IsSendable (contents_of (λ b. content b) shelf.new.items) request)) }
    ensures fault { result ≡ Err SubmitFault.Blob → SomeRose (files_read
        (route_of page.now.tree.nodes base.now form submitter check) (entry_list page.now form submitter at))
        (numbers_of (λ b. faults b) shelf.old.items) (numbers_of (λ b. faults b) shelf.new.items) }
{
    let route = match route_of(alloc, page, base, form, submitter, check) {
        Ok(route) => route,
        Err(_) => return Err(SubmitFault::Memory),
    };
    match route {
        Route::Multipart(url) => submit_parts(alloc, url, page, form, submitter, at, bounds, shelf),
        Route::Direct(direct) => match direct_outcome(alloc, direct, page, form, submitter, at) {
            Ok(outcome) => Ok(outcome),
            Err(_) => Err(SubmitFault::Memory),
        },
    }
}
