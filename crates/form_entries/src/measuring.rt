// How many bytes an entry list has, counted without memory.
ghost use Rattle.std.specs.Prelude.{◌≡◌, ◌+◌, [], length, map, Some, All, decimal, unwrap_or};
ghost use Rattle.std.specs.List.{flat_map};
ghost use Rattle.form_tree.specs.Tree.{at_key};
ghost use Rattle.form_page.specs.Page.{name_of_file};
ghost use Rattle.form_entries.specs.Below.{coordinate_length, entry_by, measured};
ghost use Rattle.form_entries.specs.EntryList.{capped, coordinate_entries, coordinate_name, entries_by, entries_length, entries_of, entry_list, entry_length, file_entries, file_entry};
ghost use Rattle.form_entries.specs.EntryList.{name_in, option_entries, text_entry, value_text};

use crate::below::{elements_with_options, is_sent_by};
use crate::controls::name_in;
use crate::gift::{Gift, gift_of};
use form_page::Page;
use form_tree::{Key, Node};
use itoa::Buffer;

/// The bytes of all names, text values and file names of the entry list, or the greatest number of 64
/// bits where they are more.
pub fn length(page: &Page, form: Key, submitter: Option<Key>, at: (u32, u32)) -> u64
    ensures { result ≡ capped (entries_length (entry_list page.now form submitter at)) }
{
    with_elements(0, page, form, submitter, at, page.tree().nodes())
}

// ---- each adds to a number of bytes

fn with_elements(
    before: u64,
    page: &Page,
    form: Key,
    submitter: Option<Key>,
    at: (u32, u32),
    nodes: &[Node],
) -> u64
    ensures { result ≡ measured before (flat_map (entries_of page.now form submitter at) nodes.now) }
{
    let mut total = before;
    for node in nodes {
        let gift = gift_of(page, form, submitter, node);
        total = with_entries(total, page, at, node, gift);
    }
    total
}

fn with_bytes(total: u64, text: &str) -> u64
    ensures { result ≡ capped (total + length text.now) }
{
    total.saturating_add(text.len() as u64)
}

fn with_text(total: u64, name: &str, text: &str) -> u64
    ensures { result ≡ capped (total + entry_length (text_entry name.now text.now)) }
{
    with_bytes(with_bytes(total, name), text)
}

fn with_entries(total: u64, page: &Page, at: (u32, u32), node: &Node, gift: Gift) -> u64
    ensures { result ≡ measured total (entries_by page.now at node.now gift) }
{
    match gift {
        Gift::Nothing => total,
        Gift::Coordinates => with_coordinates(total, name_in(node), at),
        Gift::Options => with_options(total, page, node),
        Gift::Files => with_files(total, page, name_in(node), node.state.files.as_slice()),
        Gift::Charset => with_text(total, name_in(node), "UTF-8"),
        Gift::Value => with_text(total, name_in(node), value_of(page, node.key)),
    }
}

fn with_coordinates(total: u64, name: &str, at: (u32, u32)) -> u64
    ensures { result ≡ measured total (coordinate_entries name.now at) }
{
    let total = with_coordinate(total, name, "x", at.0);
    with_coordinate(total, name, "y", at.1)
}

fn with_coordinate(total: u64, name: &str, axis: &str, place: u32) -> u64
    ensures { result ≡ capped (total + entry_length (text_entry (coordinate_name name.now axis.now) (decimal place))) }
{
    let mut buffer = Buffer::new();
    let total = with_prefix(total, name);
    with_text(total, axis, buffer.format(place))
}

// The bytes of what stands before an axis.
fn with_prefix(total: u64, name: &str) -> u64
    ensures { result ≡ capped (total + coordinate_length name.now) }
{
    if name.is_empty() {
        return total;
    }
    with_bytes(with_bytes(total, name), ".")
}

fn with_options(total: u64, page: &Page, select: &Node) -> u64
    ensures { result ≡ measured total (option_entries page.now select.now) }
{
    with_options_among(total, page, select, elements_with_options(page, select.key))
}

fn with_options_among(before: u64, page: &Page, select: &Node, nodes: &[Node]) -> u64
    requires { All (λ n. at_key page.now.tree.nodes n.key ≡ Some n) nodes.now }
    ensures { result ≡ measured before (flat_map (entry_by page.now select.now.key (name_in select.now)) nodes.now) }
{
    let mut total = before;
    for node in nodes {
        total = with_option(total, page, select, node);
    }
    total
}

// With the entry of an element, where it is an option that is sent.
fn with_option(total: u64, page: &Page, select: &Node, node: &Node) -> u64
    requires { at_key page.now.tree.nodes node.now.key ≡ Some node.now }
    ensures { result ≡ measured total (entry_by page.now select.now.key (name_in select.now) node.now) }
{
    if !is_sent_by(page.tree(), select.key, node) {
        return total;
    }
    with_text(total, name_in(select), value_of(page, node.key))
}

fn with_files(total: u64, page: &Page, name: &str, files: &[u32]) -> u64
    ensures { result ≡ measured total (file_entries page.now name.now files.now) }
{
    if files.is_empty() {
        return with_bytes(total, name);
    }
    with_numbers(total, page, name, files)
}

fn with_numbers(before: u64, page: &Page, name: &str, numbers: &[u32]) -> u64
    ensures { result ≡ measured before (map (file_entry page.now name.now) numbers.now) }
{
    let mut total = before;
    for number in numbers {
        total = with_text(total, name, name_of_file(page, *number));
    }
    total
}

/// The name of a file, which is not empty where the file is there.
pub fn name_of_file(page: &Page, number: u32) -> &str
    ensures { result.now ≡ unwrap_or (name_of_file page.now.files number) [] }
{
    match page.file_name(number) {
        Some(name) => name,
        None => "",
    }
}

/// The value of a control or an option.
pub fn value_of(page: &Page, key: Key) -> &str
    ensures { result.now ≡ value_text page.now key }
{
    match page.value(key) {
        Some(value) => value,
        None => "",
    }
}
