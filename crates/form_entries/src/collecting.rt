// The entries themselves.
ghost use Rattle.std.specs.Prelude.{◌≡◌, ◌++◌, [], ◌∷◌, map, Some, All, IfOk, OnOk, decimal, string_bytes};
ghost use Rattle.std.specs.List.{flat_map};
ghost use Rattle.form_entries.specs.Below.{entry_by};
ghost use Rattle.form_entries.specs.EntryList.{coordinate_entries, coordinate_name, entries_by, entries_of, entry_list, file_entries, file_entry, name_in, option_entries, text_entry};
ghost use Rattle.form_encode.specs.declared.entry.Given.TheVariants.{File};
ghost use Rattle.form_tree.specs.Tree.{at_key};

use crate::below::{elements_with_options, is_sent_by};
use crate::controls::name_in;
use crate::gift::{Gift, gift_of};
use crate::measuring::{name_of_file, value_of};
use form_encode::{Entry, Given};
use form_page::Page;
use form_text::Text;
use form_tree::{Key, Node};
use itoa::Buffer;
use std::alloc::{AllocError, Global};

/// The entry list of a form.
pub fn collect(
    alloc: Global,
    page: &Page,
    form: Key,
    submitter: Option<Key>,
    at: (u32, u32),
) -> Result<Vec<Entry>, AllocError>
    ensures { IfOk result (λ entries. entries.items ≡ entry_list page.now form submitter at) }
{
    collect_from(alloc, page, form, submitter, at, page.tree().nodes())
}

// What these elements give.
fn collect_from(
    alloc: Global,
    page: &Page,
    form: Key,
    submitter: Option<Key>,
    at: (u32, u32),
    nodes: &[Node],
) -> Result<Vec<Entry>, AllocError>
    ensures { IfOk result (λ entries. entries.items ≡ flat_map (entries_of page.now form submitter at) nodes.now) }
{
    let mut entries = Vec::new(alloc);
    for node in nodes {
        let gift = gift_of(page, form, submitter, node);
        push_entries(alloc, &mut entries, page, at, node, gift)?;
    }
    Ok(entries)
}

fn push_entries(
    alloc: Global,
    entries: &mut Vec<Entry>,
    page: &Page,
    at: (u32, u32),
    node: &Node,
    gift: Gift,
) -> Result<(), AllocError>
    ensures { OnOk result (entries.new.items ≡ entries.old.items ++ entries_by page.now at node.now gift) }
{
    match gift {
        Gift::Nothing => Ok(()),
        Gift::Coordinates => push_coordinates(alloc, entries, name_in(node), at),
        Gift::Options => push_options(alloc, entries, page, node),
        Gift::Files => push_files(
            alloc,
            entries,
            page,
            name_in(node),
            node.state.files.as_slice(),
        ),
        Gift::Charset => push_text(alloc, entries, name_in(node), "UTF-8"),
        Gift::Value => push_text(alloc, entries, name_in(node), value_of(page, node.key)),
    }
}

fn push_text(
    alloc: Global,
    entries: &mut Vec<Entry>,
    name: &str,
    text: &str,
) -> Result<(), AllocError>
    ensures { OnOk result (entries.new.items ≡ entries.old.items ++ text_entry name.now text.now ∷ []) }
{
    let name = Text::from_str(alloc, name)?;
    let value = Given::Text(Text::from_str(alloc, text)?);
    entries.push(Entry { name, value })?;
    Ok(())
}

fn push_file(
    alloc: Global,
    entries: &mut Vec<Entry>,
    name: &str,
    number: Option<u32>,
    file: &str,
) -> Result<(), AllocError>
    ensures { OnOk result (entries.new.items ≡
        entries.old.items ++ record { name = name.now; value = File number file.now } ∷ []) }
{
    let name = Text::from_str(alloc, name)?;
    let value = Given::File {
        number,
        name: Text::from_str(alloc, file)?,
    };
    entries.push(Entry { name, value })?;
    Ok(())
}

fn push_coordinates(
    alloc: Global,
    entries: &mut Vec<Entry>,
    name: &str,
    at: (u32, u32),
) -> Result<(), AllocError>
    ensures { OnOk result (entries.new.items ≡ entries.old.items ++ coordinate_entries name.now at) }
{
    push_coordinate(alloc, entries, name, "x", at.0)?;
    push_coordinate(alloc, entries, name, "y", at.1)
}

fn push_coordinate(
    alloc: Global,
    entries: &mut Vec<Entry>,
    name: &str,
    axis: &str,
    place: u32,
) -> Result<(), AllocError>
    ensures { OnOk result (entries.new.items ≡
        entries.old.items ++ text_entry (coordinate_name name.now axis.now) (decimal place) ∷ []) }
{
    let mut buffer = Buffer::new();
    let name = coordinate_name(alloc, name, axis)?;
    push_text(alloc, entries, name.as_str(), buffer.format(place))
}

fn coordinate_name(alloc: Global, name: &str, axis: &str) -> Result<String, AllocError>
    ensures { IfOk result (λ text. string_bytes text ≡ coordinate_name name.now axis.now) }
{
    if name.is_empty() {
        return String::from_str(alloc, axis);
    }
    let mut text = String::from_str(alloc, name)?;
    text.push_str(".")?;
    text.push_str(axis)?;
    Ok(text)
}

fn push_options(
    alloc: Global,
    entries: &mut Vec<Entry>,
    page: &Page,
    select: &Node,
) -> Result<(), AllocError>
    ensures { OnOk result (entries.new.items ≡ entries.old.items ++ option_entries page.now select.now) }
{
    push_options_among(
        alloc,
        entries,
        page,
        select,
        elements_with_options(page, select.key),
    )
}

fn push_options_among(
    alloc: Global,
    entries: &mut Vec<Entry>,
    page: &Page,
    select: &Node,
    nodes: &[Node],
) -> Result<(), AllocError>
    requires { All (λ n. at_key page.now.tree.nodes n.key ≡ Some n) nodes.now }
    ensures { OnOk result (entries.new.items ≡
        entries.old.items ++ flat_map (entry_by page.now select.now.key (name_in select.now)) nodes.now) }
{
    for node in nodes {
        push_option(alloc, entries, page, select, node)?;
    }
    Ok(())
}

// The entry of an element, where it is an option that is sent.
fn push_option(
    alloc: Global,
    entries: &mut Vec<Entry>,
    page: &Page,
    select: &Node,
    node: &Node,
) -> Result<(), AllocError>
    requires { at_key page.now.tree.nodes node.now.key ≡ Some node.now }
    ensures { OnOk result (entries.new.items ≡
        entries.old.items ++ entry_by page.now select.now.key (name_in select.now) node.now) }
{
    if !is_sent_by(page.tree(), select.key, node) {
        return Ok(());
    }
    push_text(alloc, entries, name_in(select), value_of(page, node.key))
}

fn push_files(
    alloc: Global,
    entries: &mut Vec<Entry>,
    page: &Page,
    name: &str,
    files: &[u32],
) -> Result<(), AllocError>
    ensures { OnOk result (entries.new.items ≡ entries.old.items ++ file_entries page.now name.now files.now) }
{
    if files.is_empty() {
        return push_file(alloc, entries, name, None, "");
    }
    push_numbers(alloc, entries, page, name, files)
}

fn push_numbers(
    alloc: Global,
    entries: &mut Vec<Entry>,
    page: &Page,
    name: &str,
    numbers: &[u32],
) -> Result<(), AllocError>
    ensures { OnOk result (entries.new.items ≡ entries.old.items ++ map (file_entry page.now name.now) numbers.now) }
{
    for number in numbers {
        push_file(
            alloc,
            entries,
            name,
            Some(*number),
            name_of_file(page, *number),
        )?;
    }
    Ok(())
}
