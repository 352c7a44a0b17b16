// The value of an element.
ghost use Rattle.std.specs.Prelude.{◌≡◌, [], Some, IfOk, true};
ghost use Rattle.std.specs.List.{slice_get};
ghost use Rattle.std.specs.Option.{option_and_then, option_copied, option_map, option_map_or};
ghost use Rattle.form_text.specs.LineEnds.{with_lf};
ghost use Rattle.form_tree.specs.Elements.{is_option};
ghost use Rattle.form_tree.specs.Selects.{option_value};
ghost use Rattle.form_tree.specs.Tree.{at_key};
ghost use Rattle.form_tree.specs.Value.{fake_path, file_name, input_value, value_at};
ghost use Rattle.form_page.specs.Page.{names_of};

use crate::file::File;
use form_judge::{is_button, is_input, is_textarea, kind_of, value_attr_or};
use form_select::{option_value, select_value};
use form_text::{Text, normalise_lf};
use form_tree::{Node, Tree};
use form_types::{Mode, mode_of};
use std::alloc::{AllocError, Global};

// What stands before the name of a selected file (HTML, "Common input element APIs", filename).
const FAKE_PATH: &str = "C:\\fakepath\\";

/// The value of an element of the tree, the files being these.
pub fn value_of(alloc: Global, tree: &Tree, files: &[File], node: &Node) -> Result<Text, AllocError>
    requires { at_key tree.now.nodes node.now.key ≡ Some node.now }
    ensures { IfOk result (λ value. value ≡ value_at (names_of files.now) tree.now.nodes node.now) }
{
    if is_input(node) {
        return input_value(alloc, files, node);
    }
    if is_textarea(node) {
        return raw_value(alloc, node);
    }
    if node.tag.is_select() {
        return select_value(alloc, tree, node.key);
    }
    if is_button(node) {
        return Text::from_str(alloc, value_attr_or(node, ""));
    }
    if node.tag.is_option() {
        return option_text(alloc, tree, node);
    }
    Ok(Text::from_string(String::new(alloc)))
}

fn raw_value(alloc: Global, node: &Node) -> Result<Text, AllocError>
    ensures { IfOk result (λ value. value ≡ with_lf node.now.state.value) }
{
    let value = normalise_lf(alloc, node.state.value.as_str())?;
    Ok(Text::from_string(value))
}

fn option_text(alloc: Global, tree: &Tree, node: &Node) -> Result<Text, AllocError>
    requires there { at_key tree.now.nodes node.now.key ≡ Some node.now }
    requires option { is_option node.now ≡ true }
    ensures { IfOk result (λ value. value ≡ option_value node.now) }
{
    let value = option_value(alloc, tree, node.key)?;
    Ok(Text::from_string(value))
}

fn input_value(alloc: Global, files: &[File], node: &Node) -> Result<Text, AllocError>
    ensures { IfOk result (λ value. value ≡ input_value (names_of files.now) node.now) }
{
    match mode_of(kind_of(node)) {
        Mode::Value => Text::from_str(alloc, node.state.value.as_str()),
        Mode::Default => Text::from_str(alloc, value_attr_or(node, "")),
        Mode::DefaultOn => Text::from_str(alloc, value_attr_or(node, "on")),
        Mode::Filename => path_of(alloc, first_name(files, node)),
    }
}

// The path that stands for the selected file of that name, if there is one.
fn path_of(alloc: Global, name: Option<&str>) -> Result<Text, AllocError>
    ensures { IfOk result (λ value. value ≡ option_map_or fake_path (option_map (λ t. t.now) name.entry) []) }
{
    let Some(name) = name else {
        return Ok(Text::from_string(String::new(alloc)));
    };
    let mut path = String::from_str(alloc, FAKE_PATH)?;
    path.push_str(name)?;
    Ok(Text::from_string(path))
}

// The name of the first selected file of an input.
fn first_name<'a>(files: &'a [File], node: &Node) -> Option<&'a str>
    ensures { option_copied result ≡
        option_and_then (file_name (names_of files.now)) (slice_get node.now.state.files 0) }
{
    match node.state.files.as_slice().first() {
        Some(number) => name_of(files, *number),
        None => None,
    }
}

fn name_of(files: &[File], number: u32) -> Option<&str>
    ensures { option_copied result ≡ file_name (names_of files.now) number }
{
    match files.get((number as usize).saturating_sub(1)) {
        Some(file) => Some(file.name.as_str()),
        None => None,
    }
}
