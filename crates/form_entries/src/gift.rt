// What a control gives to the entry list.
ghost use Rattle.std.specs.Prelude.{◌≡◌};
ghost use Rattle.form_entries.specs.EntryList.{gift_of, gift_of_named};

use crate::controls::{is_charset, is_file_input, is_image_button, name_in, takes_part};
use form_page::Page;
use form_tree::{Key, Node};

/// What a control gives to the entry list: nothing, the coordinates of an image button, the selected
/// options of a select, the files of a file input, the name of the encoding, or its value.
#[derive(Clone, Copy, Debug)]
pub enum Gift {
    Nothing,
    Coordinates,
    Options,
    Files,
    Charset,
    Value,
}

pub fn gift_of(page: &Page, form: Key, submitter: Option<Key>, node: &Node) -> Gift
    ensures { result ≡ gift_of page.now.tree.nodes form submitter node.now }
{
    if !takes_part(page, form, submitter, node) {
        return Gift::Nothing;
    }
    if is_image_button(node) {
        return Gift::Coordinates;
    }
    if name_in(node).is_empty() {
        return Gift::Nothing;
    }
    gift_of_named(node)
}

// What a control with a name gives that is no image button.
fn gift_of_named(node: &Node) -> Gift
    ensures { result ≡ gift_of_named node.now }
{
    if node.tag.is_select() {
        return Gift::Options;
    }
    if is_file_input(node) {
        return Gift::Files;
    }
    if is_charset(node) {
        return Gift::Charset;
    }
    Gift::Value
}
