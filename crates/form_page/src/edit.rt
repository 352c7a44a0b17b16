// The raw changes of a page, made in order.
ghost use Rattle.std.specs.Prelude.{◌≡◌, IfSome, IsSome, OnOk, List, ℕ};
ghost use Rattle.form_tree.specs.Attributes.{with_attr};
ghost use Rattle.form_tree.specs.Tree.{place_of};
ghost use Rattle.form_page.specs.Editing.{AreThere, edited, edited_key, files_after, nodes_after, without_file, without_file_at};
ghost use Rattle.form_page.specs.Page.{Page, page_of};

use crate::file::File;
use form_text::Text;
use form_tree::{Key, State, Tree};
use std::alloc::AllocError;

/// A raw change of a page. Nothing follows from it but what is seen: no group is settled, and no
/// value is sanitised.
#[derive(Debug, Drop)]
pub enum Edit {
    /// Sets an attribute of an element, or takes it away where there is no value.
    Attr {
        key: Key,
        name: Text,
        value: Option<Text>,
    },
    /// Puts a text in place of the one that stands directly in an element.
    Text {
        key: Key,
        text: Text,
    },
    /// Puts a state in place of an element's.
    Put {
        key: Key,
        state: State,
    },
    /// The file of that number, counted from 1, is no longer there.
    Gone {
        file: u32,
    },
}

/// Makes the changes in their order.
pub fn make_edits(
    tree: &mut Tree,
    files: &mut Vec<File>,
    edits: Vec<Edit>,
) -> Result<(), AllocError>
    requires { AreThere tree.old.nodes edits.items }
    ensures { OnOk result (page_of tree.new files.new.items ≡ edited (page_of tree.old files.old.items) edits.items) }
{
    let mut left = edits;
    left.reverse();
    while let Some(edit) = left.pop() {
        make_edit(tree, files, edit)?;
    }
    Ok(())
}

fn make_edit(tree: &mut Tree, files: &mut Vec<File>, edit: Edit) -> Result<(), AllocError>
    requires { IfSome (edited_key edit) (λ k. IsSome (place_of tree.old.nodes k)) }
    ensures tree { OnOk result (tree.new ≡ record tree.old { nodes = nodes_after tree.old.nodes edit }) }
    ensures files { OnOk result (files.new.items ≡ files_after files.old.items edit) }
{
    match edit {
        Edit::Attr { key, name, value } => set_attr(tree, key, name, value),
        Edit::Text { key, text } => {
            tree.set_text(key, text.into_string());
            Ok(())
        }
        Edit::Put { key, state } => {
            tree.set_state(key, state);
            Ok(())
        }
        Edit::Gone { file } => {
            leave(files, file);
            Ok(())
        }
    }
}

fn set_attr(tree: &mut Tree, key: Key, name: Text, value: Option<Text>) -> Result<(), AllocError>
    requires { IsSome (place_of tree.old.nodes key) }
    ensures { OnOk result (tree.new ≡ record tree.old { nodes = with_attr tree.old.nodes key name value }) }
{
    let value = match value {
        Some(value) => Some(value.into_string()),
        None => None,
    };
    tree.set_attr(key, name.as_str(), value)
}

// The file of that number is no longer there.
fn leave(files: &mut Vec<File>, number: u32)
    ensures { files.new.items ≡ without_file files.old.items number }
{
    if number == 0 {
        return;
    }
    leave_at(files, number as usize - 1);
}

fn leave_at(files: &mut [File], place: usize)
    ensures { files.new ≡ without_file_at files.old place }
{
    if place < files.len() {
        files[place].there = false;
    }
}
