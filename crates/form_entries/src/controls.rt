// Which controls take part in the entry list.
ghost use Rattle.std.specs.Prelude.{◌≡◌, false};
ghost use Rattle.std.specs.List.{list_any};
ghost use Rattle.std.specs.Option.{option_map_or};
ghost use Rattle.form_tree.specs.Elements.{is_datalist, is_input, passes, same_key};
ghost use Rattle.form_tree.specs.Ownership.{ancestors, owner_of};
ghost use Rattle.form_page.specs.Views.{is_checkable, is_checkable_kind};
ghost use Rattle.form_entries.specs.EntryList.{is_any_button, is_charset, is_file_kind, is_hidden_kind, is_image_kind, is_input_of, is_passed_over, name_in, takes_part};

use form_judge::kind_of;
use form_page::Page;
use form_text::eq_ascii_case;
use form_tree::{Key, Node, Tag, Tree};
use form_types::Kind;

/// Whether an element is a submittable element of the form that is not passed over.
pub fn takes_part(page: &Page, form: Key, submitter: Option<Key>, node: &Node) -> bool
    ensures { result ≡ takes_part page.now.tree.nodes form submitter node.now }
{
    if !node.tag.is_submittable() || !is_owned_by(page, form, node.key) {
        return false;
    }
    !is_passed_over(page, submitter, node)
}

fn is_owned_by(page: &Page, form: Key, key: Key) -> bool
    ensures { result ≡ option_map_or (same_key form) (owner_of page.now.tree.nodes key) false }
{
    match page.owner(key) {
        Some(owner) => form.0 == owner.0,
        None => false,
    }
}

fn is_passed_over(page: &Page, submitter: Option<Key>, node: &Node) -> bool
    ensures { result ≡ is_passed_over page.now.tree.nodes submitter node.now }
{
    page.disabled(node.key)
        || (is_any_button(node) && !is_that(submitter, node.key))
        || (is_checkable(node) && !node.state.checked)
        || is_in_datalist(page.tree(), node.key)
}

fn is_that(submitter: Option<Key>, key: Key) -> bool
    ensures { result ≡ option_map_or (same_key key) submitter false }
{
    match submitter {
        Some(submitter) => key.0 == submitter.0,
        None => false,
    }
}

// Whether an element has a datalist above it.
fn is_in_datalist(tree: &Tree, key: Key) -> bool
    ensures { result ≡ list_any is_datalist (ancestors tree.now.nodes key) }
{
    tree.len();
    let mut at = key;
    'climbing: while let Some(up) = tree.parent(at) {
        if is_datalist(tree, up) {
            return true;
        }
        at = up;
    }
    false
}

fn is_datalist(tree: &Tree, key: Key) -> bool
    ensures { result ≡ passes is_datalist tree.now.nodes key }
{
    match tree.tag(key) {
        Some(tag) => matches!(tag, Tag::Datalist),
        None => false,
    }
}

// ---- what an element is

fn is_input(node: &Node) -> bool
    ensures { result ≡ is_input node.now }
{
    matches!(node.tag, Tag::Input)
}

fn is_any_button(node: &Node) -> bool
    ensures { result ≡ is_any_button node.now }
{
    matches!(node.tag, Tag::Button) || (is_input(node) && kind_of(node).is_button())
}

// Whether it is a checkbox or a radio button.
fn is_checkable(node: &Node) -> bool
    ensures { result ≡ is_checkable node.now }
{
    is_input(node) && is_checkable_kind(kind_of(node))
}

fn is_checkable_kind(kind: Kind) -> bool
    ensures { result ≡ is_checkable_kind kind }
{
    matches!(kind, Kind::Checkbox | Kind::Radio)
}

pub fn is_image_button(node: &Node) -> bool
    ensures { result ≡ is_input_of is_image_kind node.now }
{
    is_input(node) && matches!(kind_of(node), Kind::Image)
}

pub fn is_file_input(node: &Node) -> bool
    ensures { result ≡ is_input_of is_file_kind node.now }
{
    is_input(node) && matches!(kind_of(node), Kind::File)
}

fn is_hidden_input(node: &Node) -> bool
    ensures { result ≡ is_input_of is_hidden_kind node.now }
{
    is_input(node) && matches!(kind_of(node), Kind::Hidden)
}

/// Whether it is a hidden input whose value is the name of the encoding.
pub fn is_charset(node: &Node) -> bool
    ensures { result ≡ is_charset node.now }
{
    is_hidden_input(node) && eq_ascii_case(name_in(node), "_charset_")
}

/// The name of an element; empty where it has none.
pub fn name_in(node: &Node) -> &str
    ensures { result.now ≡ name_in node.now }
{
    match node.attr("name") {
        Some(name) => name,
        None => "",
    }
}
