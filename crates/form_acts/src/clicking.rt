// Clicks of buttons, and implicit submission.
ghost use Rattle.std.specs.Prelude.{◌≡◌, nat_le, not};
ghost use Rattle.form_tree.specs.Elements.{passes};
ghost use Rattle.form_acts.specs.Clicking.{activation, blocking_count, click_of, default_button, implicit_by, implicit_of, is_blocking, is_submitter, place_or_origin, takes_click};

use crate::clicked::Clicked;
use crate::elements::{is_any_button, is_blocking, is_image, is_resetter, is_submitter};
use form_changes::ActFault;
use form_page::Page;
use form_tree::{Key, Node};

/// A click of a button, at a place of it where it is an image button, else with no place. It takes
/// no memory. The refusals are NoElement, WrongKind, where it is no button, and Immutable, where the
/// button is disabled (HTML, "The button element", activation behavior).
pub fn click(page: &Page, key: Key, at: Option<(u32, u32)>) -> Result<Clicked, ActFault>
    ensures { result ≡ click_of page.now.tree.nodes key at }
{
    let Some(node) = page.tree().node(key) else {
        return Err(ActFault::NoElement);
    };
    if !takes_click(node, at) {
        return Err(ActFault::WrongKind);
    }
    if page.disabled(key) {
        return Err(ActFault::Immutable);
    }
    match page.owner(key) {
        Some(form) => Ok(activation(node, form, place_or_origin(at))),
        None => Ok(Clicked::Nothing),
    }
}

fn takes_click(node: &Node, at: Option<(u32, u32)>) -> bool
    ensures { result ≡ takes_click at node.now }
{
    match at {
        Some(_) => is_image(node),
        None => is_any_button(node),
    }
}

fn place_or_origin(at: Option<(u32, u32)>) -> (u32, u32)
    ensures { result ≡ place_or_origin at }
{
    match at {
        Some(place) => place,
        None => (0, 0),
    }
}

fn activation(node: &Node, form: Key, at: (u32, u32)) -> Clicked
    ensures { result ≡ activation node.now form at }
{
    if is_submitter(node) {
        return Clicked::Submit {
            form,
            submitter: Some(node.key),
            at,
        };
    }
    if is_resetter(node) {
        return Clicked::Reset { form };
    }
    Clicked::Nothing
}

/// The enter key in a field that blocks implicit submission. It takes no memory. The refusals are
/// NoElement, WrongKind, where it is no such field, and Immutable, where it is disabled (HTML,
/// "Implicit submission").
pub fn implicit(page: &Page, key: Key) -> Result<Clicked, ActFault>
    ensures { result ≡ implicit_of page.now.tree.nodes key }
{
    let Some(node) = page.tree().node(key) else {
        return Err(ActFault::NoElement);
    };
    if !is_blocking(node) {
        return Err(ActFault::WrongKind);
    }
    if page.disabled(key) {
        return Err(ActFault::Immutable);
    }
    match page.owner(key) {
        Some(form) => Ok(implicit_in(page, form)),
        None => Ok(Clicked::Nothing),
    }
}

fn implicit_in(page: &Page, form: Key) -> Clicked
    ensures { let ns = page.now.tree.nodes in result ≡ implicit_by ns form (default_button ns form) }
{
    let button = default_button(page, form);
    match button {
        Some(button) => {
            if page.disabled(button) {
                return Clicked::Nothing;
            }
            Clicked::Submit {
                form,
                submitter: Some(button),
                at: (0, 0),
            }
        }
        None => {
            if has_two_blocking(page, form) {
                return Clicked::Nothing;
            }
            Clicked::Submit {
                form,
                submitter: None,
                at: (0, 0),
            }
        }
    }
}

fn default_button(page: &Page, form: Key) -> Option<Key>
    ensures { result ≡ default_button page.now.tree.nodes form }
{
    page.tree().len();
    let owned = page.owned(form);
    for key in owned {
        if is_submitter_at(page, *key) {
            return Some(*key);
        }
    }
    None
}

fn has_two_blocking(page: &Page, form: Key) -> bool
    ensures { result ≡ not (nat_le (blocking_count page.now.tree.nodes form) 1) }
{
    page.tree().len();
    let owned = page.owned(form);
    let mut found = false;
    for key in owned {
        if is_blocking_at(page, *key) {
            if found {
                return true;
            }
            found = true;
        }
    }
    false
}

fn is_submitter_at(page: &Page, key: Key) -> bool
    ensures { result ≡ passes is_submitter page.now.tree.nodes key }
{
    match page.tree().node(key) {
        Some(node) => is_submitter(node),
        None => false,
    }
}

fn is_blocking_at(page: &Page, key: Key) -> bool
    ensures { result ≡ passes is_blocking page.now.tree.nodes key }
{
    match page.tree().node(key) {
        Some(node) => is_blocking(node),
        None => false,
    }
}
