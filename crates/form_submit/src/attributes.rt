// How a form is submitted.
ghost use Rattle.std.specs.Prelude.{◌≡◌, option_map, option_copied};
ghost use Rattle.form_submit.specs.Attributes.{action_of, attribute_for, enctype_named, enctype_of, is_no_validate, method_named, method_of, own_attribute};

use form_text::eq_ascii_case;
use form_tree::{Key, Tree};

/// The method of a submission (HTML, "Form submission attributes").
#[derive(Clone, Copy, Debug, PartialEq, Eq)]
pub enum Method {
    Get,
    Post,
    Dialog,
}

/// The encoding type of a submission (HTML, "Form submission attributes").
#[derive(Clone, Copy, Debug, PartialEq, Eq)]
pub enum Enctype {
    /// `application/x-www-form-urlencoded`.
    Urlencoded,
    /// `multipart/form-data`.
    Multipart,
    /// `text/plain`.
    Plain,
}

impl Method {
    // The method that a keyword names, ASCII case-insensitively. A missing or unknown keyword gives GET.
    fn of(keyword: Option<&str>) -> Method
        ensures { result ≡ method_named (option_map (λ k. k.now) keyword.entry) }
    {
        let Some(keyword) = keyword else {
            return Method::Get;
        };
        if eq_ascii_case(keyword, "post") {
            return Method::Post;
        }
        if eq_ascii_case(keyword, "dialog") {
            return Method::Dialog;
        }
        Method::Get
    }
}

impl Enctype {
    // The encoding type that a keyword names, ASCII case-insensitively. A missing or unknown keyword
    // gives form-urlencoded.
    fn of(keyword: Option<&str>) -> Enctype
        ensures { result ≡ enctype_named (option_map (λ k. k.now) keyword.entry) }
    {
        let Some(keyword) = keyword else {
            return Enctype::Urlencoded;
        };
        if eq_ascii_case(keyword, "multipart/form-data") {
            return Enctype::Multipart;
        }
        if eq_ascii_case(keyword, "text/plain") {
            return Enctype::Plain;
        }
        Enctype::Urlencoded
    }
}

fn own_attribute<'a>(tree: &'a Tree, submitter: Option<Key>, name: &str) -> Option<&'a str>
    ensures { option_copied result ≡ own_attribute tree.now.nodes submitter name.now }
{
    match submitter {
        Some(key) => tree.attr(key, name),
        None => None,
    }
}

// The value of the submitter's attribute of the first name, or else of the form's of the second.
fn attribute_for<'a>(
    tree: &'a Tree,
    form: Key,
    submitter: Option<Key>,
    own: &str,
    name: &str,
) -> Option<&'a str>
    ensures { option_copied result ≡ attribute_for tree.now.nodes form submitter own.now name.now }
{
    match own_attribute(tree, submitter, own) {
        Some(value) => Some(value),
        None => tree.attr(form, name),
    }
}

/// The method of a form's submission.
pub fn method_of(tree: &Tree, form: Key, submitter: Option<Key>) -> Method
    ensures { result ≡ method_of tree.now.nodes form submitter }
{
    Method::of(attribute_for(tree, form, submitter, "formmethod", "method"))
}

/// The encoding type of a form's submission.
pub fn enctype_of(tree: &Tree, form: Key, submitter: Option<Key>) -> Enctype
    ensures { result ≡ enctype_of tree.now.nodes form submitter }
{
    Enctype::of(attribute_for(tree, form, submitter, "formenctype", "enctype"))
}

/// The action of a form's submission as it is written; empty where there is none.
pub fn action_of(tree: &Tree, form: Key, submitter: Option<Key>) -> &str
    ensures { result.now ≡ action_of tree.now.nodes form submitter }
{
    match attribute_for(tree, form, submitter, "formaction", "action") {
        Some(action) => action,
        None => "",
    }
}

/// Whether a form is submitted without validation.
pub fn is_no_validate(tree: &Tree, form: Key, submitter: Option<Key>) -> bool
    ensures { result ≡ is_no_validate tree.now.nodes form submitter }
{
    own_attribute(tree, submitter, "formnovalidate").is_some()
        || tree.attr(form, "novalidate").is_some()
}
