ghost use Rattle.std.specs.Prelude.{◌≡◌};
ghost use Rattle.form_tree.specs.Tree.{empty_state};

use crate::attributes::value_in;
use form_text::{Sequence, Text};
use std::alloc::Global;

/// The name of an element for as long as its page lives, ordered by its number. The elements that
/// a page begins with have the keys 1, 2 and so on in tree order; no key is used again.
#[derive(Clone, Copy, Debug, PartialEq, Eq, PartialOrd, Ord, Hash)]
pub struct Key(pub u32);

/// What an element is, where forms have a rule for it. A `Choice` is an option element.
#[derive(Clone, Copy, Debug, PartialEq, Eq)]
pub enum Tag {
    Form,
    Fieldset,
    Legend,
    Input,
    Select,
    Optgroup,
    Choice,
    Textarea,
    Button,
    Datalist,
    Other,
}

impl Tag {
    ghost use Rattle.form_tree.specs.Elements.{is_form_tag, is_fieldset_tag, is_legend_tag, is_listed_tag, is_optgroup_tag, is_option_tag, is_select_tag, is_submittable_tag};

    /// Whether it is a form element.
    pub fn is_form(self) -> bool
        ensures { result ≡ is_form_tag self }
    {
        matches!(self, Tag::Form)
    }

    /// Whether it is a fieldset element.
    pub fn is_fieldset(self) -> bool
        ensures { result ≡ is_fieldset_tag self }
    {
        matches!(self, Tag::Fieldset)
    }

    /// Whether it is a legend element.
    pub fn is_legend(self) -> bool
        ensures { result ≡ is_legend_tag self }
    {
        matches!(self, Tag::Legend)
    }

    /// Whether it is a select element.
    pub fn is_select(self) -> bool
        ensures { result ≡ is_select_tag self }
    {
        matches!(self, Tag::Select)
    }

    /// Whether it is an optgroup element.
    pub fn is_optgroup(self) -> bool
        ensures { result ≡ is_optgroup_tag self }
    {
        matches!(self, Tag::Optgroup)
    }

    /// Whether it is an option element.
    pub fn is_option(self) -> bool
        ensures { result ≡ is_option_tag self }
    {
        matches!(self, Tag::Choice)
    }

    /// Whether it is a listed element (HTML, "Categories").
    pub fn is_listed(self) -> bool
        ensures { result ≡ is_listed_tag self }
    {
        matches!(
            self,
            Tag::Button | Tag::Fieldset | Tag::Input | Tag::Select | Tag::Textarea
        )
    }

    /// Whether it is a submittable element (HTML, "Categories").
    pub fn is_submittable(self) -> bool
        ensures { result ≡ is_submittable_tag self }
    {
        matches!(self, Tag::Button | Tag::Input | Tag::Select | Tag::Textarea)
    }
}

/// An element as it was read: its parent by its place in the list of elements, none at the top.
#[derive(Clone, Debug, Drop)]
pub struct Raw {
    pub parent: Option<usize>,
    pub tag: Tag,
    pub attrs: Sequence<(Text, Text)>,
    pub text: Text,
}

/// What a control keeps beside its attributes: its value and checkedness with their dirty marks,
/// whether the user edited the value, the text as it was typed, the selectedness of an option with
/// its dirtiness, the numbers of the selected files, and the custom validity message.
#[derive(Clone, Debug, Drop)]
pub struct State {
    pub value: Text,
    pub dirty: bool,
    pub by_user: bool,
    pub typed: Text,
    pub checked: bool,
    pub dirty_checked: bool,
    pub selected: bool,
    pub dirty_selected: bool,
    pub files: Sequence<u32>,
    pub message: Text,
}

/// An element in a tree.
#[derive(Clone, Debug, Drop)]
pub struct Node {
    pub key: Key,
    pub parent: Option<Key>,
    pub tag: Tag,
    pub attrs: Sequence<(Text, Text)>,
    pub text: Text,
    pub state: State,
}

impl Node {
    ghost use Rattle.std.specs.Option.{option_copied};
    ghost use Rattle.form_tree.specs.Elements.{has_attr};
    ghost use Rattle.form_tree.specs.Tree.{attr_in};

    /// The value of an attribute; None where the element has no attribute of that name.
    pub fn attr(&self, name: &str) -> Option<&str>
        ensures { option_copied result ≡ attr_in self.now.attrs name.now }
    {
        value_in(self.attrs.as_slice(), name)
    }

    /// Whether the element has an attribute of that name.
    pub fn has_attr(&self, name: &str) -> bool
        ensures { result ≡ has_attr name.now self.now }
    {
        self.attr(name).is_some()
    }
}

impl State {
    /// The state in which an element begins: no text, no file, and no mark that is set.
    pub fn empty(alloc: Global) -> State
        ensures { result ≡ empty_state }
    {
        State {
            value: Text::from_string(String::new(alloc)),
            dirty: false,
            by_user: false,
            typed: Text::from_string(String::new(alloc)),
            checked: false,
            dirty_checked: false,
            selected: false,
            dirty_selected: false,
            files: Sequence::new(alloc),
            message: Text::from_string(String::new(alloc)),
        }
    }
}
