// How many attributes an element would have.
ghost use denote.Enum.Bare.{sameb};
ghost use Rattle.std.specs.Prelude.{◌≡◌, ◌&&◌, ℕ, List, Some, not, codes, length, filter, nat_lt};
ghost use Rattle.form_tree.specs.Attributes.{attrs_with, set_attr};
ghost use Rattle.form_tree.specs.Elements.{has_attr, is_input, kind_of};
ghost use Rattle.form_tree.specs.Tree.{is_named};
ghost use Rattle.form_types.specs.contracts.kind.Kind.{the_type as Kinds};
ghost use Rattle.form_types.specs.TypeTable.{kind_named};
ghost use Rattle.form_changes.specs.declared.role.Role.TheVariants as roles;
ghost use Rattle.form_changes.specs.Changing.{changed_attr, given, role_of};
ghost use Rattle.form_changes.specs.Counting.{is_by_attr, is_given_by_attr, is_to_attr, is_type_role, moves_value, type_moves_value};
ghost use Rattle.form_changes.specs.declared.TheConstants.{MOST_ATTRIBUTES};

use crate::MOST_ATTRIBUTES;
use crate::elements::is_input;
use crate::role::{Role, role_of};
use form_judge::kind_of;
use form_text::Text;
use form_tree::Node;
use form_types::{Kind, Mode, mode_of};

/// Whether the element would have too many attributes after that change of one.
pub fn is_beyond_by_attr(node: &Node, name: &str, value: &Option<Text>) -> bool
    ensures { result ≡ nat_lt MOST_ATTRIBUTES (length (changed_attr (role_of name.now) name.now value.now node.now).attrs) }
{
    if is_type_role(role_of(name)) {
        return is_beyond_by_type(node, value);
    }
    MOST_ATTRIBUTES < count_with(node, name, value)
}

/// Whether the element would have too many attributes after the script set its value.
pub fn is_beyond_by_text(node: &Node, text: &str) -> bool
    ensures { result ≡ nat_lt MOST_ATTRIBUTES (length (given text.now node.now).attrs) }
{
    MOST_ATTRIBUTES < count_after_text(node, text)
}

/// Whether it is the role of `type`.
pub fn is_type_role(role: Role) -> bool
    ensures { result ≡ is_type_role role }
{
    matches!(role, Role::Type)
}

// After a change of the `type` attribute, by which the value may become an attribute.
fn is_beyond_by_type(node: &Node, value: &Option<Text>) -> bool
    ensures { result ≡ nat_lt MOST_ATTRIBUTES (length (changed_attr roles.Type (codes "type") value.now node.now).attrs) }
{
    let count = count_with(node, "type", value);
    if adds_value(node, value) {
        return MOST_ATTRIBUTES <= count;
    }
    MOST_ATTRIBUTES < count
}

fn adds_value(node: &Node, value: &Option<Text>) -> bool
    ensures { result ≡ (type_moves_value (codes "type") value.now node.now && not (has_attr (codes "value") node.now)) }
{
    type_moves_value(node, value) && !node.has_attr("value")
}

fn type_moves_value(node: &Node, value: &Option<Text>) -> bool
    ensures { result ≡ type_moves_value (codes "type") value.now node.now }
{
    let from = kind_of(node);
    let to = kind_after_type(node, value);
    changes_state(node, from, to) && moves_value(from, to, node)
}

// The state that the `type` attribute would name.
fn kind_after_type(node: &Node, value: &Option<Text>) -> Kind
    ensures { result ≡ kind_of (set_attr (codes "type") value.now node.now) }
{
    kind_named(value)
}

fn kind_named(keyword: &Option<Text>) -> Kind
    ensures { result ≡ kind_named keyword.now }
{
    match keyword {
        Some(keyword) => kind_of_keyword(keyword.as_str()),
        None => Kind::Text,
    }
}

fn kind_of_keyword(keyword: &str) -> Kind
    ensures { result ≡ kind_named (Some keyword.now) }
{
    match Kind::of(Some(keyword)) {
        Ok(kind) => kind,
        // The table has no state of the type `email`.
        Err(_) => Kind::Text,
    }
}

/// Whether it is an input, and comes from one state to another.
pub fn changes_state(node: &Node, from: Kind, to: Kind) -> bool
    ensures { result ≡ (is_input node.now && not (sameb Kinds from to)) }
{
    is_input(node) && from != to
}

/// Whether a value that is not empty becomes the attribute, from one state to another.
pub fn moves_value(from: Kind, to: Kind, node: &Node) -> bool
    ensures { result ≡ moves_value from to node.now }
{
    is_to_attr(mode_of(from), mode_of(to)) && !node.state.value.as_str().is_empty()
}

fn is_to_attr(from: Mode, to: Mode) -> bool
    ensures { result ≡ is_to_attr from to }
{
    match from {
        Mode::Value => is_by_attr(to),
        _ => false,
    }
}

// Whether the value of an input in that mode is an attribute.
fn is_by_attr(mode: Mode) -> bool
    ensures { result ≡ is_by_attr mode }
{
    matches!(mode, Mode::Default | Mode::DefaultOn)
}

fn count_after_text(node: &Node, text: &str) -> usize
    ensures { result ≡ length (given text.now node.now).attrs }
{
    if is_given_by_attr(node) {
        return count_set(node, "value");
    }
    node.attrs.as_slice().len()
}

/// Whether the script sets the value of the element by its attribute.
pub fn is_given_by_attr(node: &Node) -> bool
    ensures { result ≡ is_given_by_attr node.now }
{
    is_input(node) && is_by_attr(mode_of(kind_of(node)))
}

fn count_with(node: &Node, name: &str, value: &Option<Text>) -> usize
    ensures { result ≡ length (attrs_with node.now.attrs name.now value.now) }
{
    match value {
        Some(_) => count_set(node, name),
        None => count_without(node.attrs.as_slice(), name),
    }
}

// With that attribute, whatever its value is.
fn count_set(node: &Node, name: &str) -> usize
    ensures { (value : List ℕ) → result ≡ length (attrs_with node.now.attrs name.now (Some value)) }
{
    let count = node.attrs.as_slice().len();
    if node.has_attr(name) {
        return count;
    }
    count + 1
}

fn count_without(attrs: &[(Text, Text)], name: &str) -> usize
    ensures { result ≡ length (filter (λ attr. not (is_named name.now attr)) attrs.now) }
{
    let mut count = 0;
    for (known, _value) in attrs {
        if known.as_str() != name {
            count += 1;
        }
    }
    count
}
