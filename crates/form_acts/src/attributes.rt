// An attribute set or taken away, with what follows by what it is for.
ghost use Rattle.std.specs.Prelude.{◌≡◌, IfOk};
ghost use Rattle.form_tree.specs.Attributes.{with_attr};
ghost use Rattle.form_tree.specs.Elements.{has_attr, passes};
ghost use Rattle.form_tree.specs.Tree.{IsTree};
ghost use Rattle.form_changes.specs.Changing.{role_of};
ghost use Rattle.form_acts.specs.Acts.{after_attr, after_change, is_attr_change};
ghost use Rattle.form_drafts.specs.Drafts.{draft_of};

use crate::option_attributes::{change_selected, change_size};
use crate::radio_attributes::{change_checked, change_name, change_owner};
use crate::type_attribute::change_type;
use crate::value_attributes::{change_limit, change_value};
use form_changes::{Role, role_of};
use form_drafts::Draft;
use form_page::Page;
use form_text::Text;
use form_tree::{Key, Tree};
use std::alloc::{AllocError, Global};

/// An attribute set, or taken away where there is no value.
pub fn attr<'a>(
    alloc: Global,
    page: &'a Page,
    key: Key,
    name: &Text,
    value: &Option<Text>,
) -> Result<Draft<'a>, AllocError>
    ensures { IfOk result (λ draft.
        draft ≡ draft_of page.now (after_attr page.now.tree.nodes key name.now value.now)) }
{
    if !is_attr_change(page.tree(), key, name, value) {
        return Draft::new(alloc, page);
    }
    change(alloc, page, role_of(name.as_str()), key, name, value)
}

fn is_attr_change(tree: &Tree, key: Key, name: &Text, value: &Option<Text>) -> bool
    ensures { result ≡ is_attr_change tree.now.nodes key name.now value.now }
{
    value.is_some() || has_attr_at(tree, key, name)
}

fn has_attr_at(tree: &Tree, key: Key, name: &Text) -> bool
    ensures { result ≡ passes (has_attr name.now) tree.now.nodes key }
{
    match tree.node(key) {
        Some(node) => node.has_attr(name.as_str()),
        None => false,
    }
}

fn change<'a>(
    alloc: Global,
    page: &'a Page,
    role: Role,
    key: Key,
    name: &Text,
    value: &Option<Text>,
) -> Result<Draft<'a>, AllocError>
    requires { role ≡ role_of name.now }
    ensures { IfOk result (λ draft.
        draft ≡ draft_of page.now (after_change role page.now.tree.nodes key name.now value.now)) }
{
    match role {
        Role::Type => change_type(alloc, page, key, name, value),
        Role::Value => change_value(alloc, page, key, name, value),
        Role::Limit => change_limit(alloc, page, key, name, value),
        Role::Checked => change_checked(alloc, page, key, name, value),
        Role::Name => change_name(alloc, page, key, name, value),
        Role::Owner => change_owner(alloc, page, key, name, value),
        Role::Selected => change_selected(alloc, page, key, name, value),
        Role::Size => change_size(alloc, page, key, name, value),
        Role::Plain => set_attr(alloc, page, key, name, value),
    }
}

/// The attribute alone.
pub fn set_attr<'a>(
    alloc: Global,
    page: &'a Page,
    key: Key,
    name: &Text,
    value: &Option<Text>,
) -> Result<Draft<'a>, AllocError>
    ensures draft { IfOk result (λ draft.
        draft ≡ draft_of page.now (with_attr page.now.tree.nodes key name.now value.now)) }
    ensures tree { IfOk result (λ draft. IsTree page.now.tree.nodes) }
{
    let draft = Draft::new(alloc, page)?;
    let name = Text::from_str(alloc, name.as_str())?;
    let value = copy_of(value)?;
    let after = draft.with_attr(key, name, value)?;
    Ok(after)
}

fn copy_of(value: &Option<Text>) -> Result<Option<Text>, AllocError>
    ensures { IfOk result (λ copy. copy ≡ value.now) }
{
    match value {
        Some(value) => Ok(Some(value.clone()?)),
        None => Ok(None),
    }
}
