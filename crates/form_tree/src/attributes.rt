ghost use Rattle.std.specs.Prelude.{◌≡◌, IfOk, OnOk, OnErr, Some, not, filter};
ghost use Rattle.std.specs.List.{position};
ghost use Rattle.std.specs.Option.{option_copied, option_map};
ghost use Rattle.std.specs.String.{string_bytes};
ghost use Rattle.form_tree.specs.Attributes.{attrs_with};
ghost use Rattle.form_tree.specs.Tree.{NamesDiffer, attr_in, is_named};

use form_text::{Sequence, Text};
use std::alloc::{AllocError, Global};
use std::mem;

/// The value of the attribute of a name; None where there is none.
pub fn value_in<'a>(attrs: &'a [(Text, Text)], name: &str) -> Option<&'a str>
    ensures { option_copied result ≡ attr_in attrs.now name.now }
{
    for (known, value) in attrs {
        if known.as_str() == name {
            return Some(value.as_str());
        }
    }
    None
}

/// Sets the attribute of a name, or takes it away where there is no value. Without memory the list
/// stays as it was.
pub fn put_attr(
    alloc: Global,
    attrs: &mut Sequence<(Text, Text)>,
    name: &str,
    value: Option<String>,
) -> Result<(), AllocError>
    requires { NamesDiffer attrs.old }
    ensures ok { OnOk result (attrs.new ≡ attrs_with attrs.old name.now (option_map string_bytes value)) }
    ensures err { OnErr result (attrs.new ≡ attrs.old) }
{
    let mut list = mem::replace(attrs, Sequence::new(alloc)).into_vec();
    let done = put_in(alloc, &mut list, name, value);
    *attrs = Sequence::from_vec(list);
    done
}

fn put_in(
    alloc: Global,
    attrs: &mut Vec<(Text, Text)>,
    name: &str,
    value: Option<String>,
) -> Result<(), AllocError>
    requires { NamesDiffer attrs.old.items }
    ensures ok { OnOk result (attrs.new.items ≡ attrs_with attrs.old.items name.now (option_map string_bytes value)) }
    ensures err { OnErr result (attrs.new.items ≡ attrs.old.items) }
{
    match value {
        Some(value) => put_value(alloc, attrs, name, Text::from_string(value)),
        None => {
            cut(attrs, name);
            Ok(())
        }
    }
}

// The value goes where the name stands, or last with the name.
fn put_value(
    alloc: Global,
    attrs: &mut Vec<(Text, Text)>,
    name: &str,
    value: Text,
) -> Result<(), AllocError>
    requires { NamesDiffer attrs.old.items }
    ensures ok { OnOk result (attrs.new.items ≡ attrs_with attrs.old.items name.now (Some value)) }
    ensures err { OnErr result (attrs.new.items ≡ attrs.old.items) }
{
    let found = place_of_name(attrs, name);
    match found {
        Some(place) => {
            attrs[place].1 = value;
            Ok(())
        }
        None => {
            let name = text_of(alloc, name)?;
            attrs.push((name, value))?;
            Ok(())
        }
    }
}

fn cut(attrs: &mut Vec<(Text, Text)>, name: &str)
    ensures { attrs.new.items ≡ filter (λ attr. not (is_named name.now attr)) attrs.old.items }
{
    attrs.retain(|attr| attr.0.as_str() != name);
}

fn place_of_name(attrs: &[(Text, Text)], name: &str) -> Option<usize>
    ensures { result ≡ position (is_named name.now) attrs.now }
{
    attrs.iter().position(|attr| attr.0.as_str() == name)
}

fn text_of(alloc: Global, text: &str) -> Result<Text, AllocError>
    ensures { IfOk result (λ owned. owned ≡ text.now) }
{
    Ok(Text::from_string(String::from_str(alloc, text)?))
}
