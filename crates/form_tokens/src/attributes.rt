// The attributes of a tag.
ghost use Rattle.std.specs.Prelude.{◌≡◌, ◌<◌, IfOk, OnOk, IsUtf8};
ghost use Rattle.std.specs.List.{list_any};
ghost use Rattle.form_tree.specs.Tree.{is_named};
ghost use Rattle.form_tokens.specs.Readers.{Gives};
ghost use Rattle.form_tokens.specs.Kept.{added, kept_at, no_attributes};
ghost use Rattle.form_tokens.specs.Attributes.{attribute_at, quoted_at, value_at, value_if_there};

use crate::class::Class;
use crate::cursor::{after_byte, begins, begins_attribute, behind_space, run_of, split_run};
use crate::fault::Stop;
use crate::writing::decode;
use crate::{MOST_ATTRIBUTES, MOST_VALUE};
use form_text::{Sequence, Text};
use std::alloc::{AllocError, Global};

/// The attributes of a tag so far: of each name the first, as long as the tag is within its limits,
/// and how many were written.
#[derive(Drop)]
pub struct Attributes {
    pub kept: Sequence<(Text, Text)>,
    pub count: usize,
    pub oversized: bool,
}

fn has_name(kept: &[(Text, Text)], name: &Text) -> bool
    ensures { result ≡ list_any (is_named name.now) kept.now }
{
    kept.iter().any(|attr| attr.0.as_str() == name.as_str())
}

impl Attributes {
    pub fn new(alloc: Global) -> Attributes
        ensures { result ≡ no_attributes }
    {
        Attributes {
            kept: Sequence::new(alloc),
            count: 0,
            oversized: false,
        }
    }

    // Takes one more attribute.
    fn add(&mut self, attr: (Text, Text)) -> Result<(), AllocError>
        ensures { OnOk result (self.new ≡ added self.old attr) }
    {
        if self.oversized {
            return Ok(());
        }
        if self.count >= MOST_ATTRIBUTES || attr.1.as_str().len() > MOST_VALUE {
            self.oversized = true;
            return Ok(());
        }
        self.count += 1;
        if has_name(self.kept.as_slice(), &attr.0) {
            return Ok(());
        }
        self.kept.push(attr)
    }
}

// A value behind its first quote.
#[tactic(auto, unfolding(crate::specs::Attributes::quoted_at))]
fn quoted(text: &str, quote: u8) -> Result<(&str, &str), Stop>
    requires { quote < 128 }
    ensures { Gives (λ x. (x.0.now, x.1.now)) result (quoted_at quote text.now) }
{
    let (value, rest) = split_run(Class::Quoted(quote), text);
    let rest = after_byte(rest, quote)?;
    Ok((value, rest))
}

#[tactic(auto, unfolding(crate::specs::Attributes::value_at))]
fn value_of(text: &str) -> Result<(&str, &str), Stop>
    ensures { Gives (λ x. (x.0.now, x.1.now)) result (value_at text.now) }
{
    if begins(text, b'"') {
        let rest = after_byte(text, b'"')?;
        return quoted(rest, b'"');
    }
    if begins(text, b'\'') {
        let rest = after_byte(text, b'\'')?;
        return quoted(rest, b'\'');
    }
    run_of(Class::Unquoted, text)
}

#[tactic(auto, unfolding(crate::specs::Attributes::value_if_there))]
fn value_if_there(text: &str) -> Result<(&str, &str), Stop>
    ensures { Gives (λ x. (x.0.now, x.1.now)) result (value_if_there text.now) }
{
    let equals = behind_space(text);
    if begins(equals, b'=') {
        let rest = after_byte(equals, b'=')?;
        return value_of(behind_space(rest));
    }
    Ok(("", text))
}

#[tactic(auto, unfolding(crate::specs::Attributes::attribute_at))]
fn attribute_of(alloc: Global, text: &str) -> Result<((Text, Text), &str), Stop>
    ensures value { Gives (λ x. (x.0, x.1.now)) result (attribute_at text.now) }
    ensures utf8 { IfOk result (λ x. IsUtf8 x.1.now) }
{
    let (name, rest) = run_of(Class::AttributeName, behind_space(text))?;
    let (value, rest) = value_if_there(rest)?;
    let value = decode(alloc, value)?;
    let name = name.to_ascii_lowercase(alloc)?;
    Ok(((Text::from_string(name), value), rest))
}

/// The attributes at the front, and what stands behind them.
pub fn attributes_of(alloc: Global, text: &str) -> Result<(Attributes, &str), Stop>
    ensures { Gives (λ x. (x.0, x.1.now)) result (kept_at text.now) }
{
    let mut attributes = Attributes::new(alloc);
    let mut rest = text;
    'attributes: while begins_attribute(rest) {
        match attribute_of(alloc, rest) {
            Ok((attr, after)) => {
                attributes.add(attr)?;
                rest = after;
            }
            Err(stop) => {
                return Err(stop);
            }
        }
    }
    Ok((attributes, rest))
}
