ghost use Rattle.std.specs.Prelude.{List, ℕ, ◌≡◌, [], ◌∷◌, IfErr, IfOk, IsUtf8, OnOk, MatchOption, reverse, length};
ghost use Rattle.std.specs.List.{list_any};
ghost use Rattle.form_tokens.specs.Characters.{HaltsIn, IsReadTo, joined};
ghost use Rattle.form_markup.specs.Machine.{levels_of, more_text, opened};
ghost use Rattle.form_markup.specs.Narrow.{is_narrow};
ghost use Rattle.form_markup.specs.declared.machine.Open.{Open};

use crate::machine::Open;
use form_tokens::{Context, Halt, write_text};
use form_tree::Tag;
use std::alloc::{AllocError, Global};
use std::marker::Model;

/// Whether the elements inside one of the tag are restricted, at any depth.
pub fn is_narrow(tag: Tag) -> bool
    ensures { result ≡ is_narrow tag }
{
    tag == Tag::Select || tag == Tag::Optgroup || tag == Tag::Choice
}

/// The open elements, the innermost first. Each of them is marked where it or one round it restricts what
/// stands inside, at any depth.
#[derive(Drop)]
pub struct Stack<'a> {
    items: Vec<Open<'a>>,
}

impl<'a> Model for Stack<'a> {
    ghost use Rattle.std.specs.Prelude.{List, reverse};
    ghost use Rattle.form_markup.specs.Narrow.{AreMarked};
    ghost use Rattle.form_markup.specs.declared.machine.Open.{Open};

    ghost Value = { List Open };

    ghost view = { λ s. reverse s.items.items };

    ghost invariant = { λ s. AreMarked (reverse s.items.items) };
}

impl<'a> Stack<'a> {
    pub fn new(alloc: Global) -> Stack<'a>
        ensures { result ≡ [] }
    {
        Stack {
            items: Vec::new(alloc),
        }
    }

    pub fn len(&self) -> usize
        ensures { result ≡ length self.now }
    {
        self.items.len()
    }

    /// The open elements, the outermost first.
    pub fn as_slice(&self) -> &[Open<'a>]
        ensures { result.now ≡ reverse self.now }
    {
        self.items.as_slice()
    }

    /// The innermost open element.
    pub fn top(&self) -> Option<&Open<'a>>
        ensures { MatchOption result (self.now ≡ [])
            (λ item. (rest : List Open) × (self.now ≡ item.now ∷ rest)) }
    {
        self.items.last()
    }

    /// Whether an element is open inside which others are restricted, at any depth.
    pub fn has_narrow(&self) -> bool
        ensures { result ≡ list_any (λ o. is_narrow o.tag) self.now }
    {
        match self.items.last() {
            Some(open) => open.narrow,
            None => false,
        }
    }

    /// One more element is open, at that place; it has no text yet.
    pub fn push(
        &mut self,
        alloc: Global,
        place: usize,
        tag: Tag,
        name: &'a str,
    ) -> Result<(), AllocError>
        ensures { OnOk result (levels_of self.new ≡ opened place tag name.now ∷ levels_of self.old) }
    {
        let narrow = is_narrow(tag) || self.has_narrow();
        self.items.push(Open {
            place,
            tag,
            narrow,
            name,
            text: String::new(alloc),
        })?;
        Ok(())
    }

    /// The innermost element is open no longer.
    pub fn pop(&mut self) -> Option<Open<'a>>
        ensures { MatchOption result ((self.old ≡ []) × (self.new ≡ []))
            (λ item. self.old ≡ item ∷ self.new) }
    {
        self.items.pop()
    }

    /// Writes the characters at the front of a text behind the text of the innermost open element, where
    /// one is open, and gives what stands behind them.
    pub fn write<'b>(
        &mut self,
        alloc: Global,
        context: Context,
        text: &'b str,
    ) -> Result<&'b str, Halt>
        ensures value { IfOk result (λ rest. (chunks : List (List ℕ))
            × IsReadTo context chunks text.now rest.now
            × (levels_of self.new ≡ more_text (joined chunks) (levels_of self.old))) }
        ensures utf8 { IfOk result (λ rest. IsUtf8 rest.now) }
        ensures halt { IfErr result (λ halt. HaltsIn context text.now halt) }
    {
        let count = self.items.len();
        if count == 0 {
            // What stands round all elements belongs to none.
            let mut out = String::new(alloc);
            return write_text(&mut out, context, text);
        }
        let open = &mut self.items[count - 1];
        write_text(&mut open.text, context, text)
    }
}
