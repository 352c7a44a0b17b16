// What the reader has read, and which fault the next piece has.
ghost use Rattle.std.specs.Prelude.{◌≡◌, [], ◌∷◌, ◌||◌, ◌&&◌, ℕ, List, reverse, length, IfErr, IfOk, IsUtf8, OnOk, Some, None, MatchOption, not};
ghost use Rattle.std.specs.List.{list_any};
ghost use Rattle.std.specs.Option.{option_copied, option_map};
ghost use Rattle.form_tree.specs.Tree.{attr_in};
ghost use Rattle.form_tree.specs.declared.node.Tag.{Tag};
ghost use Rattle.form_types.specs.TypeTable.{names_email};
ghost use Rattle.form_markup.specs.Contents.{Piece};
ghost use Rattle.form_markup.specs.Faults.{element_fault, end_fault, fault_of, is_child_of, is_email, is_in_itself, is_inside, is_misplaced, is_odd_in_optgroup, is_odd_in_select, is_over_limit, is_stray_optgroup, is_stray_option, is_tag};
ghost use Rattle.form_markup.specs.Names.{tag_named};
ghost use Rattle.form_markup.specs.Pieces.{is_in_textarea};
ghost use Rattle.form_markup.specs.Goes.{Suits};
ghost use Rattle.form_markup.specs.Narrow.{is_narrow, is_odd_in_narrow};
ghost use Rattle.form_markup.specs.Machine.{after, closed, levels_of, more_text, outers_in, parent_of, piece_of, round_of, state, state_of, tagged_of, with_raw};
ghost use Rattle.form_tokens.specs.Characters.{HaltsIn, IsReadTo, joined};

use crate::names::{is_refused, is_textarea, tag_named};
use crate::piece::{Found, Head};
use crate::raws::Raws;
use crate::stack::{Stack, is_narrow};
use crate::{MOST_DEPTH, MOST_ELEMENTS};
use form_text::{Sequence, Text, eq_ascii_case};
use form_tokens::{Context, Fault, Halt};
use form_tree::{Raw, Tag};
use std::alloc::{AllocError, Global};

/// An element that is still open: its place, what it is, whether it or an open element round it restricts
/// what stands inside, its name as it is written, and its text so far.
#[derive(Drop)]
pub struct Open<'a> {
    pub place: usize,
    pub tag: Tag,
    pub narrow: bool,
    pub name: &'a str,
    pub text: String,
}

/// What was read so far: the elements that are open, and all elements, of which the open ones have
/// no text yet.
#[derive(Drop)]
pub struct Machine<'a> {
    pub stack: Stack<'a>,
    pub raws: Raws,
}

// The value of the attribute of a name.
fn value_in<'a>(attrs: &'a [(Text, Text)], name: &str) -> Option<&'a str>
    ensures { option_copied result ≡ attr_in attrs.now name.now }
{
    for (known, value) in attrs {
        if known.as_str() == name {
            return Some(value.as_str());
        }
    }
    None
}

fn names_email(keyword: Option<&str>) -> bool
    ensures { result ≡ names_email (option_map (λ k. k.now) keyword.entry) }
{
    match keyword {
        Some(keyword) => eq_ascii_case(keyword, "email"),
        None => false,
    }
}

fn is_email(tag: Tag, attrs: &Sequence<(Text, Text)>) -> bool
    ensures { result ≡ is_email tag attrs.now }
{
    if tag != Tag::Input {
        return false;
    }
    names_email(value_in(attrs.as_slice(), "type"))
}

fn has_tag(stack: &[Open<'_>], wanted: Tag) -> bool
    ensures { result ≡ list_any (λ o. is_tag wanted o.tag) stack.now }
{
    stack.iter().any(|o| o.tag == wanted)
}

fn is_narrow_listed(tags: &[Tag]) -> bool
    ensures { result ≡ list_any is_narrow tags.now }
{
    tags.iter().any(|tag| is_narrow(*tag))
}

fn is_listed(tags: &[Tag], wanted: Tag) -> bool
    ensures { result ≡ list_any (is_tag wanted) tags.now }
{
    tags.iter().any(|tag| *tag == wanted)
}

fn last_of(tags: &[Tag]) -> Option<&Tag>
    ensures { MatchOption result (reverse tags.now ≡ [])
        (λ tag. (rest : List Tag) × (reverse tags.now ≡ tag.now ∷ rest)) }
{
    tags.last()
}

// Whether the tag is one of these.
fn is_one_of(tags: &[Tag], tag: Tag) -> bool
    ensures { result ≡ list_any (λ wanted. is_tag wanted tag) tags.now }
{
    tags.iter().any(|wanted| *wanted == tag)
}

impl<'a> Machine<'a> {
    /// Nothing is read yet. For so many elements there will be room at once.
    pub fn new(alloc: Global, room: usize) -> Machine<'a>
        ensures { state_of result ≡ state [] [] }
    {
        Machine {
            stack: Stack::new(alloc),
            raws: Raws::new(alloc, room),
        }
    }

    // Whether the innermost open element is a textarea.
    fn is_in_textarea(&self) -> bool
        ensures { result ≡ is_in_textarea (outers_in self.now) }
    {
        match self.stack.top() {
            Some(open) => is_textarea(open.name),
            None => false,
        }
    }

    /// What the next characters are: those of a textarea, or contents.
    pub fn context(&self) -> Context
        ensures { Suits result (state_of self.now) }
    {
        if self.is_in_textarea() {
            Context::Textarea
        } else {
            Context::Content
        }
    }

    // Whether an element of the tag is open, in the text or round it.
    fn is_inside(&self, around: &[Tag], wanted: Tag) -> bool
        ensures { result ≡ is_inside wanted (round_of around.now self.now) }
    {
        has_tag(self.stack.as_slice(), wanted) || is_listed(around, wanted)
    }

    // Whether an element is open, in the text or round it, inside which elements are restricted. Most have
    // none, so that this is all that is asked of the open elements.
    fn is_inside_narrow(&self, around: &[Tag]) -> bool
        ensures { result ≡ list_any is_narrow (round_of around.now self.now) }
    {
        self.stack.has_narrow() || is_narrow_listed(around)
    }

    // Whether the parent of the next element has one of the tags.
    fn is_child_of(&self, around: &[Tag], parents: &[Tag]) -> bool
        ensures { result ≡ is_child_of parents.now (round_of around.now self.now) }
    {
        if let Some(open) = self.stack.top() {
            return is_one_of(parents, open.tag);
        }
        match last_of(around) {
            Some(parent) => is_one_of(parents, *parent),
            None => false,
        }
    }

    fn is_in_itself(&self, around: &[Tag], tag: Tag) -> bool
        ensures { result ≡ is_in_itself tag (round_of around.now self.now) }
    {
        if tag == Tag::Form {
            return self.is_inside(around, Tag::Form);
        }
        if tag == Tag::Button {
            return self.is_inside(around, Tag::Button);
        }
        false
    }

    fn is_odd_in_select(&self, around: &[Tag], tag: Tag, name: &str) -> bool
        ensures { result ≡ is_odd_in_select tag name.now (round_of around.now self.now) }
    {
        if !self.is_inside(around, Tag::Select) {
            return false;
        }
        !(tag == Tag::Choice || tag == Tag::Optgroup || eq_ascii_case(name, "hr"))
    }

    fn is_odd_in_optgroup(&self, around: &[Tag], tag: Tag) -> bool
        ensures { result ≡ is_odd_in_optgroup tag (round_of around.now self.now) }
    {
        self.is_inside(around, Tag::Optgroup) && tag != Tag::Choice
    }

    fn is_stray_option(&self, around: &[Tag], tag: Tag) -> bool
        ensures { result ≡ is_stray_option tag (round_of around.now self.now) }
    {
        tag == Tag::Choice
            && !self.is_child_of(around, &[Tag::Select, Tag::Optgroup, Tag::Datalist])
    }

    fn is_stray_optgroup(&self, around: &[Tag], tag: Tag) -> bool
        ensures { result ≡ is_stray_optgroup tag (round_of around.now self.now) }
    {
        tag == Tag::Optgroup && !self.is_child_of(around, &[Tag::Select])
    }

    #[tactic(auto, using(crate::proofs::Narrow::none_odd))]
    fn is_odd_in_narrow(&self, around: &[Tag], tag: Tag, name: &str) -> bool
        ensures { result ≡ is_odd_in_narrow tag name.now (round_of around.now self.now) }
    {
        if !self.is_inside_narrow(around) {
            return false;
        }
        if self.is_odd_in_select(around, tag, name) {
            return true;
        }
        if self.is_odd_in_optgroup(around, tag) {
            return true;
        }
        self.is_inside(around, Tag::Choice)
    }

    // Whether an element of the tag and name may not stand here.
    #[tactic(auto, using(crate::proofs::Narrow::misplaced_is))]
    fn is_misplaced(&self, around: &[Tag], tag: Tag, name: &str) -> bool
        ensures { result ≡ is_misplaced tag name.now (round_of around.now self.now) }
    {
        if self.is_in_itself(around, tag) {
            return true;
        }
        if self.is_odd_in_narrow(around, tag, name) {
            return true;
        }
        if self.is_stray_option(around, tag) {
            return true;
        }
        self.is_stray_optgroup(around, tag)
    }

    #[tactic(auto, using(crate::proofs::Stacks::length_outers))]
    fn is_over_limit(&self, around: &[Tag]) -> bool
        ensures { result ≡ is_over_limit around.now (outers_in self.now) (length self.now.raws) }
    {
        if self.raws.len() >= MOST_ELEMENTS {
            return true;
        }
        let depth = self.stack.len();
        depth >= MOST_DEPTH || around.len() >= MOST_DEPTH - depth
    }

    #[tactic(auto, unfolding(crate::specs::Faults::element_fault))]
    fn element_fault(&self, around: &[Tag], head: &Head<'_>) -> Option<Fault>
        ensures { result
            ≡ element_fault around.now (outers_in self.now) (length self.now.raws) (tagged_of head.now) }
    {
        if self.is_over_limit(around) {
            return Some(Fault::Limit);
        }
        if is_refused(head.name) {
            return Some(Fault::Element);
        }
        let tag = tag_named(head.name);
        if is_email(tag, &head.attrs) {
            return Some(Fault::Email);
        }
        if self.is_misplaced(around, tag, head.name) {
            return Some(Fault::Nesting);
        }
        None
    }

    fn end_fault(&self, name: &str) -> Option<Fault>
        ensures { result ≡ end_fault (outers_in self.now) name.now }
    {
        let Some(open) = self.stack.top() else {
            return Some(Fault::Nesting);
        };
        if eq_ascii_case(open.name, name) {
            None
        } else {
            Some(Fault::Nesting)
        }
    }

    /// The fault of a piece that comes next.
    pub fn fault_of(&self, around: &[Tag], piece: &Found<'_>) -> Option<Fault>
        ensures { result
            ≡ fault_of around.now (outers_in self.now) (length self.now.raws) (piece_of piece.now) }
    {
        match piece {
            Found::Start(head) => self.element_fault(around, head),
            Found::Void(head) => self.element_fault(around, head),
            Found::Oversized => Some(Fault::Limit),
            Found::End(name) => self.end_fault(name),
            Found::Ignored => None,
        }
    }

    fn parent(&self) -> Option<usize>
        ensures { result ≡ parent_of (levels_of self.now.stack) }
    {
        match self.stack.top() {
            Some(open) => Some(open.place),
            None => None,
        }
    }

    fn add_raw(&mut self, alloc: Global, head: Head<'a>) -> Result<(), AllocError>
        ensures { OnOk result ((self.new.stack ≡ self.old.stack)
            × (self.new.raws ≡ with_raw (levels_of self.old.stack) self.old.raws (tagged_of head.entry))) }
    {
        let parent = self.parent();
        let Head { name, attrs } = head;
        self.raws.push(Raw {
            parent,
            tag: tag_named(name),
            attrs,
            text: Text::from_string(String::new(alloc)),
        })?;
        Ok(())
    }

    fn start(&mut self, alloc: Global, head: Head<'a>) -> Result<(), AllocError>
        ensures { OnOk result
            (state_of self.new ≡ after (state_of self.old) (Piece.Start (tagged_of head.entry))) }
    {
        let place = self.raws.len();
        let name = head.name;
        self.add_raw(alloc, head)?;
        self.stack.push(alloc, place, tag_named(name), name)?;
        Ok(())
    }

    fn end(&mut self)
        ensures { state_of self.new ≡ closed (levels_of self.old.stack) self.old.raws }
    {
        if let Some(open) = self.stack.pop() {
            self.raws.set_text(open.place, Text::from_string(open.text));
        }
    }

    /// Takes the characters at the front of a text, which belong to the innermost open element, and gives
    /// what stands behind them.
    pub fn add_text<'b>(
        &mut self,
        alloc: Global,
        context: Context,
        text: &'b str,
    ) -> Result<&'b str, Halt>
        ensures value { IfOk result (λ rest. (chunks : List (List ℕ))
            × IsReadTo context chunks text.now rest.now
            × (state_of self.new
            ≡ state (more_text (joined chunks) (levels_of self.old.stack)) self.old.raws)) }
        ensures utf8 { IfOk result (λ rest. IsUtf8 rest.now) }
        ensures halt { IfErr result (λ halt. HaltsIn context text.now halt) }
    {
        self.stack.write(alloc, context, text)
    }

    /// Takes a piece.
    pub fn take(&mut self, alloc: Global, piece: Found<'a>) -> Result<(), AllocError>
        ensures { OnOk result
            (state_of self.new ≡ after (state_of self.old) (piece_of piece.entry)) }
    {
        match piece {
            Found::Start(head) => self.start(alloc, head),
            Found::Void(head) => self.add_raw(alloc, head),
            Found::Oversized => Ok(()),
            Found::End(_) => {
                self.end();
                Ok(())
            }
            Found::Ignored => Ok(()),
        }
    }
}
