// The elements of a page so far, and the raw changes that make them of it.
ghost use Rattle.std.specs.Prelude.{◌≡◌, ◌-◌, ◌++◌, ◌∷◌, [], IfOk, OnErr, OnOk, take, vec_len};
ghost use Rattle.std.specs.Option.{option_copied};
ghost use Rattle.form_tree.specs.Attributes.{with_attr, with_text};
ghost use Rattle.form_tree.specs.Tree.{IsTree, at_key, attr_of, with_state};
ghost use Rattle.form_page.specs.Editing.{AreThere, edited, nodes_after};
ghost use Rattle.form_drafts.specs.Drafts.{AreFramed, AreLikeBut, IsMadeBy, IsWith, draft_of, page_with};

use crate::changed::{with_attr, with_state, with_text};
use form_page::{Edit, Page};
use form_text::Text;
use form_tree::{Key, Node, State};
use std::alloc::{AllocError, Global};
use std::collections::BTreeMap;
use std::marker::Model;

/// A page that stays as it is, with its elements so far and the raw changes that make them. Contracts
/// see the page and the elements; behind them stand the elements that have changed alone.
#[derive(Drop)]
pub struct Draft<'a> {
    alloc: Global,
    page: &'a Page,
    // By the number of their key.
    changed: BTreeMap<u32, Node>,
    edits: Vec<Edit>,
}

impl<'a> Model for Draft<'a> {
    ghost use Rattle.form_drafts.specs.Drafts.{AreChanges, Draft, draft_of, nodes_so_far};

    ghost Value = { Draft };

    ghost view = { λ d. draft_of d.page.now (nodes_so_far d.page.now.tree.nodes d.changed) };

    ghost invariant = { λ d. AreChanges d.page.now d.changed d.edits.items };
}

impl<'a> Draft<'a> {
    /// The page before any change.
    pub fn new(alloc: Global, page: &'a Page) -> Result<Draft<'a>, AllocError>
        ensures draft { IfOk result (λ draft. draft ≡ draft_of page.now page.now.tree.nodes) }
        ensures tree { IfOk result (λ draft. IsTree page.now.tree.nodes) }
    {
        page.tree().len();
        Ok(Draft {
            alloc,
            page,
            changed: BTreeMap::new(alloc),
            edits: Vec::new(alloc),
        })
    }

    /// The page as it was, whose elements have the keys, the parents and the tags of those so far.
    pub fn page(&self) -> &'a Page
        ensures page { result.now ≡ self.now.page }
        ensures framed { AreFramed self.now.nodes self.now.page.tree.nodes }
        ensures tree { IsTree self.now.nodes }
    {
        self.page.tree().len();
        self.page
    }

    /// An element as it is so far; None where there is none of that key.
    pub fn node(&self, key: Key) -> Option<&Node>
        ensures node { option_copied result ≡ at_key self.now.nodes key }
        ensures tree { IsTree self.now.nodes }
    {
        self.page();
        let Some(node) = self.page.tree().node(key) else {
            return None;
        };
        match self.changed.get(&key.0) {
            Some(changed) => Some(changed),
            None => Some(node),
        }
    }

    /// The value of an attribute of an element as it is so far; None where it has no attribute of that
    /// name, and where there is no such element.
    pub fn attr(&self, key: Key, name: &str) -> Option<&str>
        ensures { option_copied result ≡ attr_of self.now.nodes key name.now }
    {
        match self.node(key) {
            Some(node) => node.attr(name),
            None => None,
        }
    }

    /// The keys of elements whose attributes have changed; every other element differs from that of the
    /// page in its text and its state alone.
    pub fn renamed(&self) -> Result<Vec<Key>, AllocError>
        ensures { IfOk result (λ keys. AreLikeBut self.now.nodes self.now.page.tree.nodes keys.items) }
    {
        let mut keys = Vec::new(self.alloc);
        for edit in self.edits.as_slice() {
            if let Edit::Attr {
                key,
                name: _,
                value: _,
            } = edit
            {
                keys.push(*key)?;
            }
        }
        Ok(keys)
    }

    /// Puts a state in place of that of an element; of none, where there is none of that key.
    pub fn put(&mut self, key: Key, state: State) -> Result<(), AllocError>
        ensures { OnOk result (self.new ≡ record self.old { nodes = with_state self.old.nodes key state }) }
    {
        let Some(node) = self.node(key) else {
            return Ok(());
        };
        let next = with_state(node, &state)?;
        self.change(next, Edit::Put { key, state })
    }

    /// Puts a text in place of the one that stands directly in an element.
    pub fn put_text(&mut self, key: Key, text: Text) -> Result<(), AllocError>
        ensures { OnOk result (self.new ≡ record self.old { nodes = with_text self.old.nodes key text }) }
    {
        let Some(node) = self.node(key) else {
            return Ok(());
        };
        let next = with_text(node, &text)?;
        self.change(next, Edit::Text { key, text })
    }

    /// The same with an attribute set, or taken away where there is no value.
    pub fn with_attr(
        self,
        key: Key,
        name: Text,
        value: Option<Text>,
    ) -> Result<Draft<'a>, AllocError>
        ensures { IfOk result (λ draft.
            draft ≡ record self.entry { nodes = with_attr self.entry.nodes key name value }) }
    {
        let mut draft = self;
        let Some(node) = draft.node(key) else {
            return Ok(draft);
        };
        let next = with_attr(draft.alloc, node, &name, &value)?;
        draft.change(next, Edit::Attr { key, name, value })?;
        Ok(draft)
    }

    /// The raw changes, in their order.
    pub fn into_edits(self) -> Vec<Edit>
        ensures made { edited self.entry.page result.items ≡ page_with self.entry.page self.entry.nodes }
        ensures there { AreThere self.entry.page.tree.nodes result.items }
    {
        let Draft {
            alloc: _,
            page: _,
            changed: _,
            edits,
        } = self;
        edits
    }

    // One raw change more, with what it makes of its element.
    fn change(&mut self, next: Node, edit: Edit) -> Result<(), AllocError>
        requires { IsMadeBy self.old.nodes next edit }
        ensures { OnOk result (self.new ≡ record self.old { nodes = nodes_after self.old.nodes edit }) }
    {
        push(&mut self.edits, edit)?;
        match enter(&mut self.changed, next) {
            Ok(()) => Ok(()),
            Err(fault) => {
                take_back(&mut self.edits);
                Err(fault)
            }
        }
    }
}

// One raw change more. Without memory they stay as they were.
fn push(edits: &mut Vec<Edit>, edit: Edit) -> Result<(), AllocError>
    ensures ok { OnOk result (edits.new.items ≡ edits.old.items ++ edit ∷ []) }
    ensures err { OnErr result (edits.new.items ≡ edits.old.items) }
{
    edits.push(edit)?;
    Ok(())
}

// One element more has changed.
fn enter(changed: &mut BTreeMap<u32, Node>, next: Node) -> Result<(), AllocError>
    ensures ok { OnOk result (IsWith changed.old next changed.new) }
    ensures err { OnErr result (changed.new.entries ≡ changed.old.entries) }
{
    changed.insert(next.key.0, next)?;
    Ok(())
}

// Without the last raw change.
fn take_back(edits: &mut Vec<Edit>)
    ensures { edits.new.items ≡ take (vec_len edits.old - 1) edits.old.items }
{
    edits.pop();
}
