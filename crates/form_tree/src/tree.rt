ghost use Rattle.std.specs.Prelude.{◌≡◌, ◌+◌, ◌<◌, ◌^◌, length, map, IfOk, IfSome, IsSome, OnErr, OnOk, Some, string_bytes, vec_len};
ghost use Rattle.std.specs.Option.{option_copied, option_map};
ghost use Rattle.form_tree.specs.Tree.{IsTree, IsTreeOfRaws, NamesDiffer, first_key, at_key, attr_in, attr_of, attrs_of, key_at, node_of_raw, nodes_of_raws, tree_of_raws, parent_of, place_of, state_of, tag_of, text_of, with_state};
ghost use Rattle.form_tree.specs.Attributes.{with_attr, with_attrs, with_text};
ghost use Rattle.form_tree.specs.Index.{indexed, first_place};
ghost use Rattle.form_tree.specs.declared.node.Key.{Key};

use crate::attributes::{put_attr, value_in};
use crate::node::{Key, Node, Raw, State, Tag};
use form_text::{Sequence, Text};
use std::alloc::{AllocError, Global};
use std::marker::Model;
use std::mem;

/// The elements of a page, in tree order.
#[derive(Debug, Drop)]
pub struct Tree {
    alloc: Global,
    nodes: Vec<Node>,
    // The place of each key, by its number.
    places: Vec<Option<usize>>,
    // The greatest key number that was ever given.
    used: u32,
}

impl Model for Tree {
    ghost use Rattle.form_tree.specs.Tree.{AreGiven, IsTree, Tree, shape_of};
    ghost use Rattle.form_tree.specs.Index.{IsIndexOf};

    ghost Value = { Tree };

    ghost view = { λ t. record { nodes = t.nodes.items; used = t.used } };

    ghost invariant = { λ t. IsTree t.nodes.items
        × IsIndexOf t.places.items (shape_of t.nodes.items)
        × AreGiven t.used (shape_of t.nodes.items) };
}

impl Tree {
    /// The tree of a page as it was read: the elements have the keys 1, 2 and so on, in the order
    /// of the list, and empty states. Their texts are moved and not copied.
    pub fn from_raw(alloc: Global, raws: Vec<Raw>) -> Result<Tree, AllocError>
        requires few { vec_len raws < 2 ^ 32 }
        requires tree { IsTreeOfRaws raws.items }
        ensures { IfOk result (λ tree. tree ≡ tree_of_raws raws.items) }
    {
        let count = raws.len();
        let places = first_index(alloc, count)?;
        let nodes = nodes_of(alloc, raws)?;
        Ok(Tree {
            alloc,
            nodes,
            places,
            used: count as u32,
        })
    }

    /// How many elements the tree has.
    pub fn len(&self) -> usize
        ensures value { result ≡ length self.now.nodes }
        ensures tree { IsTree self.now.nodes }
    {
        self.nodes.len()
    }

    /// The elements themselves, in tree order.
    pub fn nodes(&self) -> &[Node]
        ensures value { result.now ≡ self.now.nodes }
        ensures tree { IsTree self.now.nodes }
    {
        self.nodes.as_slice()
    }

    /// The key of the element at a place, counted from 0 in tree order; None where there is none.
    pub fn key_at(&self, place: usize) -> Option<Key>
        ensures { result ≡ key_at self.now.nodes place }
    {
        match self.nodes.get(place) {
            Some(node) => Some(node.key),
            None => None,
        }
    }

    /// The place of an element in tree order, from 0; None where the tree has no such key.
    pub fn place(&self, key: Key) -> Option<usize>
        ensures value { result ≡ place_of self.now.nodes key }
        ensures tree { IsTree self.now.nodes }
    {
        match self.places.get(key.0 as usize) {
            Some(place) => *place,
            None => None,
        }
    }

    /// The element itself, on which the readers below stand; None where the tree has no such key.
    pub fn node(&self, key: Key) -> Option<&Node>
        ensures { option_copied result ≡ at_key self.now.nodes key }
    {
        match self.place(key) {
            Some(place) => self.nodes.get(place),
            None => None,
        }
    }

    /// What the element is; None where the tree has no such key.
    pub fn tag(&self, key: Key) -> Option<Tag>
        ensures { result ≡ tag_of self.now.nodes key }
    {
        match self.node(key) {
            Some(node) => Some(node.tag),
            None => None,
        }
    }

    /// The key of the element's parent; None for an element at the top, and where the tree has no
    /// such key.
    pub fn parent(&self, key: Key) -> Option<Key>
        ensures { result ≡ parent_of self.now.nodes key }
    {
        self.node(key)?.parent
    }

    /// The value of an attribute of the element; None where it has no attribute of that name, and
    /// where the tree has no such key.
    pub fn attr(&self, key: Key, name: &str) -> Option<&str>
        ensures { option_copied result ≡ attr_of self.now.nodes key name.now }
    {
        match self.attrs(key) {
            Some(attrs) => value_in(attrs, name),
            None => None,
        }
    }

    /// How many attributes the element has; None where the tree has no such key.
    pub fn attr_count(&self, key: Key) -> Option<usize>
        ensures { result ≡ option_map length (attrs_of self.now.nodes key) }
    {
        match self.attrs(key) {
            Some(attrs) => Some(attrs.len()),
            None => None,
        }
    }

    /// The attributes of the element, each with its name and its value, in their order; None where
    /// the tree has no such key.
    pub fn attrs(&self, key: Key) -> Option<&[(Text, Text)]>
        ensures { option_copied result ≡ attrs_of self.now.nodes key }
    {
        match self.node(key) {
            Some(node) => Some(node.attrs.as_slice()),
            None => None,
        }
    }

    /// The text that stands directly in the element; None where the tree has no such key.
    pub fn text(&self, key: Key) -> Option<&str>
        ensures { option_copied result ≡ text_of self.now.nodes key }
    {
        match self.node(key) {
            Some(node) => Some(node.text.as_str()),
            None => None,
        }
    }

    /// What the element keeps beside its attributes; None where the tree has no such key.
    pub fn state(&self, key: Key) -> Option<&State>
        ensures { option_copied result ≡ state_of self.now.nodes key }
    {
        match self.node(key) {
            Some(node) => Some(&node.state),
            None => None,
        }
    }

    /// Puts a state in place of that of an element that is there; the old one is dropped.
    pub fn set_state(&mut self, key: Key, state: State)
        requires { IsSome (place_of self.old.nodes key) }
        ensures { self.new ≡ record self.old { nodes = with_state self.old.nodes key state } }
    {
        let place = self.place_in(key);
        let node = &mut self.nodes[place];
        node.state = state;
    }

    /// Puts a text in place of that of an element that is there; the old one is dropped.
    pub fn set_text(&mut self, key: Key, text: String)
        requires { IsSome (place_of self.old.nodes key) }
        ensures { self.new ≡ record self.old { nodes = with_text self.old.nodes key (string_bytes text) } }
    {
        let place = self.place_in(key);
        let node = &mut self.nodes[place];
        node.text = Text::from_string(text);
    }

    /// Puts a list of attributes, whose names differ, in place of that of an element that is there,
    /// and gives the old one back.
    pub fn swap_attrs(&mut self, key: Key, attrs: Sequence<(Text, Text)>) -> Sequence<(Text, Text)>
        requires there { IsSome (place_of self.old.nodes key) }
        requires names { NamesDiffer attrs }
        ensures new { self.new ≡ record self.old { nodes = with_attrs self.old.nodes key attrs } }
        ensures old { attrs_of self.old.nodes key ≡ Some result }
    {
        let place = self.place_in(key);
        let node = &mut self.nodes[place];
        mem::replace(&mut node.attrs, attrs)
    }

    /// Sets an attribute of an element that is there, or takes it away where there is no value. An
    /// attribute that the element has keeps its place, a new one goes last. Without memory the tree
    /// stays as it was.
    pub fn set_attr(
        &mut self,
        key: Key,
        name: &str,
        value: Option<String>,
    ) -> Result<(), AllocError>
        requires { IsSome (place_of self.old.nodes key) }
        ensures ok { OnOk result (self.new ≡ record self.old {
          nodes = with_attr self.old.nodes key name.now (option_map string_bytes value);
        }) }
        ensures err { OnErr result (self.new ≡ self.old) }
    {
        let place = self.place_in(key);
        let node = &mut self.nodes[place];
        put_attr(self.alloc, &mut node.attrs, name, value)?;
        Ok(())
    }

    /// A tree that is equal to this one, with the same keys.
    pub fn copy(&self) -> Result<Tree, AllocError>
        ensures { IfOk result (λ copy. copy ≡ self.now) }
    {
        Ok(Tree {
            alloc: self.alloc,
            nodes: copy_of_nodes(&self.nodes)?,
            places: copy_of_places(&self.places)?,
            used: self.used,
        })
    }

    // The place of a key that is there.
    fn place_in(&self, key: Key) -> usize
        requires { IsSome (place_of self.now.nodes key) }
        ensures { place_of self.now.nodes key ≡ Some result }
    {
        self.place(key).unwrap()
    }
}

fn copy_of_nodes(nodes: &Vec<Node>) -> Result<Vec<Node>, AllocError>
    ensures { IfOk result (λ copy. copy.items ≡ nodes.now.items) }
{
    nodes.clone()
}

fn copy_of_places(places: &Vec<Option<usize>>) -> Result<Vec<Option<usize>>, AllocError>
    ensures { IfOk result (λ copy. copy.items ≡ places.now.items) }
{
    places.clone()
}

// The nodes of the raws.
fn nodes_of(alloc: Global, raws: Vec<Raw>) -> Result<Vec<Node>, AllocError>
    requires few { vec_len raws < 2 ^ 32 }
    requires tree { IsTreeOfRaws raws.items }
    ensures { IfOk result (λ nodes. nodes.items ≡ nodes_of_raws raws.items) }
{
    let mut nodes = Vec::with_capacity(alloc, raws.len())?;
    for raw in raws {
        let place = nodes.len();
        nodes.push(new_node(alloc, place, raw))?;
    }
    Ok(nodes)
}

fn new_node(alloc: Global, place: usize, raw: Raw) -> Node
    requires few { place + 1 < 2 ^ 32 }
    requires parent { IfSome raw.parent (λ parent. parent < place) }
    ensures { result ≡ node_of_raw place raw }
{
    let Raw {
        parent,
        tag,
        attrs,
        text,
    } = raw;
    Node {
        key: first_key(place),
        parent: parent.map(|parent| first_key(parent)),
        tag,
        attrs,
        text,
        state: State::empty(alloc),
    }
}

// The key of the element at a place of a page that was just read.
fn first_key(place: usize) -> Key
    requires { place + 1 < 2 ^ 32 }
    ensures { result ≡ first_key place }
{
    Key(place as u32 + 1)
}

// The index of a tree whose keys are 1, 2 and so on.
fn first_index(alloc: Global, count: usize) -> Result<Vec<Option<usize>>, AllocError>
    requires { count < 2 ^ 32 }
    ensures { IfOk result (λ index. (k : Key) → indexed index.items k ≡ first_place count k) }
{
    let mut index = Vec::with_capacity(alloc, count + 1)?;
    index.push(None)?;
    for place in 0..count {
        index.push(Some(place))?;
    }
    Ok(index)
}
