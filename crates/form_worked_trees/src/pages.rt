// Pages as trees.
ghost use Rattle.std.specs.Prelude.{◌≡◌};
ghost use Rattle.form_tree.specs.Elements.{is_option, is_select, passes};

use form_markup::{MOST_ELEMENTS, read};
use form_tree::{Key, State, Tree};
use std::alloc::Global;

// The tree that a page is read into; none where it is refused.
pub fn tree_of(alloc: Global, page: &str) -> Option<Tree> {
    let Ok(raws) = read(alloc, page) else {
        return None;
    };
    if MOST_ELEMENTS < raws.len() {
        return None;
    }
    match Tree::from_raw(alloc, raws) {
        Ok(tree) => Some(tree),
        Err(_) => None,
    }
}

// The key of a number; of another text it is that of no element.
pub fn key_of(number: &str) -> Key {
    match number.parse::<u32>() {
        Ok(number) => Key(number),
        Err(_) => Key(0),
    }
}

// The number of a key, and 0 where there is none.
pub fn number(key: Option<Key>) -> u32 {
    match key {
        Some(key) => key.0,
        None => 0,
    }
}

// Makes an option that is there selected.
pub fn mark(tree: &mut Tree, alloc: Global, option: Key) {
    if tree.place(option).is_some() {
        let mut state = State::empty(alloc);
        state.selected = true;
        tree.set_state(option, state);
    }
}

pub fn is_option(tree: &Tree, key: Key) -> bool
    ensures { result ≡ passes is_option tree.now.nodes key }
{
    match tree.tag(key) {
        Some(tag) => tag.is_option(),
        None => false,
    }
}

pub fn is_select(tree: &Tree, key: Key) -> bool
    ensures { result ≡ passes is_select tree.now.nodes key }
{
    match tree.tag(key) {
        Some(tag) => tag.is_select(),
        None => false,
    }
}
