ghost use Rattle.std.specs.Prelude.{◌≡◌, [], ◌∷◌, ◌++◌, OnOk, length};
ghost use Rattle.form_markup.specs.Machine.{with_text};

use form_text::Text;
use form_tree::Raw;
use std::alloc::{AllocError, Global};
use std::marker::Model;

/// The elements so far, which contracts see as a list. The first one makes room for as many as are
/// expected.
#[derive(Drop)]
pub struct Raws {
    items: Vec<Raw>,
    room: usize,
}

impl Model for Raws {
    ghost use Rattle.std.specs.Prelude.{List};
    ghost use Rattle.form_tree.specs.declared.node.Raw.{Raw};

    ghost Value = { List Raw };

    ghost view = { λ r. r.items.items };
}

impl Raws {
    pub fn new(alloc: Global, room: usize) -> Raws
        ensures { result ≡ [] }
    {
        Raws {
            items: Vec::new(alloc),
            room,
        }
    }

    /// The elements as a `Vec`, which is moved and not copied.
    pub fn into_vec(self) -> Vec<Raw>
        ensures { result.items ≡ self }
    {
        let Raws { items, room: _ } = self;
        items
    }

    pub fn len(&self) -> usize
        ensures { result ≡ length self.now }
    {
        self.items.len()
    }

    pub fn push(&mut self, raw: Raw) -> Result<(), AllocError>
        ensures { OnOk result (self.new ≡ self.old ++ raw ∷ []) }
    {
        if self.items.is_empty() {
            self.items.reserve(self.room)?;
        }
        self.items.push(raw)?;
        Ok(())
    }

    /// Gives the element at the place its text.
    pub fn set_text(&mut self, place: usize, text: Text)
        ensures { self.new ≡ with_text place text self.old }
    {
        if place < self.items.len() {
            let raw = &mut self.items[place];
            raw.text = text;
        }
    }
}
