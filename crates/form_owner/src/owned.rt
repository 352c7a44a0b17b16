// What each form owns.
ghost use Rattle.std.specs.Prelude.{◌≡◌, IfOk};
ghost use Rattle.form_owner.specs.Owned.{AreOwned, owned_keys};

use crate::answer::Answer;
use form_tree::Key;
use std::alloc::{AllocError, Global};
use std::collections::BTreeMap;

/// The elements that each form owns, by the number of the form's key. They stand for a page where they
/// are those of its answers.
#[derive(Drop)]
pub struct Owned {
    lists: BTreeMap<u32, Vec<Key>>,
}

impl Owned {
    /// The elements that each form owns by these answers.
    pub fn build(alloc: Global, answers: &[Answer]) -> Result<Owned, AllocError>
        ensures { IfOk result (λ owned. AreOwned owned answers.now) }
    {
        let mut lists = BTreeMap::new(alloc);
        for answer in answers {
            if let Some(form) = answer.owner {
                lists
                    .entry(form.0)?
                    .or_insert(Vec::new(alloc))
                    .push(answer.key)?;
            }
        }
        Ok(Owned { lists })
    }

    /// The elements that a form owns, in tree order; none for every other key.
    pub fn keys(&self, form: Key) -> &[Key]
        ensures { result.now ≡ owned_keys self.now form }
    {
        match self.lists.get(&form.0) {
            Some(keys) => keys.as_slice(),
            None => &[],
        }
    }
}
