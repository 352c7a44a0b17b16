ghost use Rattle.std.specs.Prelude.{◌≡◌, ◌+◌, ◌<◌, ◌^◌, ℕ, List, Option, length, take, IfOk, OnErr, OnOk};
ghost use Rattle.form_tree.specs.Attributes.{with_attr};
ghost use Rattle.form_tree.specs.Disabling.{is_disabled};
ghost use Rattle.form_tree.specs.Ownership.{owner_of};
ghost use Rattle.form_tree.specs.Tree.{IsTree, Nodes};
ghost use Rattle.form_owner.specs.Owners.{answer_of, is_kept_disabled, kept_owner, owners_of};
ghost use Rattle.std.specs.Option.{option_copied};

use crate::answer::{Answer, answer_at};
use form_tree::{Key, Tree};
use std::alloc::{AllocError, Global};
use std::marker::Model;

/// The form owner of each element of a page, and whether it is a disabled control. Contracts see
/// the answers in tree order; they stand for a page where they are `owners_of` its nodes.
#[derive(Debug, Drop)]
pub struct Owners {
    alloc: Global,
    answers: Vec<Answer>,
}

impl Model for Owners {
    ghost use Rattle.std.specs.Prelude.{List};
    ghost use Rattle.form_owner.specs.declared.answer.Answer.{Answer};

    ghost Value = { List Answer };

    ghost view = { λ o. o.answers.items };
}

impl Owners {
    /// The owners of a page.
    pub fn build(alloc: Global, tree: &Tree) -> Result<Owners, AllocError>
        ensures { IfOk result (λ owners. owners ≡ owners_of tree.now.nodes) }
    {
        let count = tree.len();
        let mut answers = Vec::with_capacity(alloc, count)?;
        for place in 0..count {
            push_answer(alloc, tree, &mut answers, place)?;
        }
        Ok(Owners { alloc, answers })
    }

    /// The form owner of a listed element; None for every other element, and for a key that is not
    /// there (HTML, "Association of controls and forms").
    pub fn owner(&self, key: Key) -> Option<Key>
        ensures value { result ≡ kept_owner self.now key }
        ensures rule { (nodes : Nodes) → self.now ≡ owners_of nodes → result ≡ owner_of nodes key }
    {
        match self.answer(key) {
            Some(answer) => answer.owner,
            None => None,
        }
    }

    /// Whether it is a disabled button, input, select or textarea; false for every other key (HTML,
    /// "Enabling and disabling form controls: the disabled attribute").
    pub fn disabled(&self, key: Key) -> bool
        ensures value { result ≡ is_kept_disabled self.now key }
        ensures rule { (nodes : Nodes) → self.now ≡ owners_of nodes → result ≡ is_disabled nodes key }
    {
        match self.answer(key) {
            Some(answer) => answer.disabled,
            None => false,
        }
    }

    /// Makes the owners those of a page that differs from the one for which they stand in that
    /// attribute of that element alone. Without memory they stay as they were.
    pub fn after_attr(&mut self, tree: &Tree, key: Key, name: &str) -> Result<(), AllocError>
        requires { (before : Nodes) × (value : Option (List ℕ)) × (self.old ≡ owners_of before)
            × (tree.now.nodes ≡ with_attr before key name.now value) }
        ensures ok { OnOk result (self.new ≡ owners_of tree.now.nodes) }
        ensures err { OnErr result (self.new ≡ self.old) }
    {
        let next = Owners::build(self.alloc, tree)?;
        *self = next;
        Ok(())
    }

    /// Owners that are equal to these.
    pub fn copy(&self) -> Result<Owners, AllocError>
        ensures { IfOk result (λ copy. copy ≡ self.now) }
    {
        Ok(Owners {
            alloc: self.alloc,
            answers: self.answers.clone()?,
        })
    }

    /// What is kept of each element, in tree order.
    pub fn answers(&self) -> &[Answer]
        ensures { result.now ≡ self.now }
    {
        self.answers.as_slice()
    }

    pub(crate) fn allocator(&self) -> Global {
        self.alloc
    }

    // What is kept of a key.
    fn answer(&self, key: Key) -> Option<&Answer>
        ensures { option_copied result ≡ answer_of self.now key }
    {
        find_answer(self.answers.as_slice(), key)
    }
}

fn find_answer(answers: &[Answer], key: Key) -> Option<&Answer>
    ensures { option_copied result ≡ answer_of answers.now key }
{
    for answer in answers {
        if key.0 == answer.key.0 {
            return Some(answer);
        }
    }
    None
}

// One more answer, for the element at a place.
fn push_answer(
    alloc: Global,
    tree: &Tree,
    answers: &mut Vec<Answer>,
    place: usize,
) -> Result<(), AllocError>
    requires tree { IsTree tree.now.nodes }
    requires few { length tree.now.nodes < 2 ^ 64 }
    requires there { place < length tree.now.nodes }
    requires known { answers.old.items ≡ take place (owners_of tree.now.nodes) }
    ensures { OnOk result (answers.new.items ≡ take (place + 1) (owners_of tree.now.nodes)) }
{
    if let Some(key) = tree.key_at(place) {
        let answer = answer_at(alloc, tree, answers, key)?;
        answers.push(answer)?;
    }
    Ok(())
}
