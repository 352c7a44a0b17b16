// All radio button groups of a page.
ghost use Rattle.std.specs.Prelude.{◌≡◌, [], OnErr, OnOk, false, filter, not, position, true};
ghost use Rattle.std.specs.Option.{option_copied};
ghost use Rattle.form_tree.specs.Elements.{is_among};
ghost use Rattle.form_groups.specs.Groups.{ChangesGroup, IsGroup, chosen_of, entered, group_of, has_no_member, is_missing, is_named, keys_of, marked, members_or_none, without};

use crate::group::{Group, Member};
use form_tree::Key;
use std::alloc::{AllocError, Global};
use std::marker::Model;

/// The radio button groups of a page (HTML, "Radio Button state"). A group is named by its form
/// owner, or none, and by a name, which is not empty; the number of an owner's key is 1 or more.
#[derive(Debug, Drop)]
pub struct Groups {
    alloc: Global,
    groups: Vec<Group>,
}

impl Model for Groups {
    ghost use Rattle.form_groups.specs.Groups.{AreApart, Entries, all_entries};

    ghost Value = { Entries };

    ghost view = { λ g. all_entries g.groups.items };

    ghost invariant = { λ g. AreApart g.groups.items };
}

impl Groups {
    /// No groups. What is entered later takes its memory from `alloc`.
    pub fn new(alloc: Global) -> Groups
        ensures { result ≡ [] }
    {
        Groups {
            alloc,
            groups: Vec::new(alloc),
        }
    }

    /// Puts a member, with its marks, last in a group of which it is no member. Without memory for
    /// it all groups stay as they were.
    pub fn enter(
        &mut self,
        owner: Option<Key>,
        name: &str,
        key: Key,
        required: bool,
        checked: bool,
    ) -> Result<(), AllocError>
        requires group { IsGroup owner name.now }
        requires new { is_among (keys_of (group_of self.old owner name.now)) key ≡ false }
        ensures ok { OnOk result (ChangesGroup self.old self.new owner name.now
            (entered (record { key = key; required = required; checked = checked }))) }
        ensures err { OnErr result (self.new ≡ self.old) }
    {
        let member = Member {
            key,
            required,
            checked,
        };
        match place_of(&self.groups, owner, name) {
            Some(place) => {
                let group = &mut self.groups[place];
                group.enter(member)
            }
            None => {
                let group = Group::of_one(self.alloc, owner, name, member)?;
                self.groups.push(group)?;
                Ok(())
            }
        }
    }

    /// Takes a member out of a group.
    pub fn leave(&mut self, owner: Option<Key>, name: &str, key: Key)
        requires group { IsGroup owner name.now }
        requires member { is_among (keys_of (group_of self.old owner name.now)) key ≡ true }
        ensures { ChangesGroup self.old self.new owner name.now (without key) }
    {
        if let Some(place) = place_of(&self.groups, owner, name) {
            let group = &mut self.groups[place];
            group.leave(key);
            drop_empty(&mut self.groups);
        }
    }

    /// Gives a member of a group other marks.
    pub fn mark(&mut self, owner: Option<Key>, name: &str, key: Key, required: bool, checked: bool)
        requires group { IsGroup owner name.now }
        requires member { is_among (keys_of (group_of self.old owner name.now)) key ≡ true }
        ensures { ChangesGroup self.old self.new owner name.now (marked key required checked) }
    {
        if let Some(place) = place_of(&self.groups, owner, name) {
            let group = &mut self.groups[place];
            group.mark(key, required, checked);
        }
    }

    /// Whether the group lacks a required choice: some member is required, and none is checked.
    pub fn missing(&self, owner: Option<Key>, name: &str) -> bool
        requires { IsGroup owner name.now }
        ensures { result ≡ is_missing (group_of self.now owner name.now) }
    {
        match self.group(owner, name) {
            Some(group) => group.is_missing(),
            None => false,
        }
    }

    /// The first checked member, in order of entering; None exactly where none is checked.
    pub fn chosen(&self, owner: Option<Key>, name: &str) -> Option<Key>
        requires { IsGroup owner name.now }
        ensures { result ≡ chosen_of (group_of self.now owner name.now) }
    {
        match self.group(owner, name) {
            Some(group) => group.chosen(),
            None => None,
        }
    }

    /// The members, in order of entering; none in a group that nobody entered or that all left.
    pub fn members(&self, owner: Option<Key>, name: &str) -> &[Key]
        requires { IsGroup owner name.now }
        ensures { result.now ≡ keys_of (group_of self.now owner name.now) }
    {
        match self.group(owner, name) {
            Some(group) => group.keys(),
            None => &[],
        }
    }

    // The group of an owner and a name.
    fn group(&self, owner: Option<Key>, name: &str) -> Option<&Group>
        ensures { group_of self.now owner name.now ≡ members_or_none (option_copied result) }
    {
        match place_of(&self.groups, owner, name) {
            Some(place) => self.groups.get(place),
            None => None,
        }
    }
}

// The place of the group of an owner and a name.
fn place_of(groups: &[Group], owner: Option<Key>, name: &str) -> Option<usize>
    ensures { result ≡ position (is_named owner name.now) groups.now }
{
    groups.iter().position(|group| group.is_named(owner, name))
}

// Drops the groups that all members left.
fn drop_empty(groups: &mut Vec<Group>)
    ensures { groups.new.items ≡ filter (λ g. not (has_no_member g)) groups.old.items }
{
    groups.retain(|group| !group.is_empty());
}
