// One radio button group.
ghost use Rattle.std.specs.Prelude.{◌≡◌, [], ◌∷◌, IfOk, OnErr, OnOk, filter, not};
ghost use Rattle.std.specs.List.{list_any};
ghost use Rattle.form_tree.specs.Elements.{same_key, same_owner};
ghost use Rattle.form_groups.specs.Groups.{chosen_of, entered, has_no_member, is_missing, is_named, keys_of, marked, marked_if, without};

use form_text::Text;
use form_tree::Key;
use std::alloc::{AllocError, Global};
use std::marker::Model;

/// A member of a group, with its marks: whether it is required, and whether it is checked.
#[derive(Clone, Copy, Debug)]
pub struct Member {
    pub key: Key,
    pub required: bool,
    pub checked: bool,
}

/// A radio button group: its form owner, or none, its name, and its members in order of entering.
#[derive(Debug, Drop)]
pub struct Group {
    owner: Option<Key>,
    name: Text,
    // The keys of the members, to be lent as a slice.
    keys: Vec<Key>,
    members: Vec<Member>,
    // Whether some member is required, and whether some member is checked.
    required: bool,
    checked: bool,
}

impl Model for Group {
    ghost use Rattle.std.specs.Prelude.{◌≡◌};
    ghost use Rattle.std.specs.List.{list_any};
    ghost use Rattle.form_groups.specs.Groups.{Group, keys_of};

    ghost Value = { Group };

    ghost view = { λ g. record { owner = g.owner; name = g.name; members = g.members.items } };

    ghost invariant = { λ g. (g.keys.items ≡ keys_of g.members.items)
        × (g.required ≡ list_any (λ m. m.required) g.members.items)
        × (g.checked ≡ list_any (λ m. m.checked) g.members.items) };
}

impl Group {
    /// The group of one member.
    pub fn of_one(
        alloc: Global,
        owner: Option<Key>,
        name: &str,
        member: Member,
    ) -> Result<Group, AllocError>
        ensures { IfOk result (λ group.
            group ≡ record { owner = owner; name = name.now; members = member ∷ [] }) }
    {
        let name = Text::from_str(alloc, name)?;
        let mut keys = Vec::new(alloc);
        keys.push(member.key)?;
        let mut members = Vec::new(alloc);
        members.push(member)?;
        Ok(Group {
            owner,
            name,
            keys,
            members,
            required: member.required,
            checked: member.checked,
        })
    }

    /// Whether the group goes by that owner and that name.
    pub fn is_named(&self, owner: Option<Key>, name: &str) -> bool
        ensures { result ≡ is_named owner name.now self.now }
    {
        same_owner(owner, self.owner) && name == self.name.as_str()
    }

    /// Whether all members left.
    pub fn is_empty(&self) -> bool
        ensures { result ≡ has_no_member self.now }
    {
        self.members.is_empty()
    }

    /// The keys of the members.
    pub fn keys(&self) -> &[Key]
        ensures { result.now ≡ keys_of self.now.members }
    {
        self.keys.as_slice()
    }

    /// Whether a member is required and none is checked.
    pub fn is_missing(&self) -> bool
        ensures { result ≡ is_missing self.now.members }
    {
        self.required && !self.checked
    }

    /// The first checked member.
    pub fn chosen(&self) -> Option<Key>
        ensures { result ≡ chosen_of self.now.members }
    {
        for member in &self.members {
            if member.checked {
                return Some(member.key);
            }
        }
        None
    }

    /// Puts a member last. Without memory for it the group stays as it was.
    pub fn enter(&mut self, member: Member) -> Result<(), AllocError>
        ensures ok { OnOk result
            (self.new ≡ record self.old { members = entered member self.old.members }) }
        ensures err { OnErr result (self.new ≡ self.old) }
        ensures owner { self.new.owner ≡ self.old.owner }
        ensures name { self.new.name ≡ self.old.name }
    {
        self.keys.push(member.key)?;
        match self.members.push(member) {
            Ok(()) => {
                self.required = self.required || member.required;
                self.checked = self.checked || member.checked;
                Ok(())
            }
            Err(fault) => {
                self.keys.pop();
                Err(fault.into())
            }
        }
    }

    /// Takes the member of a key away.
    pub fn leave(&mut self, key: Key)
        ensures { self.new ≡ record self.old { members = without key self.old.members } }
    {
        take_key(&mut self.keys, key);
        take_member(&mut self.members, key);
        self.required = any_required(&self.members);
        self.checked = any_checked(&self.members);
    }

    /// Gives the member of a key other marks.
    pub fn mark(&mut self, key: Key, required: bool, checked: bool)
        ensures { self.new ≡ record self.old {
          members = marked key required checked self.old.members;
        } }
    {
        mark_member(&mut self.members, key, required, checked);
        self.required = any_required(&self.members);
        self.checked = any_checked(&self.members);
    }
}

// Whether both are none, or the same key.
fn same_owner(one: Option<Key>, other: Option<Key>) -> bool
    ensures { result ≡ same_owner one other }
{
    match (one, other) {
        (None, None) => true,
        (Some(one), Some(other)) => one.0 == other.0,
        _ => false,
    }
}

// Takes a key out of a list of keys.
fn take_key(keys: &mut Vec<Key>, key: Key)
    ensures { keys.new.items ≡ filter (λ k. not (same_key key k)) keys.old.items }
{
    keys.retain(|known| key.0 != known.0);
}

// Takes the member of a key out of a list of members.
fn take_member(members: &mut Vec<Member>, key: Key)
    ensures { members.new.items ≡ without key members.old.items }
{
    members.retain(|member| key.0 != member.key.0);
}

// Gives the member of a key other marks.
fn mark_member(members: &mut [Member], key: Key, required: bool, checked: bool)
    ensures { members.new ≡ marked key required checked members.old }
{
    for member in members.iter_mut() {
        *member = marked_if(*member, key, required, checked);
    }
}

// The member with other marks, if it has the key.
fn marked_if(member: Member, key: Key, required: bool, checked: bool) -> Member
    ensures { result ≡ marked_if key required checked member }
{
    if key.0 == member.key.0 {
        Member {
            key: member.key,
            required,
            checked,
        }
    } else {
        member
    }
}

// Whether some member is required.
fn any_required(members: &[Member]) -> bool
    ensures { result ≡ list_any (λ m. m.required) members.now }
{
    members.iter().any(|member| member.required)
}

// Whether some member is checked.
fn any_checked(members: &[Member]) -> bool
    ensures { result ≡ list_any (λ m. m.checked) members.now }
{
    members.iter().any(|member| member.checked)
}
