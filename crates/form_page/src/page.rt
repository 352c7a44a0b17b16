// A page with what is kept beside it.
ghost use Rattle.std.specs.Prelude.{◌≡◌, ◌+◌, ◌≤◌, ◌<◌, ◌^◌, length, map, vec_len, IfOk, IsSome, OnErr, OnOk, string_bytes};
ghost use Rattle.std.specs.List.{count_by, slice_get};
ghost use Rattle.std.specs.Option.{option_and_then, option_copied, option_map};
ghost use Rattle.form_tree.specs.Disabling.{is_disabled};
ghost use Rattle.form_tree.specs.Elements.{is_form, is_submittable, is_submittable_tag, passes};
ghost use Rattle.form_tree.specs.Ownership.{owner_of};
ghost use Rattle.form_tree.specs.RadioGroup.{radio_group};
ghost use Rattle.form_tree.specs.Tree.{IsTreeOfRaws, place_of};
ghost use Rattle.form_groups.specs.Groups.{IsGroup};
ghost use Rattle.form_groups.specs.Holders.{holders};
ghost use Rattle.form_owner.specs.Owners.{moves_of};
ghost use Rattle.form_page.specs.Editing.{AreThere, edited};
ghost use Rattle.form_page.specs.Invalid.{invalid_count, owned_by};
ghost use Rattle.form_page.specs.Members.{radios_of};
ghost use Rattle.form_page.specs.Opening.{opened};
ghost use Rattle.form_page.specs.Page.{name_of_file, new_file};
ghost use Rattle.form_page.specs.Views.{candidate_of, changes, flags_of_key, sight_at, value_of, view_of};
ghost use Rattle.form_page.specs.Lent.{seen_in};

use crate::changes::changed_keys;
use crate::edit::{Edit, make_edits};
use crate::file::File;
use crate::groups::members_of;
use crate::invalid::count_invalid;
use crate::kept::{Kept, kept_of};
use crate::opening::opened_tree;
use crate::owners::{is_disabled, owner_of};
use crate::sight::Sight;
use crate::view::{View, view_by};
use form_judge::{Flags, Steps, all_patterns, fresh_patterns, put_patterns};
use form_owner::Move;
use form_pattern::Pattern;
use form_text::Text;
use form_tree::{Key, Raw, Tree};
use std::alloc::{AllocError, Global};
use std::marker::Model;
use std::sync::ledger::Ledger;

/// A page of forms: its tree, and the files that were handed in. Contracts see these two. What is kept
/// beside them equals its definition over them.
#[derive(Drop)]
pub struct Page {
    alloc: Global,
    tree: Tree,
    files: Vec<File>,
    // By place.
    patterns: Vec<Option<Pattern>>,
    kept: Kept,
}

impl Model for Page {
    ghost use Rattle.std.specs.Prelude.{◌≡◌, ◌<◌, ◌^◌, length, map};
    ghost use Rattle.form_judge.specs.Controls.{pattern_of};
    ghost use Rattle.form_groups.specs.Holders.{AreHolders};
    ghost use Rattle.form_owner.specs.Owned.{AreOwned};
    ghost use Rattle.form_owner.specs.Owners.{owners_of};
    ghost use Rattle.form_page.specs.Members.{AreGroupsAmong};
    ghost use Rattle.form_page.specs.Page.{Page, names_of};
    ghost use Rattle.form_page.specs.Views.{sight_if};

    ghost Value = { Page };

    ghost view = { λ p. record { tree = p.tree; files = p.files.items } };

    ghost invariant = { λ p. (length p.tree.nodes < 2 ^ 32)
        × (p.kept.owners ≡ owners_of p.tree.nodes)
        × (p.patterns.items ≡ map pattern_of p.tree.nodes)
        × (p.kept.sights.items ≡ map (sight_if (names_of p.files.items) p.tree.nodes) p.tree.nodes)
        × AreGroupsAmong p.tree.nodes p.kept.groups p.tree.nodes
        × AreOwned p.kept.owned (owners_of p.tree.nodes)
        × AreHolders p.kept.holders p.tree.nodes };
}

impl Page {
    /// The page of these elements as it opens, with files of these names, which are all there; file
    /// number k is the k-th name. Each control is judged once, on the counter that is handed in.
    pub fn from_raws<L: Ledger>(
        alloc: Global,
        raws: Vec<Raw>,
        files: Vec<String>,
        steps: &mut Steps<L>,
    ) -> Result<Page, AllocError>
        requires few { vec_len raws < 2 ^ 32 }
        requires tree { IsTreeOfRaws raws.items }
        ensures ok { IfOk result (λ page. page ≡ opened raws.items (map string_bytes files.items)) }
        ensures bound { steps.new ≤ steps.old + count_by (λ raw. is_submittable_tag raw.tag) raws.items }
    {
        let tree = opened_tree(alloc, raws)?;
        let files = new_files(alloc, files)?;
        page_of(alloc, tree, files, steps)
    }

    /// The tree of the page.
    pub fn tree(&self) -> &Tree
        ensures { result.now ≡ self.now.tree }
    {
        &self.tree
    }

    /// The flags of a submittable element, barred or not; None for every other key.
    pub fn flags(&self, key: Key) -> Option<Flags>
        ensures { result ≡ flags_of_key self.now key }
    {
        let verdict = self.sight(key)?.verdict.as_ref()?;
        Some(verdict.flags())
    }

    /// Whether a submittable element is a candidate for constraint validation; None for every other
    /// key.
    pub fn candidate(&self, key: Key) -> Option<bool>
        ensures { result ≡ candidate_of self.now key }
    {
        let sight = self.sight(key)?;
        sight.verdict.as_ref()?;
        Some(sight.candidate)
    }

    /// The value of a submittable element or an option; None for every other key.
    pub fn value(&self, key: Key) -> Option<&str>
        ensures { option_copied result ≡ value_of self.now key }
    {
        let sight = self.sight(key)?;
        Some(sight.value.as_str())
    }

    /// What is seen of a submittable element or an option; None for every other key.
    pub fn view(&self, key: Key) -> Option<View<'_>>
        ensures { option_map seen_in result ≡ view_of self.now key }
    {
        let sight = self.sight(key)?;
        Some(view_by(sight))
    }

    /// The form owner of a listed element; None for every other key.
    pub fn owner(&self, key: Key) -> Option<Key>
        ensures { result ≡ owner_of self.now.tree.nodes key }
    {
        owner_of(&self.tree, self.kept.owners.answers(), key)
    }

    /// Whether it is a disabled control; false for every other key.
    pub fn disabled(&self, key: Key) -> bool
        ensures { result ≡ is_disabled self.now.tree.nodes key }
    {
        is_disabled(&self.tree, self.kept.owners.answers(), key)
    }

    /// The members of the radio button group of a radio button, itself included, in tree order; none
    /// for every other key (HTML, "Radio Button state").
    pub fn members(&self, key: Key) -> &[Key]
        ensures { result.now ≡ map (λ n. n.key) (radio_group self.now.tree.nodes key) }
    {
        let answers = self.kept.owners.answers();
        match self.tree.node(key) {
            Some(node) => members_of(&self.tree, answers, &self.kept.groups, node),
            None => &[],
        }
    }

    /// The radio buttons of a form owner, or of none, and a name, in tree order. The number of an owner's
    /// key is 1 or more, and the name is not empty.
    pub fn radios(&self, owner: Option<Key>, name: &str) -> &[Key]
        requires { IsGroup owner name.now }
        ensures { result.now ≡ radios_of self.now.tree.nodes owner name.now }
    {
        self.kept.groups.members(owner, name)
    }

    /// The elements that a form owns, in tree order; none for every other key (HTML, "Association of
    /// controls and forms").
    pub fn owned(&self, form: Key) -> &[Key]
        ensures { result.now ≡ owned_by self.now.tree.nodes form }
    {
        self.kept.owned.keys(form)
    }

    /// The elements that have a file among their selected files, in tree order, each as often as it has
    /// it (HTML, "File Upload state").
    pub fn holders(&self, file: u32) -> &[Key]
        ensures { result.now ≡ holders self.now.tree.nodes file }
    {
        self.kept.holders.keys(file)
    }

    /// How many invalid controls a form has: submittable elements that it owns, that are candidates
    /// for constraint validation, and that have some flag; None for another element.
    pub fn invalid_count(&self, form: Key) -> Option<u32>
        ensures { result ≡ invalid_count self.now.tree.nodes form }
    {
        if !is_form_at(&self.tree, form) {
            return None;
        }
        Some(count_invalid(
            &self.tree,
            &self.files,
            self.kept.owners.answers(),
            &self.kept.sights,
            form,
        ))
    }

    /// The name of the file of a number, counted from 1; None where it is not there.
    pub fn file_name(&self, number: u32) -> Option<&str>
        ensures { option_copied result ≡ name_of_file self.now.files number }
    {
        name_of_file(&self.files, number)
    }

    /// The listed elements whose owner would change if that attribute of that element were set, or
    /// taken away where there is no value, in tree order. Nothing is changed.
    pub fn moves(&self, key: Key, name: &str, value: Option<&str>) -> Result<Vec<Move>, AllocError>
        requires { IsSome (place_of self.now.tree.nodes key) }
        ensures { IfOk result (λ moves.
            moves.items ≡ moves_of self.now.tree.nodes key name.now (option_map (λ v. v.now) value.entry)) }
    {
        self.kept.owners.moves(&self.tree, key, name, value)
    }

    /// Makes raw changes in their order, and answers the keys of the elements whose views then differ
    /// from those before, in tree order. Each control is judged once, on the counter that is handed
    /// in, and a pattern is compiled where the text of its attribute changed. Without memory the page
    /// stays as it was.
    pub fn edit<L: Ledger>(
        &mut self,
        edits: Vec<Edit>,
        steps: &mut Steps<L>,
    ) -> Result<Vec<Key>, AllocError>
        requires { AreThere self.old.tree.nodes edits.items }
        ensures ok { OnOk result (self.new ≡ edited self.old edits.items) }
        ensures keys { IfOk result (λ keys. keys.items ≡ changes self.old (edited self.old edits.items)) }
        ensures err { OnErr result (self.new ≡ self.old) }
        ensures bound { steps.new ≤ steps.old + count_by is_submittable self.old.tree.nodes }
    {
        self.tree.len();
        let mut tree = self.tree.copy()?;
        let mut files = copy_of(&self.files)?;
        make_edits(&mut tree, &mut files, edits)?;
        let mut fresh = fresh_patterns(self.alloc, self.tree.nodes(), tree.nodes())?;
        let kept = kept_of(
            self.alloc,
            &tree,
            &files,
            &mut self.patterns,
            &mut fresh,
            steps,
        )?;
        let keys = changed_keys(self.alloc, tree.nodes(), &self.kept.sights, &kept.sights)?;
        put_patterns(&mut self.patterns, fresh);
        self.tree = tree;
        self.files = files;
        self.kept = kept;
        Ok(keys)
    }

    // The one reader of what is kept by place.
    fn sight(&self, key: Key) -> Option<&Sight>
        ensures { option_copied result ≡ sight_at self.now key }
    {
        match self.tree.place(key) {
            Some(place) => sight_in(&self.kept.sights, place),
            None => None,
        }
    }
}

fn is_form_at(tree: &Tree, key: Key) -> bool
    ensures { result ≡ passes is_form tree.now.nodes key }
{
    match tree.tag(key) {
        Some(tag) => tag.is_form(),
        None => false,
    }
}

fn copy_of(files: &Vec<File>) -> Result<Vec<File>, AllocError>
    ensures { IfOk result (λ copy. copy.items ≡ files.now.items) }
{
    files.clone()
}

fn sight_in(sights: &[Option<Sight>], place: usize) -> Option<&Sight>
    ensures { option_copied result ≡ option_and_then (λ sight. sight) (slice_get sights.now place) }
{
    sights.get(place)?.as_ref()
}

fn name_of_file(files: &[File], number: u32) -> Option<&str>
    ensures { option_copied result ≡ name_of_file files.now number }
{
    if number == 0 {
        return None;
    }
    let file = files.get(number as usize - 1)?;
    if file.there {
        Some(file.name.as_str())
    } else {
        None
    }
}

// The files of these names, which are all there.
fn new_files(alloc: Global, names: Vec<String>) -> Result<Vec<File>, AllocError>
    ensures { IfOk result (λ files. files.items ≡ map new_file (map string_bytes names.items)) }
{
    let mut files = Vec::with_capacity(alloc, names.len())?;
    for name in names {
        files.push(File {
            name: Text::from_string(name),
            there: true,
        })?;
    }
    Ok(files)
}

// The page of a tree and files, with all that is kept beside them made anew.
fn page_of<L: Ledger>(
    alloc: Global,
    tree: Tree,
    files: Vec<File>,
    steps: &mut Steps<L>,
) -> Result<Page, AllocError>
    requires { length tree.nodes < 2 ^ 32 }
    ensures ok { IfOk result (λ page. page ≡ record { tree = tree; files = files.items }) }
    ensures bound { steps.new ≤ steps.old + count_by is_submittable tree.nodes }
{
    let mut patterns = all_patterns(alloc, tree.nodes())?;
    // Nothing has changed yet.
    let mut fresh = fresh_patterns(alloc, tree.nodes(), tree.nodes())?;
    let kept = kept_of(alloc, &tree, &files, &mut patterns, &mut fresh, steps)?;
    Ok(Page {
        alloc,
        tree,
        files,
        patterns,
        kept,
    })
}
