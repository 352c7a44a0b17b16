// What is kept beside the tree, the files and the compiled patterns of a page.
ghost use Rattle.std.specs.Prelude.{◌≡◌, ◌+◌, ◌≤◌, length, map, IfOk};
ghost use Rattle.std.specs.List.{count_by};
ghost use Rattle.form_tree.specs.Elements.{is_submittable};
ghost use Rattle.form_judge.specs.Controls.{pattern_of};
ghost use Rattle.form_groups.specs.Holders.{AreHolders};
ghost use Rattle.form_owner.specs.Owned.{AreOwned};
ghost use Rattle.form_owner.specs.Owners.{owners_of};
ghost use Rattle.form_page.specs.Members.{AreGroupsAmong};
ghost use Rattle.form_page.specs.Page.{names_of};
ghost use Rattle.form_judge.specs.Patterns.{patterns_by};
ghost use Rattle.form_page.specs.Views.{sight_if};

use crate::facts::all_facts;
use crate::file::File;
use crate::groups::groups_of;
use crate::sight::{Sight, all_sights};
use crate::verdicts::all_verdicts;
use form_groups::{Groups, Holders};
use form_judge::Steps;
use form_owner::{Owned, Owners};
use form_pattern::Pattern;
use form_tree::Tree;
use std::alloc::{AllocError, Global};
use std::sync::ledger::Ledger;

/// The owners and what each form owns, the radio button groups, the elements that have each file, and
/// by place what is seen of each element, with the verdict on each control.
#[derive(Drop)]
pub struct Kept {
    pub owners: Owners,
    pub owned: Owned,
    pub groups: Groups,
    pub holders: Holders,
    pub sights: Vec<Option<Sight>>,
}

/// All that is kept of a tree and files, made anew with one judgement of each control. An element's
/// pattern is the one that was compiled anew, where there is one, and else the kept one.
pub fn kept_of<L: Ledger>(
    alloc: Global,
    tree: &Tree,
    files: &[File],
    patterns: &mut [Option<Pattern>],
    fresh: &mut [Option<Option<Pattern>>],
    steps: &mut Steps<L>,
) -> Result<Kept, AllocError>
    requires kept { length patterns.old ≡ length tree.now.nodes }
    requires fresh { length fresh.old ≡ length tree.now.nodes }
    requires patterns { patterns_by patterns.old fresh.old ≡ map pattern_of tree.now.nodes }
    ensures owners { IfOk result (λ kept. kept.owners ≡ owners_of tree.now.nodes) }
    ensures owned { IfOk result (λ kept. AreOwned kept.owned (owners_of tree.now.nodes)) }
    ensures holders { IfOk result (λ kept. AreHolders kept.holders tree.now.nodes) }
    ensures groups { IfOk result (λ kept. AreGroupsAmong tree.now.nodes kept.groups tree.now.nodes) }
    ensures sights { IfOk result (λ kept.
        kept.sights.items ≡ map (sight_if (names_of files.now) tree.now.nodes) tree.now.nodes) }
    ensures kept { patterns.new ≡ patterns.old }
    ensures fresh { fresh.new ≡ fresh.old }
    ensures bound { steps.new ≤ steps.old + count_by is_submittable tree.now.nodes }
{
    let owners = Owners::build(alloc, tree)?;
    let owned = Owned::build(alloc, owners.answers())?;
    let groups = groups_of(alloc, tree, owners.answers())?;
    let holders = Holders::build(alloc, tree)?;
    let facts = all_facts(alloc, tree, owners.answers(), &groups)?;
    let verdicts = all_verdicts(alloc, tree, &facts, patterns, fresh, steps)?;
    let sights = all_sights(alloc, tree, files, owners.answers(), &verdicts)?;
    Ok(Kept {
        owners,
        owned,
        groups,
        holders,
        sights,
    })
}
