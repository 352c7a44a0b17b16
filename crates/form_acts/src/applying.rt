// What an act makes of a page.
ghost use Rattle.std.specs.Prelude.{◌≡◌, ◌+◌, ◌++◌, ◌≤◌, IfErr, IfOk, OnErr, OnOk, Some, Err};
ghost use Rattle.std.specs.List.{count_by};
ghost use Rattle.form_tree.specs.Elements.{is_submittable};
ghost use Rattle.form_page.specs.Editing.{AreThere, edited};
ghost use Rattle.form_page.specs.Views.{changes};
ghost use Rattle.form_changes.specs.declared.act.ActFault.{ActFault};
ghost use Rattle.form_acts.specs.Acts.{after_act, gone_of, nodes_after_act, outcome};
ghost use Rattle.form_drafts.specs.Drafts.{draft_of};
ghost use Rattle.form_acts.specs.Refusals.{IsCause, refusal_of};
ghost use Rattle.form_acts.specs.Soundness.{IsSound};

use crate::attributes::attr;
use crate::marking::{check, pick, set_selectedness};
use crate::refusals::refusal;
use crate::single::{choose, custom, retell, set, user, withdraw};
use form_changes::{Act, ActFault};
use form_drafts::{Draft, reset};
use form_judge::Steps;
use form_page::{Edit, Page};
use form_tree::Key;
use std::alloc::{AllocError, Global};
use std::sync::ledger::Ledger;

/// Does an act to a page, with all that follows from it, and answers the keys of the elements whose
/// views then differ from those before, in tree order. Each control is judged once, on the counter
/// that is handed in. A refused act changes nothing; its cause is the first that holds, in the order
/// of [`ActFault`]. Without memory the page stays as it was too. A sound page stays sound.
#[tactic(auto, using(crate::proofs::ApplyLaws::sound_after))]
pub fn apply<L: Ledger>(
    alloc: Global,
    page: &mut Page,
    act: &Act,
    steps: &mut Steps<L>,
) -> Result<Vec<Key>, ActFault>
    ensures done { OnOk result (page.new ≡ outcome page.old act.now) }
    ensures keys { IfOk result (λ keys. keys.items ≡ changes page.old (outcome page.old act.now)) }
    ensures refused { (fault : ActFault) → refusal_of page.old act.now ≡ Some fault → result ≡ Err fault }
    ensures cause { IfErr result (IsCause page.old act.now) }
    ensures err { OnErr result (page.new ≡ page.old) }
    ensures sound { IsSound page.old → IsSound page.new }
    ensures bound { steps.new ≤ steps.old + count_by is_submittable page.old.tree.nodes }
{
    try_act(alloc, page, act, steps)
}

fn try_act<L: Ledger>(
    alloc: Global,
    page: &mut Page,
    act: &Act,
    steps: &mut Steps<L>,
) -> Result<Vec<Key>, ActFault>
    ensures done { OnOk result (page.new ≡ outcome page.old act.now) }
    ensures keys { IfOk result (λ keys. keys.items ≡ changes page.old (outcome page.old act.now)) }
    ensures refused { (fault : ActFault) → refusal_of page.old act.now ≡ Some fault → result ≡ Err fault }
    ensures cause { IfErr result (IsCause page.old act.now) }
    ensures err { OnErr result (page.new ≡ page.old) }
    ensures bound { steps.new ≤ steps.old + count_by is_submittable page.old.tree.nodes }
{
    if let Some(fault) = refusal(page, act) {
        return Err(fault);
    }
    let Ok(edits) = edits_of(alloc, page, act) else {
        return Err(ActFault::Memory);
    };
    match page.edit(edits, steps) {
        Ok(keys) => Ok(keys),
        Err(_) => Err(ActFault::Memory),
    }
}

// The raw changes that an act comes to, with all that follows from it.
fn edits_of(alloc: Global, page: &Page, act: &Act) -> Result<Vec<Edit>, AllocError>
    ensures made { IfOk result (λ edits. edited page.now edits.items ≡ after_act page.now act.now) }
    ensures there { IfOk result (λ edits. AreThere page.now.tree.nodes edits.items) }
{
    let draft = draft_of(alloc, page, act)?;
    let all = with_gone(draft.into_edits(), act)?;
    Ok(all)
}

// A file that is withdrawn is gone, when every element is without it.
fn with_gone(edits: Vec<Edit>, act: &Act) -> Result<Vec<Edit>, AllocError>
    ensures { IfOk result (λ all. all.items ≡ edits.items ++ gone_of act.now) }
{
    let mut all = edits;
    match act {
        Act::Withdraw { file } => {
            all.push(Edit::Gone { file: *file })?;
            Ok(all)
        }
        _ => Ok(all),
    }
}

// The elements after an act.
fn draft_of<'a>(alloc: Global, page: &'a Page, act: &Act) -> Result<Draft<'a>, AllocError>
    ensures { IfOk result (λ draft. draft ≡ draft_of page.now (nodes_after_act page.now.tree.nodes act.now)) }
{
    match act {
        Act::User { key, text } => user(alloc, page, *key, text.as_str()),
        Act::Set { key, text } => set(alloc, page, *key, text.as_str()),
        Act::Attr { key, name, value } => attr(alloc, page, *key, name, value),
        Act::Text { key, text } => retell(alloc, page, *key, text),
        Act::Check { key, on } => check(alloc, page, *key, *on),
        Act::SetChecked { key, on } => check(alloc, page, *key, *on),
        Act::Pick { key } => pick(alloc, page, *key),
        Act::SetSelected { key, on } => set_selectedness(alloc, page, *key, *on),
        Act::Custom { key, text } => custom(alloc, page, *key, text),
        Act::Choose { key, files } => choose(alloc, page, *key, files),
        Act::Withdraw { file } => withdraw(alloc, page, *file),
        Act::Reset { key } => reset(alloc, page, *key),
    }
}
