// The judgements of the controls of a page.
ghost use Rattle.std.specs.Prelude.{◌≡◌, ◌+◌, ◌≤◌, length, map, unwrap_or, IfOk, Some, if◌then◌else◌};
ghost use Rattle.std.specs.List.{count_by};
ghost use Rattle.form_tree.specs.Elements.{is_submittable};
ghost use Rattle.form_tree.specs.Tree.{at_key};
ghost use Rattle.form_judge.specs.Controls.{pattern_of};
ghost use Rattle.form_judge.specs.Flags.{facts_of};
ghost use Rattle.form_page.specs.Members.{facts_at};
ghost use Rattle.form_judge.specs.Patterns.{patterns_by};
ghost use Rattle.form_page.specs.Views.{verdict_of};

use form_judge::{Facts, Steps, Verdict, judge};
use form_pattern::Pattern;
use form_tree::{Node, Tree};
use std::alloc::{AllocError, Global};
use std::sync::ledger::Ledger;

/// The verdict on each submittable element, in tree order: one judgement each. The pattern of an
/// element is the one that was compiled anew, where there is one, and else the kept one.
pub fn all_verdicts<L: Ledger>(
    alloc: Global,
    tree: &Tree,
    facts: &[Facts],
    patterns: &mut [Option<Pattern>],
    fresh: &mut [Option<Option<Pattern>>],
    steps: &mut Steps<L>,
) -> Result<Vec<Option<Verdict>>, AllocError>
    requires facts { facts.now ≡ map (facts_at tree.now.nodes) tree.now.nodes }
    requires kept { length patterns.old ≡ length tree.now.nodes }
    requires fresh { length fresh.old ≡ length tree.now.nodes }
    requires patterns { patterns_by patterns.old fresh.old ≡ map pattern_of tree.now.nodes }
    ensures ok { IfOk result (λ verdicts. verdicts.items ≡ map (verdict_of tree.now.nodes) tree.now.nodes) }
    ensures kept { patterns.new ≡ patterns.old }
    ensures fresh { fresh.new ≡ fresh.old }
    ensures bound { steps.new ≤ steps.old + count_by is_submittable tree.now.nodes }
{
    let nodes = tree.nodes();
    let mut verdicts = Vec::with_capacity(alloc, nodes.len())?;
    for place in 0..nodes.len() {
        let verdict = verdict_by(
            alloc,
            tree,
            &nodes[place],
            &facts[place],
            &mut patterns[place],
            &mut fresh[place],
            steps,
        )?;
        verdicts.push(verdict)?;
    }
    Ok(verdicts)
}

fn verdict_by<L: Ledger>(
    alloc: Global,
    tree: &Tree,
    node: &Node,
    facts: &Facts,
    pattern: &mut Option<Pattern>,
    fresh: &mut Option<Option<Pattern>>,
    steps: &mut Steps<L>,
) -> Result<Option<Verdict>, AllocError>
    requires there { at_key tree.now.nodes node.now.key ≡ Some node.now }
    requires facts { facts.now ≡ facts_of tree.now.nodes node.now.key }
    requires pattern { unwrap_or fresh.old pattern.old ≡ pattern_of node.now }
    ensures ok { IfOk result (λ verdict. verdict ≡ verdict_of tree.now.nodes node.now) }
    ensures kept { pattern.new ≡ pattern.old }
    ensures fresh { fresh.new ≡ fresh.old }
    ensures bound { steps.new ≡ steps.old + (if is_submittable node.now then 1 else 0) }
{
    match fresh {
        Some(pattern) => verdict_of(alloc, tree, node, facts, pattern, steps),
        None => verdict_of(alloc, tree, node, facts, pattern, steps),
    }
}

fn verdict_of<L: Ledger>(
    alloc: Global,
    tree: &Tree,
    node: &Node,
    facts: &Facts,
    pattern: &mut Option<Pattern>,
    steps: &mut Steps<L>,
) -> Result<Option<Verdict>, AllocError>
    requires there { at_key tree.now.nodes node.now.key ≡ Some node.now }
    requires facts { facts.now ≡ facts_of tree.now.nodes node.now.key }
    requires pattern { pattern.old ≡ pattern_of node.now }
    ensures ok { IfOk result (λ verdict. verdict ≡ verdict_of tree.now.nodes node.now) }
    ensures kept { pattern.new ≡ pattern.old }
    ensures bound { steps.new ≡ steps.old + (if is_submittable node.now then 1 else 0) }
{
    if !node.tag.is_submittable() {
        return Ok(None);
    }
    let verdict = judge(alloc, tree, node.key, facts, pattern, steps)?;
    Ok(Some(verdict))
}
