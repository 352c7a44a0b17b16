// The compiled patterns of a page: each is compiled once for each text of its attribute.
ghost use Rattle.std.specs.Prelude.{◌≡◌, length, map, IfOk};
ghost use Rattle.std.specs.Option.{option_copied};
ghost use Rattle.form_judge.specs.Controls.{pattern_of};
ghost use Rattle.form_judge.specs.Patterns.{all_recompiled, patterns_by, recompiled, same_text, with_pattern_at};

use crate::judging::{compile_own, pattern_text};
use form_pattern::Pattern;
use form_tree::Node;
use std::alloc::{AllocError, Global};

/// The compiled pattern of each element, in tree order.
pub fn all_patterns(alloc: Global, nodes: &[Node]) -> Result<Vec<Option<Pattern>>, AllocError>
    ensures { IfOk result (λ patterns. patterns.items ≡ map pattern_of nodes.now) }
{
    let mut patterns = Vec::with_capacity(alloc, nodes.len())?;
    for node in nodes {
        patterns.push(compile_own(alloc, node)?)?;
    }
    Ok(patterns)
}

/// Of each element the pattern compiled anew, where the text of its attribute is another than before.
pub fn fresh_patterns(
    alloc: Global,
    before: &[Node],
    after: &[Node],
) -> Result<Vec<Option<Option<Pattern>>>, AllocError>
    requires { length before.now ≡ length after.now }
    ensures { IfOk result (λ fresh. fresh.items ≡ all_recompiled before.now after.now) }
{
    let mut fresh = Vec::with_capacity(alloc, after.len())?;
    for place in 0..after.len() {
        fresh.push(recompile(alloc, &before[place], &after[place])?)?;
    }
    Ok(fresh)
}

// The compiled pattern of an element after a change, where the text of its attribute is another than
// before or began or ceased to apply. None where the text stays, so that the pattern that was
// compiled for it stands.
fn recompile(
    alloc: Global,
    before: &Node,
    after: &Node,
) -> Result<Option<Option<Pattern>>, AllocError>
    ensures { IfOk result (λ pattern. pattern ≡ recompiled before.now after.now) }
{
    if same_text(pattern_text(before), pattern_text(after)) {
        return Ok(None);
    }
    let pattern = compile_own(alloc, after)?;
    Ok(Some(pattern))
}

fn same_text(one: Option<&str>, other: Option<&str>) -> bool
    ensures { result ≡ same_text (option_copied one.entry) (option_copied other.entry) }
{
    match one {
        Some(one) => match other {
            Some(other) => one == other,
            None => false,
        },
        None => other.is_none(),
    }
}

/// Puts each pattern that was compiled anew in the place of the old one.
pub fn put_patterns(patterns: &mut [Option<Pattern>], fresh: Vec<Option<Option<Pattern>>>)
    ensures { patterns.new ≡ patterns_by patterns.old fresh.items }
{
    let mut left = fresh;
    while let Some(pattern) = left.pop() {
        put_pattern(patterns, left.len(), pattern);
    }
}

fn put_pattern(patterns: &mut [Option<Pattern>], place: usize, fresh: Option<Option<Pattern>>)
    ensures { patterns.new ≡ with_pattern_at patterns.old place fresh }
{
    let Some(pattern) = fresh else {
        return;
    };
    if place < patterns.len() {
        patterns[place] = pattern;
    }
}
