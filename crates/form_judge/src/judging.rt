// The judgement of a control.
ghost use Rattle.std.specs.Prelude.{◌≡◌, ◌+◌, IfOk, Some, chars, option_and_then, option_copied, option_map, true};
ghost use Rattle.form_tree.specs.Elements.{is_submittable, passes};
ghost use Rattle.form_tree.specs.Tree.{at_key};
ghost use Rattle.form_judge.specs.Controls.{if_compiles, pattern_of, pattern_text};
ghost use Rattle.form_judge.specs.Flags.{facts_of, flags_at, flags_of, pattern_at};

use crate::control::{applies_to_input, kind_of, text_where};
use crate::flags::{Facts, Flags};
use crate::inputs::{suffers_from_a_custom_error, suffers_from_bad_input};
use crate::lengths::{suffers_from_being_too_long, suffers_from_being_too_short};
use crate::mismatches::{suffers_from_a_pattern_mismatch, suffers_from_a_type_mismatch};
use crate::missing::suffers_from_being_missing;
use crate::ranges::range_flags;
use crate::steps::Steps;
use form_pattern::Pattern;
use form_tree::{Key, Node, Tree};
use form_types::Attr;
use std::alloc::{AllocError, Global};
use std::marker::Model;
use std::sync::ledger::Ledger;

/// The flags of a control, as `judge` found them. Nothing else makes one, so whoever holds a verdict
/// knows that it was counted.
#[derive(Clone, Copy, Debug)]
pub struct Verdict {
    flags: Flags,
}

impl Model for Verdict {
    ghost use Rattle.form_judge.specs.declared.flags.Flags.{Flags};

    ghost Value = { Flags };

    ghost view = { λ v. v.flags };

    ghost inverse = { λ f. record { flags = f } };
}

impl Verdict {
    /// The ten flags.
    pub fn flags(&self) -> Flags
        ensures { result ≡ self.now }
    {
        self.flags
    }
}

/// Judges a control: which of the ten flags it has (HTML, "Constraint validation"). A control that is
/// barred from constraint validation has its flags too.
///
/// The key is that of a submittable element of the tree, the facts are what the page says of it, and
/// the pattern is its own, as [`compile_pattern`] gives it; it stands for the same text afterwards.
/// Each call is one step of the counter, also one that ends without memory. `AllocError` says that
/// there was no memory for the parsed URL or for the line ends of a textarea, or that a URL has 4 GB.
pub fn judge<L: Ledger>(
    alloc: Global,
    tree: &Tree,
    key: Key,
    facts: &Facts,
    pattern: &mut Option<Pattern>,
    steps: &mut Steps<L>,
) -> Result<Verdict, AllocError>
    requires submittable { passes is_submittable tree.now.nodes key ≡ true }
    requires facts { facts.now ≡ facts_of tree.now.nodes key }
    requires pattern { pattern.old ≡ pattern_at tree.now.nodes key }
    ensures flags { IfOk result (λ verdict. flags_at tree.now.nodes key ≡ Some verdict) }
    ensures tick { steps.new ≡ steps.old + 1 }
    ensures kept { pattern.new ≡ pattern.old }
{
    steps.tick();
    let flags = flags_at(alloc, tree, key, facts, pattern)?;
    Ok(Verdict { flags })
}

// The flags of the element of a key.
fn flags_at(
    alloc: Global,
    tree: &Tree,
    key: Key,
    facts: &Facts,
    pattern: &mut Option<Pattern>,
) -> Result<Flags, AllocError>
    requires submittable { passes is_submittable tree.now.nodes key ≡ true }
    requires facts { facts.now ≡ facts_of tree.now.nodes key }
    requires pattern { pattern.old ≡ pattern_at tree.now.nodes key }
    ensures flags { IfOk result (λ flags. flags_at tree.now.nodes key ≡ Some flags) }
    ensures kept { pattern.new ≡ pattern.old }
{
    let node = node_of(tree, key);
    flags_of(alloc, node, facts, pattern)
}

// The element of a key that is there.
fn node_of(tree: &Tree, key: Key) -> &Node
    requires { passes is_submittable tree.now.nodes key ≡ true }
    ensures { at_key tree.now.nodes key ≡ Some result.now }
{
    tree.node(key).unwrap()
}

// The flags of a control, by its node and the facts.
#[tactic(auto, unfolding(crate::specs::Flags::flags_of))]
pub(crate) fn flags_of(
    alloc: Global,
    node: &Node,
    facts: &Facts,
    pattern: &mut Option<Pattern>,
) -> Result<Flags, AllocError>
    requires { pattern.old ≡ pattern_of node.now }
    ensures flags { IfOk result (λ flags. flags ≡ flags_of node.now facts.now) }
    ensures kept { pattern.new ≡ pattern.old }
{
    let kind = kind_of(node);
    let type_mismatch = suffers_from_a_type_mismatch(alloc, node, kind)?;
    let too_long = suffers_from_being_too_long(alloc, node, kind)?;
    let too_short = suffers_from_being_too_short(alloc, node, kind)?;
    let range = range_flags(node, kind);
    Ok(Flags {
        value_missing: suffers_from_being_missing(node, kind, facts),
        type_mismatch,
        pattern_mismatch: suffers_from_a_pattern_mismatch(node, pattern),
        too_long,
        too_short,
        range_underflow: range.underflow,
        range_overflow: range.overflow,
        step_mismatch: range.off_step,
        bad_input: suffers_from_bad_input(node, kind),
        custom_error: suffers_from_a_custom_error(node),
    })
}

/// The compiled pattern of an element, that is of its `pattern` attribute (HTML, "The pattern
/// attribute"). None where it is no input in a state to which the attribute applies, has no such
/// attribute, or has one that does not compile.
pub fn compile_pattern(alloc: Global, tree: &Tree, key: Key) -> Result<Option<Pattern>, AllocError>
    ensures { IfOk result (λ pattern. pattern ≡ pattern_at tree.now.nodes key) }
{
    match tree.node(key) {
        Some(node) => compile_own(alloc, node),
        None => Ok(None),
    }
}

pub(crate) fn compile_own(alloc: Global, node: &Node) -> Result<Option<Pattern>, AllocError>
    ensures { IfOk result (λ pattern. pattern ≡ pattern_of node.now) }
{
    match pattern_text(node) {
        Some(text) => compile(alloc, text),
        None => Ok(None),
    }
}

/// The text of the pattern attribute of an element, where it applies.
pub(crate) fn pattern_text(node: &Node) -> Option<&str>
    ensures { option_copied result ≡ pattern_text node.now }
{
    text_where(
        node,
        applies_to_input(node, kind_of(node), Attr::Pattern),
        "pattern",
    )
}

fn compile(alloc: Global, text: &str) -> Result<Option<Pattern>, AllocError>
    ensures { IfOk result (λ pattern. pattern ≡ if_compiles (chars text.now)) }
{
    Pattern::compile(alloc, text)
}
