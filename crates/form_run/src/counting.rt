// The counts of a run over the generated page and script.
ghost use Rattle.std.specs.Prelude.{◌≡◌, ◌<◌, ◌≤◌, ◌^◌, [], IfOk, OnOk, map, string_bytes, true};
ghost use Rattle.form_ports.specs.Ports.{Rose};
ghost use Rattle.form_ports.specs.Written.{WrotePart};
ghost use Rattle.form_generator.specs.Limits.{most_generated};
ghost use Rattle.form_page.specs.Opening.{opened};
ghost use Rattle.form_acts.specs.Soundness.{IsOpenable};
ghost use Rattle.form_run.specs.declared.asked.Asked.TheVariants as asks;
ghost use Rattle.form_run.specs.Counting.{changed_in, changed_views, counts_of, generated_end, generated_text, invalid_in, page_after_all, refusals, refused_in};
ghost use Rattle.form_run.specs.Session.{asked_in, page_after};
ghost use Rattle.form_run.specs.Transcript.{IsEnd, WroteCounts, is_generated_end};

use crate::asked::Asked;
use crate::session::hear;
use crate::status::Status;
use form_acts::{Act, ActFault, apply};
use form_generator::{Counts, generate, print_counts};
use form_judge::Steps;
use form_markup::read;
use form_page::Page;
use form_ports::{Sink, write_all};
use form_replies::{PageStop, bad_page_at};
use form_tree::{Key, Raw};
use std::alloc::{AllocError, Global};
use std::sync::ledger::{Blank, Ledger};

// What is counted of lines.
#[derive(Clone, Copy, Debug, PartialEq, Eq)]
struct Tally {
    // How many of them are refused.
    refused: u128,
    // How many elements are seen to change, over all of them.
    changed: u128,
}

// Does an act to a page, and counts.
fn tally_act<L: Ledger>(
    alloc: Global,
    page: &mut Page,
    act: &Act,
    steps: &mut Steps<L>,
) -> Result<Tally, AllocError>
    ensures refused { IfOk result (λ tally. tally.refused ≡ refusals page.old (asks.Act act.now)) }
    ensures changed { IfOk result (λ tally. tally.changed ≡ changed_views page.old (asks.Act act.now)) }
    ensures few { IfOk result (λ tally. tally.refused ≤ 1) }
    ensures fits { IfOk result (λ tally. tally.changed < 2 ^ 64) }
    ensures next { OnOk result (page.new ≡ page_after page.old (asks.Act act.now)) }
{
    match apply(alloc, page, act, steps) {
        Ok(keys) => Ok(Tally {
            refused: 0,
            changed: keys.len() as u128,
        }),
        Err(ActFault::Memory) => Err(AllocError),
        Err(fault) => Ok(Tally {
            refused: 1,
            changed: 0,
        }),
    }
}

// Does what a line asks for of the page, and counts.
fn tally_asked<L: Ledger>(
    alloc: Global,
    page: &mut Page,
    asked: &Asked,
    steps: &mut Steps<L>,
) -> Result<Tally, AllocError>
    ensures refused { IfOk result (λ tally. tally.refused ≡ refusals page.old asked.now) }
    ensures changed { IfOk result (λ tally. tally.changed ≡ changed_views page.old asked.now) }
    ensures few { IfOk result (λ tally. tally.refused ≤ 1) }
    ensures fits { IfOk result (λ tally. tally.changed < 2 ^ 64) }
    ensures next { OnOk result (page.new ≡ page_after page.old asked.now) }
{
    match asked {
        Asked::Act(act) => tally_act(alloc, page, act, steps),
        Asked::Syntax => Ok(Tally {
            refused: 1,
            changed: 0,
        }),
        Asked::Refused(fault) => Ok(Tally {
            refused: 1,
            changed: 0,
        }),
        _ => Ok(Tally {
            refused: 0,
            changed: 0,
        }),
    }
}

fn tally_line<L: Ledger>(
    alloc: Global,
    page: &mut Page,
    line: &str,
    steps: &mut Steps<L>,
) -> Result<Tally, AllocError>
    ensures refused { IfOk result (λ tally. tally.refused ≡ refusals page.old (asked_in page.old line.now)) }
    ensures changed { IfOk result (λ tally. tally.changed ≡ changed_views page.old (asked_in page.old line.now)) }
    ensures few { IfOk result (λ tally. tally.refused ≤ 1) }
    ensures fits { IfOk result (λ tally. tally.changed < 2 ^ 64) }
    ensures next { OnOk result (page.new ≡ page_after page.old (asked_in page.old line.now)) }
{
    let asked = hear(alloc, page, line)?;
    tally_asked(alloc, page, &asked, steps)
}

fn tally_all<L: Ledger>(
    alloc: Global,
    page: &mut Page,
    lines: &[String],
    steps: &mut Steps<L>,
) -> Result<Tally, AllocError>
    ensures refused { IfOk result (λ tally. tally.refused ≡ refused_in page.old (map string_bytes lines.now)) }
    ensures changed { IfOk result (λ tally. tally.changed ≡ changed_in page.old (map string_bytes lines.now)) }
    ensures next { OnOk result (page.new ≡ page_after_all page.old (map string_bytes lines.now)) }
{
    let mut all = Tally {
        refused: 0,
        changed: 0,
    };
    for line in lines {
        let tally = tally_line(alloc, page, line.as_str(), steps)?;
        all.refused += tally.refused;
        all.changed += tally.changed;
    }
    Ok(all)
}

// How many invalid controls the form has.
fn invalid_in(page: &Page) -> u32
    ensures { result ≡ invalid_in page.now }
{
    match page.invalid_count(Key(1)) {
        Some(count) => count,
        None => 0,
    }
}

// The counts of a page of so many controls, after these lines.
fn counts_of<L: Ledger>(
    alloc: Global,
    count: u32,
    raws: Vec<Raw>,
    lines: &[String],
    steps: &mut Steps<L>,
) -> Result<String, AllocError>
    requires { IsOpenable raws.items }
    ensures { IfOk result (λ text.
        string_bytes text ≡ counts_of count (opened raws.items []) (map string_bytes lines.now)) }
{
    let mut page = Page::from_raws(alloc, raws, Vec::new(alloc), steps)?;
    let tally = tally_all(alloc, &mut page, lines, steps)?;
    let invalid = invalid_in(&page);
    print_counts(
        alloc,
        &Counts {
            controls: count as u64,
            commands: lines.len() as u64,
            refused: tally.refused,
            changes: tally.changed,
            invalid: invalid as u64,
        },
    )
}

// What is written for the generated page of so many controls, and its end.
#[tactic(auto, unfolding(crate::specs::Counting::generated_text, crate::specs::Counting::generated_end))]
fn generated_text<L: Ledger>(
    alloc: Global,
    count: u32,
    steps: &mut Steps<L>,
) -> Result<(Status, String), AllocError>
    requires { count ≤ most_generated }
    ensures end { IfOk result (λ made. made.0 ≡ generated_end count) }
    ensures text { IfOk result (λ made. string_bytes made.1 ≡ generated_text count) }
{
    let generated = generate(alloc, count)?;
    match read(alloc, generated.page.as_str()) {
        Ok(raws) => {
            let text = counts_of(alloc, count, raws, &generated.lines, steps)?;
            Ok((Status::Done, text))
        }
        Err(fault) => match bad_page_at(alloc, fault) {
            PageStop::Refused(line) => Ok((Status::Page, line)),
            PageStop::Memory => Err(AllocError),
        },
    }
}

/// Writes the counts of a run over the generated page of so many controls.
pub fn write_generated<K: Sink, L: Ledger>(
    blank: Blank,
    alloc: Global,
    count: u32,
    sink: &mut K,
) -> Status
    requires ledger { blank.name ≡ L.name }
    requires parts { blank.parts ≡ L.parts }
    requires some { 0 < blank.parts }
    requires few { count ≤ most_generated }
    ensures end { IsEnd result ≡ true → WroteCounts count result (K.written sink.old) (K.written sink.new) }
    ensures part { WrotePart (K.written sink.old) (K.written sink.new) (generated_text count) }
    ensures kinds { is_generated_end result ≡ true }
    ensures write_fault { result ≡ Status.WriteFault → Rose (K.faults sink.old) (K.faults sink.new) }
    ensures later { K.faults sink.old ≤ K.faults sink.new }
{
    let mut steps: Steps<L> = Steps::new(blank);
    match generated_text(alloc, count, &mut steps) {
        Ok((status, text)) => match write_all(sink, text.as_bytes()) {
            Ok(()) => status,
            Err(_) => Status::WriteFault,
        },
        Err(_) => Status::Memory,
    }
}
