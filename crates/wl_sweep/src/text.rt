//! What a sweep writes.
ghost use Rattle.std.specs.Prelude.{◌≡◌, ◌<◌, ◌≤◌, ◌++◌, IfOk, OnOk, drop, length, string_bytes};
ghost use Rattle.std.specs.List.{enumerate_from};
ghost use Rattle.wl_report.specs.Lines.{GrowsBy};
ghost use Rattle.wl_sweep.specs.Family.{chosen};
ghost use Rattle.wl_sweep.specs.Rows.{row_text};
ghost use Rattle.wl_sweep.specs.Words.{change_words, choice_words, choices_words, early_words, faulty_words, finding_words, members_line, row_line, row_words, settings_words, side_words, tally_line, member_words};

use crate::change::Side;
use crate::digit_source::DigitSource;
use crate::family::{Choice, TextFamily, choose};
use crate::finding::Finding;
use crate::options::Options;
use crate::range::{SweptRange, row_value};
use crate::tally::Tally;
use std::alloc::AllocError;
use wl_setup::NodeText;

/// Adds the line of a tally.
pub(crate) fn push_tally_line(text: &mut String, tally: Tally) -> Result<(), AllocError>
    ensures { OnOk result (GrowsBy text.old text.new (tally_line tally)) }
{
    tally.counts().push_line(text)
}

/// Adds the values of the ranges in a row, as its line begins.
pub(crate) fn push_values(
    text: &mut String,
    ranges: &[SweptRange],
    row: u64,
) -> Result<(), AllocError>
    ensures { OnOk result (GrowsBy text.old text.new (row_words row ranges.now)) }
{
    for i in 0..ranges.len() {
        let value = row_value(ranges, i, row);
        let called = ranges[i].called.as_str();
        write!(text, "{called} {value} ")?;
    }
    Ok(())
}

/// Adds the line of a row.
pub(crate) fn push_row(
    text: &mut String,
    ranges: &[SweptRange],
    row: u64,
    tally: Tally,
) -> Result<(), AllocError>
    ensures { OnOk result (GrowsBy text.old text.new (row_line row ranges.now tally)) }
{
    push_values(text, ranges, row)?;
    push_tally_line(text, tally)
}

/// Adds the line that says how much of the family was run.
pub(crate) fn push_members(
    text: &mut String,
    options: Options,
    runs: u64,
    members: u128,
) -> Result<(), AllocError>
    ensures { OnOk result (GrowsBy text.old text.new (members_line options runs members)) }
{
    let least = if members == u128::MAX {
        "at least "
    } else {
        ""
    };
    if u128::from(runs) == members {
        writeln!(text, "all {members} members were run")
    } else {
        let seed = options.seed;
        writeln!(
            text,
            "{runs} of {least}{members} members were run, drawn by seed {seed}"
        )
    }
}

/// Adds what the ranges set in a row.
fn push_settings(text: &mut String, ranges: &[SweptRange], row: u64) -> Result<(), AllocError>
    ensures { OnOk result (GrowsBy text.old text.new (settings_words row ranges.now)) }
{
    for i in 0..ranges.len() {
        let value = row_value(ranges, i, row);
        let called = ranges[i].called.as_str();
        write!(text, ", {called} = {value}")?;
    }
    Ok(())
}

/// Adds on which side of its rates the clock of a node is.
fn push_side(text: &mut String, node: &NodeText, side: Side) -> Result<(), AllocError>
    ensures { OnOk result (GrowsBy text.old text.new (side_words node.now side)) }
{
    let name = node.name.as_str();
    match side {
        Side::Own => Ok(()),
        Side::Slow(ppm) => write!(text, ", {name}.ppm = {ppm}"),
        Side::Fast(ppm) => write!(text, ", {name}.ppm = -{ppm}"),
    }
}

/// Adds what a member changes of a node.
fn push_choice(text: &mut String, node: &NodeText, choice: Choice) -> Result<(), AllocError>
    ensures { OnOk result (GrowsBy text.old text.new (choice_words node.now choice)) }
{
    let name = node.name.as_str();
    if choice.by != 0 {
        let offset = node.offset.saturating_add(choice.by);
        write!(text, ", {name}.offset = {offset}")?;
    }
    push_side(text, node, choice.side)
}

/// Adds what a member changes of the nodes of a text.
fn push_choices(
    text: &mut String,
    options: Options,
    step: u64,
    draws: DigitSource,
    nodes: &[NodeText],
) -> Result<(), AllocError>
    ensures { OnOk result (GrowsBy text.old text.new (choices_words options step draws (enumerate_from 0 nodes.now))) }
{
    let mut draws = draws;
    for (i, node) in nodes.iter().enumerate() {
        let choice = choose(options, step, i, node, &mut draws);
        push_choice(text, node, choice)?;
    }
    Ok(())
}

/// Adds that errors were found.
fn push_faulty(text: &mut String, errors: u128, unsent: u128) -> Result<(), AllocError>
    ensures { OnOk result (GrowsBy text.old text.new (faulty_words errors unsent)) }
{
    write!(text, "verdict faulty errors {errors} unsent {unsent}")
}

/// Adds that a plan ends too early.
fn push_early(text: &mut String, unsent: u128) -> Result<(), AllocError>
    ensures { OnOk result (GrowsBy text.old text.new (early_words unsent)) }
{
    write!(text, "ends too early, without an error: unsent {unsent}")
}

/// Adds what is found of a member.
fn push_finding(text: &mut String, finding: &Finding) -> Result<(), AllocError>
    ensures { OnOk result (GrowsBy text.old text.new (finding_words finding.now)) }
{
    match finding {
        Finding::Clean => text.push_str("clean"),
        Finding::Faulty(errors, unsent) => push_faulty(text, *errors, *unsent),
        Finding::Off => text.push_str("a node is off the bus"),
        Finding::Early(unsent) => push_early(text, *unsent),
        Finding::Missed => text.push_str("a node has not received every frame"),
        Finding::Refused(_) => text.push_str("refused"),
    }
}

/// Adds what a member changes.
pub(crate) fn push_change(
    text: &mut String,
    ranges: &[SweptRange],
    row: u64,
    family: &TextFamily,
    run: u32,
) -> Result<(), AllocError>
    ensures { OnOk result (GrowsBy text.old text.new
        (change_words row ranges.now family.now.options family.now.text run)) }
{
    push_settings(text, ranges, row)?;
    push_choices(
        text,
        family.varied(),
        family.step(),
        family.draws(run),
        family.text.node.as_slice(),
    )
}

/// Adds what a member changes, and what is found of it.
pub(crate) fn push_member(
    text: &mut String,
    ranges: &[SweptRange],
    row: u64,
    family: &TextFamily,
    run: u32,
    finding: &Finding,
) -> Result<(), AllocError>
    ensures { OnOk result (GrowsBy text.old text.new
        (member_words row ranges.now family.now.options family.now.text run finding.now)) }
{
    push_change(text, ranges, row, family, run)?;
    text.push_str(": ")?;
    push_finding(text, finding)?;
    text.push_str("\n")
}
