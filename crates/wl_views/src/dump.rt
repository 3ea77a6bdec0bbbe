//! What a Value Change Dump begins with.
ghost use Rattle.std.specs.Prelude.{◌≡◌, ◌≤◌, ◌++◌, OnOk, IfOk, codes, string_bytes};
ghost use Rattle.std.specs.List.{enumerate_from, flat_map};
ghost use Rattle.wl_report.specs.Lines.{GrowsBy};
ghost use Rattle.wl_plan.specs.Limits.{latest_end};
ghost use Rattle.wl_views.specs.Vcd.{first_lines, header, level_values, level_vars, line_values, line_vars, mark_values, mark_vars, node_values, number_line, scope_lines, shown_name, signal_id, state_values, state_vars, time_line, unit_word, value_line, var_line, var_lines, word_line};

use crate::signals::NodeSignals;
use crate::tick::{Tick, TimeUnit};
use crate::words::{doing_word, mode};
use std::alloc::{AllocError, Global};
use wl_setup::Names;
use wl_trace::NodeState;

/// Returns the word of a unit.
fn unit_word(unit: TimeUnit) -> &'static str
    ensures { result.now ≡ unit_word unit }
{
    match unit {
        TimeUnit::Picosecond => "ps",
        TimeUnit::Nanosecond => "ns",
        TimeUnit::Microsecond => "us",
    }
}

/// Adds the name of a signal in the dump.
fn push_id(text: &mut String, letter: &str, i: usize) -> Result<(), AllocError>
    ensures { OnOk result (GrowsBy text.old text.new (signal_id letter.now i)) }
{
    write!(text, "{letter}{i}")
}

/// Adds the name that a reader sees.
fn push_name(text: &mut String, name: &str, word: &str) -> Result<(), AllocError>
    ensures { OnOk result (GrowsBy text.old text.new (shown_name name.now word.now)) }
{
    write!(text, "{name}_{word}")
}

/// Adds the line that declares a signal of node `i`.
fn push_var(
    text: &mut String,
    kind: &str,
    letter: &str,
    i: usize,
    name: &str,
    word: &str,
) -> Result<(), AllocError>
    ensures { OnOk result (GrowsBy text.old text.new (var_line kind.now letter.now i name.now word.now)) }
{
    text.push_str("$var ")?;
    text.push_str(kind)?;
    text.push_str(" ")?;
    push_id(text, letter, i)?;
    text.push_str(" ")?;
    push_name(text, name, word)?;
    text.push_str(" $end\n")?;
    Ok(())
}

/// Adds the lines that declare what node `i` drives, and the line at its place.
fn push_line_vars(text: &mut String, i: usize, name: &str) -> Result<(), AllocError>
    ensures { OnOk result (GrowsBy text.old text.new (line_vars i name.now)) }
{
    push_var(text, "wire 1", "t", i, name, "tx")?;
    push_var(text, "wire 1", "r", i, name, "rx")?;
    push_var(text, "wire 1", "w", i, name, "cable")?;
    push_var(text, "wire 1", "n", i, name, "disturbance")?;
    Ok(())
}

/// Adds the lines that declare the marks of node `i`.
fn push_mark_vars(text: &mut String, i: usize, name: &str) -> Result<(), AllocError>
    ensures { OnOk result (GrowsBy text.old text.new (mark_vars i name.now)) }
{
    push_var(text, "wire 1", "s", i, name, "sample")?;
    push_var(text, "wire 1", "b", i, name, "start")?;
    Ok(())
}

/// Adds the lines that declare the levels of node `i`.
fn push_level_vars(text: &mut String, i: usize, name: &str) -> Result<(), AllocError>
    ensures { OnOk result (GrowsBy text.old text.new (level_vars i name.now)) }
{
    push_line_vars(text, i, name)?;
    push_mark_vars(text, i, name)
}

/// Adds the lines that declare what node `i` is at.
fn push_state_vars(text: &mut String, i: usize, name: &str) -> Result<(), AllocError>
    ensures { OnOk result (GrowsBy text.old text.new (state_vars i name.now)) }
{
    push_var(text, "real 64", "e", i, name, "tec")?;
    push_var(text, "real 64", "c", i, name, "rec")?;
    push_var(text, "string 1", "m", i, name, "mode")?;
    push_var(text, "string 1", "d", i, name, "state")?;
    Ok(())
}

/// Adds the lines that declare the signals of node `i`.
fn push_vars(text: &mut String, i: usize, name: &str) -> Result<(), AllocError>
    ensures { OnOk result (GrowsBy text.old text.new (var_lines i name.now)) }
{
    push_level_vars(text, i, name)?;
    push_state_vars(text, i, name)
}

/// Adds the lines that declare the signals of node `i` under its name.
fn push_scope(text: &mut String, i: usize, name: &str) -> Result<(), AllocError>
    ensures { OnOk result (GrowsBy text.old text.new (scope_lines (i, name.now))) }
{
    text.push_str("$scope module ")?;
    text.push_str(name)?;
    text.push_str(" $end\n")?;
    push_vars(text, i, name)?;
    text.push_str("$upscope $end\n")?;
    Ok(())
}

/// Adds the lines that declare the signals of all nodes.
fn push_scopes(text: &mut String, names: &Names) -> Result<(), AllocError>
    ensures { OnOk result (GrowsBy text.old text.new (flat_map scope_lines (enumerate_from 0 names.now))) }
{
    for i in 0..names.len() {
        push_scope(text, i, names.name_of(i))?;
    }
    Ok(())
}

/// Adds what is in front of the changes.
fn push_header(text: &mut String, tick: Tick, names: &Names) -> Result<(), AllocError>
    ensures { OnOk result (GrowsBy text.old text.new (header tick names.now)) }
{
    text.push_str("$timescale 1 ")?;
    text.push_str(unit_word(tick.unit))?;
    text.push_str(" $end\n")?;
    push_scopes(text, names)?;
    text.push_str("$enddefinitions $end\n")?;
    Ok(())
}

/// Adds the time of a tick.
fn push_time(text: &mut String, tick: Tick, t: u64) -> Result<(), AllocError>
    requires { t ≤ latest_end }
    ensures { OnOk result (GrowsBy text.old text.new (time_line tick t)) }
{
    let time = t * u64::from(tick.count);
    writeln!(text, "#{time}")
}

/// Adds the level of a signal of node `i`.
fn push_value(text: &mut String, letter: &str, i: usize, high: bool) -> Result<(), AllocError>
    ensures { OnOk result (GrowsBy text.old text.new (value_line letter.now i high)) }
{
    let level = if high { "1" } else { "0" };
    writeln!(text, "{level}{letter}{i}")
}

/// Adds a number of node `i`.
fn push_number(text: &mut String, letter: &str, i: usize, number: u64) -> Result<(), AllocError>
    ensures { OnOk result (GrowsBy text.old text.new (number_line letter.now i number)) }
{
    writeln!(text, "r{number} {letter}{i}")
}

/// Adds a word of node `i`.
fn push_word(text: &mut String, letter: &str, i: usize, word: &str) -> Result<(), AllocError>
    ensures { OnOk result (GrowsBy text.old text.new (word_line letter.now i word.now)) }
{
    writeln!(text, "s{word} {letter}{i}")
}

/// Adds what node `i` drives, and the line at its place.
fn push_line_values(text: &mut String, i: usize, now: NodeSignals) -> Result<(), AllocError>
    ensures { OnOk result (GrowsBy text.old text.new (line_values i now)) }
{
    push_value(text, "t", i, now.tx)?;
    push_value(text, "r", i, now.rx)?;
    push_value(text, "w", i, now.cable)?;
    push_value(text, "n", i, now.disturbance)
}

/// Adds the marks of node `i`.
fn push_mark_values(text: &mut String, i: usize, now: NodeSignals) -> Result<(), AllocError>
    ensures { OnOk result (GrowsBy text.old text.new (mark_values i now)) }
{
    push_value(text, "s", i, now.sample)?;
    push_value(text, "b", i, now.start)
}

/// Adds the levels of node `i`.
fn push_levels(text: &mut String, i: usize, now: NodeSignals) -> Result<(), AllocError>
    ensures { OnOk result (GrowsBy text.old text.new (level_values i now)) }
{
    push_line_values(text, i, now)?;
    push_mark_values(text, i, now)
}

/// Adds what node `i` is at.
fn push_state(text: &mut String, i: usize, now: NodeState) -> Result<(), AllocError>
    ensures { OnOk result (GrowsBy text.old text.new (state_values i now)) }
{
    push_number(text, "e", i, now.tec)?;
    push_number(text, "c", i, now.rec)?;
    push_word(text, "m", i, mode(now.mode))?;
    push_word(text, "d", i, doing_word(now.doing))
}

/// Adds all signals of node `i`.
fn push_values(text: &mut String, i: usize, now: NodeSignals) -> Result<(), AllocError>
    ensures { OnOk result (GrowsBy text.old text.new (node_values (i, now))) }
{
    push_levels(text, i, now)?;
    push_state(text, i, now.state)
}

/// Adds the levels of all signals of all nodes, as those at tick `t`.
fn push_first(text: &mut String, tick: Tick, t: u64, now: &[NodeSignals]) -> Result<(), AllocError>
    requires { t ≤ latest_end }
    ensures { OnOk result (GrowsBy text.old text.new (first_lines tick t now.now)) }
{
    push_time(text, tick, t)?;
    text.push_str("$dumpvars\n")?;
    push_all_values(text, now)?;
    text.push_str("$end\n")
}

/// Adds the levels of all signals of all nodes.
fn push_all_values(text: &mut String, now: &[NodeSignals]) -> Result<(), AllocError>
    ensures { OnOk result (GrowsBy text.old text.new (flat_map node_values (enumerate_from 0 now.now))) }
{
    for (i, node) in now.iter().enumerate() {
        push_values(text, i, *node)?;
    }
    Ok(())
}

/// Returns what is before the first change after tick `t`: the signals, and their levels at that tick, which are these.
pub(crate) fn front(
    alloc: Global,
    tick: Tick,
    names: &Names,
    t: u64,
    now: &[NodeSignals],
) -> Result<String, AllocError>
    requires { t ≤ latest_end }
    ensures { IfOk result (λ text. string_bytes text ≡ header tick names.now ++ first_lines tick t now.now) }
{
    let mut text = String::new(alloc);
    push_header(&mut text, tick, names)?;
    push_first(&mut text, tick, t, now)?;
    Ok(text)
}
