//! What a map varies, in words.
ghost use Rattle.std.specs.Prelude.{OnOk};
ghost use Rattle.std.specs.List.{flat_map};
ghost use Rattle.wl_report.specs.Lines.{GrowsBy};
ghost use Rattle.wl_map.specs.Maps.{axes_text, axis_value, counts_words, flag_words, flags_words, options_line, range_line, range_lines, step_words};

use crate::rows::split;
use std::alloc::AllocError;
use wl_sweep::{Options, Sweep, SweptRange};

/// Adds the step between two offsets, if one is given.
fn push_step(text: &mut String, step: Option<u64>) -> Result<(), AllocError>
    ensures { OnOk result (GrowsBy text.old text.new (step_words step)) }
{
    match step {
        Some(step) => write!(text, " --step {step}"),
        None => Ok(()),
    }
}

/// Adds a flag, if it is set.
fn push_flag(text: &mut String, flag: &str, set: bool) -> Result<(), AllocError>
    ensures { OnOk result (GrowsBy text.old text.new (flag_words flag.now set)) }
{
    if set { text.push_str(flag) } else { Ok(()) }
}

/// Adds the words that say how many members are run.
fn push_counts(text: &mut String, options: Options) -> Result<(), AllocError>
    ensures { OnOk result (GrowsBy text.old text.new (counts_words options)) }
{
    let (runs, seed) = (options.runs, options.seed);
    write!(text, "options --runs {runs} --seed {seed}")?;
    push_step(text, options.step)
}

/// Adds the words that say what is varied.
fn push_flags(text: &mut String, options: Options, worst: bool) -> Result<(), AllocError>
    ensures { OnOk result (GrowsBy text.old text.new (flags_words options worst)) }
{
    push_flag(text, " --keep-offsets", options.keep_offsets)?;
    push_flag(text, " --keep-ppm", options.keep_ppm)?;
    push_flag(text, " --worst", worst)
}

/// Adds the words that ask for these options.
fn push_options(text: &mut String, options: Options, worst: bool) -> Result<(), AllocError>
    ensures { OnOk result (GrowsBy text.old text.new (options_line options worst)) }
{
    push_counts(text, options)?;
    push_flags(text, options, worst)?;
    text.push_str("\n")?;
    Ok(())
}

/// Adds values.
fn push_values(text: &mut String, values: &[i64]) -> Result<(), AllocError>
    ensures { OnOk result (GrowsBy text.old text.new (flat_map axis_value values.now)) }
{
    for value in values {
        write!(text, " {value}")?;
    }
    Ok(())
}

/// Adds a range.
fn push_range(text: &mut String, label: &str, range: &SweptRange) -> Result<(), AllocError>
    ensures { OnOk result (GrowsBy text.old text.new (range_line label.now range.now)) }
{
    let called = range.called.as_str();
    write!(text, "{label}{called}")?;
    push_values(text, range.values.as_slice())?;
    text.push_str("\n")
}

/// Adds ranges.
fn push_ranges(text: &mut String, label: &str, ranges: &[SweptRange]) -> Result<(), AllocError>
    ensures { OnOk result (GrowsBy text.old text.new (range_lines label.now ranges.now)) }
{
    for range in ranges {
        push_range(text, label, range)?;
    }
    Ok(())
}

/// Adds the options, the ranges that are varied, and those that are held.
pub fn push_axes(text: &mut String, sweep: &Sweep, worst: bool) -> Result<(), AllocError>
    ensures { OnOk result (GrowsBy text.old text.new (axes_text sweep.now worst)) }
{
    push_options(text, sweep.options, worst)?;
    let (axes, held) = split(sweep.ranges.as_slice());
    push_ranges(text, "axis ", axes)?;
    push_ranges(text, "held ", held)
}
