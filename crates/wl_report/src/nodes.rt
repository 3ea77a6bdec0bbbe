//! The lines of a node.
ghost use Rattle.std.specs.Prelude.{◌≡◌, OnOk};
ghost use Rattle.std.specs.List.{flat_map};
ghost use Rattle.wl_report.specs.Lines.{GrowsBy, mode_word};
ghost use Rattle.wl_report.specs.Report.{frame_line, node_report_line, node_report_lines};

use crate::error_word::ErrorWord;
use crate::frames::push_frame;
use std::alloc::AllocError;
use wl_confine::Mode;
use wl_node::Passed;
use wl_serial::NodeTotals;

/// Returns how far a node takes part in the traffic, as a word: `active`, `passive` or `off` (Bosch CAN 2.0 part B, section 8).
pub fn mode_word(mode: Mode) -> &'static str
    ensures { result.now ≡ mode_word mode }
{
    match mode {
        Mode::Active => "active",
        Mode::Passive => "passive",
        Mode::Off => "off",
    }
}

/// Adds the line of a node.
fn push_node_line(text: &mut String, number: usize, node: &NodeTotals) -> Result<(), AllocError>
    ensures { OnOk result (GrowsBy text.old text.new (node_report_line number node.now)) }
{
    let tec = node.counters.tec();
    let rec = node.counters.rec();
    let mode = mode_word(node.counters.mode());
    let errors = node.errors;
    let samples = node.samples;
    let hards = node.hards;
    let syncs = node.phases.count;
    let least = ErrorWord(node.phases.least);
    let greatest = ErrorWord(node.phases.greatest);
    write!(
        text,
        "node {number} tec {tec} rec {rec} mode {mode} errors {errors} samples {samples}"
    )?;
    writeln!(
        text,
        " hard {hards} sync {syncs} least {least} greatest {greatest}"
    )
}

/// Adds the lines of frames that passed through a node.
fn push_frames(text: &mut String, number: usize, frames: &[Passed]) -> Result<(), AllocError>
    ensures { OnOk result (GrowsBy text.old text.new (flat_map (frame_line number) frames.now)) }
{
    for passed in frames {
        push_frame(text, number, passed)?;
    }
    Ok(())
}

/// Adds the line of a node and those of its frames.
pub(crate) fn push_node(
    text: &mut String,
    number: usize,
    node: &NodeTotals,
) -> Result<(), AllocError>
    ensures { OnOk result (GrowsBy text.old text.new (node_report_lines (number, node.now))) }
{
    push_node_line(text, number, node)?;
    push_frames(text, number, node.frames.as_slice())
}
