//! The text of a plan to begin from.
ghost use Rattle.std.specs.Prelude.{◌≡◌, IfOk, OnOk, string_bytes};
ghost use Rattle.wl_init.specs.Texts.{HasGrownBy, bitrate_lines, clock_line, controller_lines, cycle_words, data_lines, end_of_run, title_words, id_of, id_line, sjw_line, kind_line, length_words, line_end, remarked_line, ecu_name, ecu_lines, node_tables, nodes_words, ecu_number, ecu_offset, ecu_place, ecu_units, first_plan_words, prescaler_words, rate_words, fixed_words, setting_lines, tables_below, time_lines, end_line, tseg1_line, tseg2_line};

use crate::bits::BitSetting;
use crate::draft::{Draft, kind_word};
use std::alloc::{AllocError, Global};

/// What is in the top table whatever is asked for, before the end of the run.
const TOP: &str = "version = 4  # of the format of this text
tick = \"1ns\"  # what the run counts time in
unit = \"20cm\"  # what it counts lengths in: each `x` is a whole number of them
";

/// What is in it after that.
const SYNC: &str = "per = \"5ns/m\"  # how long a level takes along the cable
sync = \"book\"  # edges synchronise by the rules of Bosch CAN 2.0
";

/// What the controllers have whatever the bit rate.
const REST: &str = "out = \"70ns\"  # the transceiver's delay from the controller to the cable
in = \"80ns\"  # its delay from the cable to the controller
tolerance = 100  # by how many ppm the oscillator may be slow or fast
";

/// Adds a length of this number of units of 20 cm, in metres.
#[tactic(auto, unfolding(crate::specs::Texts::length_words))]
fn push_length(text: &mut String, units: u64) -> Result<(), AllocError>
    ensures { OnOk result (HasGrownBy text.old text.new (length_words units)) }
{
    let (metres, rest) = (units / 5, units % 5);
    if rest == 0 {
        write!(text, "{metres}m")
    } else {
        let tenths = 2 * rest;
        write!(text, "{metres}.{tenths}m")
    }
}

/// Adds a bit rate.
#[tactic(auto, unfolding(crate::specs::Texts::rate_words))]
fn push_rate(text: &mut String, rate: u32) -> Result<(), AllocError>
    ensures { OnOk result (HasGrownBy text.old text.new (rate_words rate)) }
{
    if rate % 1000 == 0 {
        let thousands = rate / 1000;
        write!(text, "{thousands}kbit/s")
    } else {
        write!(text, "{rate}bit/s")
    }
}

/// Adds some words.
#[tactic(auto, unfolding(crate::specs::Texts::fixed_words))]
fn push_said(text: &mut String, words: &str) -> Result<(), AllocError>
    ensures { OnOk result (HasGrownBy text.old text.new (fixed_words words.now)) }
{
    text.push_str(words)
}

/// Adds how many nodes there are.
#[tactic(auto, unfolding(crate::specs::Texts::nodes_words))]
fn push_count(text: &mut String, nodes: u8) -> Result<(), AllocError>
    ensures { OnOk result (HasGrownBy text.old text.new (nodes_words nodes)) }
{
    write!(text, "# A bus of {nodes} nodes at ")
}

/// Adds the line that says what the plan is.
fn push_head(text: &mut String, draft: Draft) -> Result<(), AllocError>
    ensures { OnOk result (HasGrownBy text.old text.new (title_words draft)) }
{
    push_count(text, draft.asked.nodes)?;
    push_rate(text, draft.asked.rate)?;
    push_said(text, " on a cable of ")?;
    push_length(text, u64::from(draft.asked.cable))?;
    push_said(text, ", to begin from: change what differs on yours.\n")
}

/// Returns when the run ends, in milliseconds.
fn end_of_run(draft: Draft) -> u64
    ensures { result ≡ end_of_run draft }
{
    3 * u64::from(draft.cycle)
}

/// Adds the keys of the top table.
#[tactic(auto, unfolding(crate::specs::Texts::end_line))]
fn push_top(text: &mut String, end: u64) -> Result<(), AllocError>
    ensures { OnOk result (HasGrownBy text.old text.new (end_line end)) }
{
    write!(text, "end = \"{end}ms\"  # when the run ends\n")
}

/// Adds the kind of the controllers.
#[tactic(auto, unfolding(crate::specs::Texts::kind_line))]
fn push_kind(text: &mut String, kind: &str) -> Result<(), AllocError>
    ensures { OnOk result (HasGrownBy text.old text.new (kind_line kind.now)) }
{
    write!(
        text,
        "kind = \"{kind}\"  # which settings the controller can have\n"
    )
}

/// Adds the clock of the controllers, in MHz.
#[tactic(auto, unfolding(crate::specs::Texts::clock_line))]
fn push_clock(text: &mut String, clock: u32) -> Result<(), AllocError>
    ensures { OnOk result (HasGrownBy text.old text.new (clock_line clock)) }
{
    write!(text, "clock = \"{clock}MHz\"  # the controller's\n")
}

/// Adds a remark on the prescaler, and ends the line.
#[tactic(auto, unfolding(crate::specs::Texts::prescaler_words))]
fn push_prescaler(text: &mut String, prescaler: u64) -> Result<(), AllocError>
    ensures { OnOk result (HasGrownBy text.old text.new (prescaler_words prescaler)) }
{
    write!(text, "\"  # so the prescaler is {prescaler}\n")
}

/// Adds the bit rate of the controllers.
fn push_bitrate(text: &mut String, draft: Draft) -> Result<(), AllocError>
    ensures { OnOk result (HasGrownBy text.old text.new (bitrate_lines draft)) }
{
    push_said(text, "bitrate = \"")?;
    push_rate(text, draft.asked.rate)?;
    push_prescaler(text, draft.setting.prescaler)
}

/// Adds PROP_SEG and PHASE_SEG1 of the controllers.
#[tactic(auto, unfolding(crate::specs::Texts::tseg1_line))]
fn push_tseg1(text: &mut String, tseg1: u8) -> Result<(), AllocError>
    ensures { OnOk result (HasGrownBy text.old text.new (tseg1_line tseg1)) }
{
    write!(
        text,
        "tseg1 = {tseg1}  # PROP_SEG and PHASE_SEG1, in quanta\n"
    )
}

/// Adds PHASE_SEG2 of the controllers.
#[tactic(auto, unfolding(crate::specs::Texts::tseg2_line))]
fn push_tseg2(text: &mut String, tseg2: u8) -> Result<(), AllocError>
    ensures { OnOk result (HasGrownBy text.old text.new (tseg2_line tseg2)) }
{
    write!(
        text,
        "tseg2 = {tseg2}  # PHASE_SEG2, in quanta: it is after the sample\n"
    )
}

/// Adds the jump width of the controllers.
#[tactic(auto, unfolding(crate::specs::Texts::sjw_line))]
fn push_jump(text: &mut String, jump: u8) -> Result<(), AllocError>
    ensures { OnOk result (HasGrownBy text.old text.new (sjw_line jump)) }
{
    write!(
        text,
        "sjw = {jump}  # resynchronisation jump width, in quanta\n"
    )
}

/// Adds the segments and the jump width of the controllers.
fn push_setting(text: &mut String, setting: BitSetting) -> Result<(), AllocError>
    ensures { OnOk result (HasGrownBy text.old text.new (setting_lines setting)) }
{
    push_tseg1(text, setting.shape.tseg1)?;
    push_tseg2(text, setting.shape.tseg2)?;
    push_jump(text, setting.jump)
}

/// Adds the table of the controllers.
fn push_controller(text: &mut String, draft: Draft) -> Result<(), AllocError>
    ensures { OnOk result (HasGrownBy text.old text.new (controller_lines draft)) }
{
    push_said(
        text,
        "\n[controller.ecu]  # what the nodes have in common\n",
    )?;
    push_kind(text, kind_word(draft.asked.kind))?;
    push_clock(text, draft.clock)?;
    push_bitrate(text, draft)?;
    push_setting(text, draft.setting)?;
    push_said(text, REST)
}

/// Returns the place of a node in units of 20 cm: the first and the last are at the ends of the cable, the others evenly between them.
fn ecu_units(draft: Draft, i: u8) -> u64
    ensures { result ≡ ecu_units draft i }
{
    let gaps = u64::from(draft.asked.nodes.saturating_sub(1).max(1));
    u64::from(draft.asked.cable) * u64::from(i) / gaps
}

/// Adds a remark if this node is the first one, and ends the line.
#[tactic(auto, unfolding(crate::specs::Texts::line_end))]
fn push_end(text: &mut String, i: u8, remark: &str) -> Result<(), AllocError>
    ensures { OnOk result (HasGrownBy text.old text.new (line_end i remark.now)) }
{
    if i == 0 {
        write!(text, "  # {remark}\n")
    } else {
        text.push_str("\n")
    }
}

/// Adds a line that each node has, with a remark if this node is the first one.
#[tactic(auto, unfolding(crate::specs::Texts::remarked_line))]
fn push_line(text: &mut String, i: u8, line: &str, remark: &str) -> Result<(), AllocError>
    ensures { OnOk result (HasGrownBy text.old text.new (remarked_line i line.now remark.now)) }
{
    text.push_str(line)?;
    push_end(text, i, remark)
}

/// Returns the number of a node, from 1.
fn ecu_number(i: u8) -> u32
    ensures { result ≡ ecu_number i }
{
    u32::from(i) + 1
}

/// Adds the name of a node of this number.
#[tactic(auto, unfolding(crate::specs::Texts::ecu_name))]
fn push_name(text: &mut String, number: u32) -> Result<(), AllocError>
    ensures { OnOk result (HasGrownBy text.old text.new (ecu_name number)) }
{
    write!(text, "name = \"ecu{number}\"")
}

/// Adds the time at which a node is powered up.
#[tactic(auto, unfolding(crate::specs::Texts::ecu_offset))]
fn push_offset(text: &mut String, i: u8) -> Result<(), AllocError>
    ensures { OnOk result (HasGrownBy text.old text.new (ecu_offset i)) }
{
    write!(text, "offset = \"{i}us\"")
}

/// Adds the place of a node.
fn push_place(text: &mut String, draft: Draft, i: u8) -> Result<(), AllocError>
    ensures { OnOk result (HasGrownBy text.old text.new (ecu_place draft i)) }
{
    push_said(text, "x = \"")?;
    push_length(text, ecu_units(draft, i))?;
    push_line(text, i, "\"", "its place on the cable")
}

/// Adds the table of a node without its frame.
fn push_node(text: &mut String, draft: Draft, i: u8) -> Result<(), AllocError>
    ensures { OnOk result (HasGrownBy text.old text.new (ecu_lines draft i)) }
{
    push_line(text, i, "\n[[node]]", "a controller on the cable")?;
    push_name(text, ecu_number(i))?;
    push_end(text, i, "up to 32 letters, digits, _ and -")?;
    push_line(
        text,
        i,
        "controller = \"ecu\"",
        "the table above; a key here goes before its",
    )?;
    push_offset(text, i)?;
    push_end(text, i, "when it is powered up")?;
    push_place(text, draft, i)
}

/// Returns the identifier of a node's frame.
fn id_of(i: u8) -> u32
    ensures { result ≡ id_of i }
{
    0x100 + u32::from(i)
}

/// Adds an identifier.
#[tactic(auto, unfolding(crate::specs::Texts::id_line))]
fn push_id(text: &mut String, id: u32) -> Result<(), AllocError>
    ensures { OnOk result (HasGrownBy text.old text.new (id_line id)) }
{
    write!(text, "id = 0x{id:x}")
}

/// Adds a key with the cycle of the frames.
#[tactic(auto, unfolding(crate::specs::Texts::cycle_words))]
fn push_cycle(text: &mut String, key: &str, cycle: u32) -> Result<(), AllocError>
    ensures { OnOk result (HasGrownBy text.old text.new (cycle_words key.now cycle)) }
{
    write!(text, "{key} = \"{cycle}ms\"")
}

/// Adds the keys of a frame that say what is sent.
fn push_data(text: &mut String, i: u8) -> Result<(), AllocError>
    ensures { OnOk result (HasGrownBy text.old text.new (data_lines i)) }
{
    push_line(
        text,
        i,
        "\n[[node.frame]]",
        "a message of the node, which may have several",
    )?;
    push_id(text, id_of(i))?;
    push_end(text, i, "identifier: of two the lesser goes first")?;
    push_line(text, i, "dlc = 8", "data length code: the number of bytes")?;
    push_line(text, i, "bytes = [1, 2, 3, 4, 5, 6, 7, 8]", "the data")
}

/// Adds the keys of a frame that say when it is sent.
fn push_times(text: &mut String, cycle: u32, i: u8) -> Result<(), AllocError>
    ensures { OnOk result (HasGrownBy text.old text.new (time_lines cycle i)) }
{
    push_cycle(text, "at", cycle)?;
    push_end(text, i, "when it is ready to be sent")?;
    push_cycle(text, "cycle", cycle)?;
    push_end(text, i, "after which time it is ready again, and again")?;
    push_cycle(text, "deadline", cycle)?;
    push_end(text, i, "within which time it has to be sent")
}

/// Adds the tables of a node.
#[tactic(auto, unfolding(crate::specs::Texts::node_tables))]
fn push_tables(text: &mut String, draft: Draft, i: u8) -> Result<(), AllocError>
    ensures { OnOk result (HasGrownBy text.old text.new (node_tables draft i)) }
{
    push_node(text, draft, i)?;
    push_data(text, i)?;
    push_times(text, draft.cycle, i)
}

/// Adds the tables of all nodes.
fn push_nodes(text: &mut String, draft: Draft) -> Result<(), AllocError>
    ensures { OnOk result (HasGrownBy text.old text.new (tables_below draft draft.asked.nodes)) }
{
    for i in 0..draft.asked.nodes {
        push_tables(text, draft, i)?;
    }
    Ok(())
}

/// Adds the whole plan.
fn push_plan(text: &mut String, draft: Draft) -> Result<(), AllocError>
    ensures { OnOk result (HasGrownBy text.old text.new (first_plan_words draft)) }
{
    push_head(text, draft)?;
    push_said(text, TOP)?;
    push_top(text, end_of_run(draft))?;
    push_said(text, SYNC)?;
    push_controller(text, draft)?;
    push_nodes(text, draft)
}

/// Returns the plan of a draft as TOML, with a remark on each key where it first comes. Refused only when out of memory.
pub fn first_plan(alloc: Global, draft: Draft) -> Result<String, AllocError>
    ensures { IfOk result (λ text. string_bytes text ≡ first_plan_words draft) }
{
    let mut text = String::new(alloc);
    push_plan(&mut text, draft)?;
    Ok(text)
}
