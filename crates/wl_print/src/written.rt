//! A plan text as TOML.
ghost use Rattle.std.specs.Prelude.{◌≡◌, IfOk, OnOk, string_bytes};
ghost use Rattle.std.specs.List.{flat_map};
ghost use Rattle.wl_print.specs.Printable.{PrintsBack};
ghost use Rattle.wl_print.specs.Written.{HasAdded, byte_words, clock_lines, data_line, disturbance_lines, flag_line, frame_keys, frame_lines, from_line, header_line, interval_lines, is_one, is_own, later_words, measure_line, name_lines, node_keys, node_lines, number_line, own_clock_lines, place_lines, plan_words, queue_line, rate_clock_lines, rate_lines, rate_tables, segment_lines, spot_line, sync_word, top_lines};

use crate::laws::printed_is_read;
use std::alloc::{AllocError, Global};
use wl_segments::SyncRules;
use wl_setup::{
    ClockText, DisturbanceText, FrameText, NodeText, PlanText, QueueText, RateText, SegmentsText,
    Text,
};

/// Returns the word of a choice of rules.
fn sync_word(sync: SyncRules) -> &'static str
    ensures { result.now ≡ sync_word sync }
{
    match sync {
        SyncRules::After => "after",
        SyncRules::Book => "book",
    }
}

/// Adds the keys of the top table.
#[tactic(auto, unfolding(crate::specs::Written::top_lines))]
fn push_top(text: &mut String, plan: &PlanText) -> Result<(), AllocError>
    ensures { OnOk result (HasAdded text.old text.new (top_lines plan.now)) }
{
    let (version, end, per) = (plan.version, plan.end, plan.per);
    let sync = sync_word(plan.sync);
    write!(
        text,
        "version = {version}\nend = {end}\nper = {per}\nsync = \"{sync}\"\n"
    )
}

/// Adds the two keys of a clock.
#[tactic(auto, unfolding(crate::specs::Written::clock_lines))]
fn push_clock(text: &mut String, clock: ClockText) -> Result<(), AllocError>
    ensures { OnOk result (HasAdded text.old text.new (clock_lines clock)) }
{
    match clock {
        ClockText::Rate { num, den } => write!(text, "num = {num}\nden = {den}\n"),
        ClockText::Ppm { quantum, ppm } => write!(text, "quantum = {quantum}\nppm = {ppm}\n"),
        ClockText::Fraction { num, den, ppm } => {
            write!(text, "num = {num}\nden = {den}\nppm = {ppm}\n")
        }
    }
}

/// Adds the line that begins a table.
#[tactic(auto, unfolding(crate::specs::Written::header_line))]
fn push_header(text: &mut String, name: &str) -> Result<(), AllocError>
    ensures { OnOk result (HasAdded text.old text.new (header_line name.now)) }
{
    write!(text, "\n[[{name}]]\n")
}

/// Adds the quantum from which on a rate is.
#[tactic(auto, unfolding(crate::specs::Written::from_line))]
fn push_from(text: &mut String, from: u64) -> Result<(), AllocError>
    ensures { OnOk result (HasAdded text.old text.new (from_line from)) }
{
    write!(text, "from = {from}\n")
}

/// Adds a rate's table.
fn push_rate(text: &mut String, rate: &RateText) -> Result<(), AllocError>
    ensures { OnOk result (HasAdded text.old text.new (rate_lines rate.now)) }
{
    push_header(text, "node.rates")?;
    push_from(text, rate.from)?;
    push_clock(text, rate.clock)
}

/// Adds the tables of rates.
fn push_rates(text: &mut String, rates: &[RateText]) -> Result<(), AllocError>
    ensures { OnOk result (HasAdded text.old text.new (flat_map rate_lines rates.now)) }
{
    for rate in rates {
        push_rate(text, rate)?;
    }
    Ok(())
}

/// Adds the clock keys of rates whose tables aren't written.
fn push_clocks(text: &mut String, rates: &[RateText]) -> Result<(), AllocError>
    ensures { OnOk result (HasAdded text.old text.new (flat_map rate_clock_lines rates.now)) }
{
    for rate in rates {
        push_clock(text, rate.clock)?;
    }
    Ok(())
}

/// Adds the keys of a node's segments.
#[tactic(auto, unfolding(crate::specs::Written::segment_lines))]
fn push_segments(text: &mut String, node: &NodeText) -> Result<(), AllocError>
    ensures { OnOk result (HasAdded text.old text.new (segment_lines node.now)) }
{
    let sjw = node.sjw;
    match node.segments {
        SegmentsText::Each { prop, ps1, ps2 } => write!(
            text,
            "prop = {prop}\nps1 = {ps1}\nps2 = {ps2}\nsjw = {sjw}\n"
        ),
        SegmentsText::Controller { tseg1, tseg2 } => {
            write!(text, "tseg1 = {tseg1}\ntseg2 = {tseg2}\nsjw = {sjw}\n")
        }
    }
}

/// Adds the keys of a node's place.
#[tactic(auto, unfolding(crate::specs::Written::place_lines))]
fn push_place(text: &mut String, node: &NodeText) -> Result<(), AllocError>
    ensures { OnOk result (HasAdded text.old text.new (place_lines node.now)) }
{
    let (x, out, into) = (node.x, node.out_delay, node.in_delay);
    write!(text, "x = {x}\nout = {out}\nin = {into}\n")
}

/// Adds a key with a number, if there is one.
#[tactic(auto, unfolding(crate::specs::Written::number_line))]
fn push_number(text: &mut String, key: &str, number: Option<u64>) -> Result<(), AllocError>
    ensures { OnOk result (HasAdded text.old text.new (number_line key.now number)) }
{
    match number {
        Some(number) => write!(text, "{key} = {number}\n"),
        None => Ok(()),
    }
}

/// Adds a key with a number and its unit as a text, if there is one.
#[tactic(auto, unfolding(crate::specs::Written::measure_line))]
fn push_measure(
    text: &mut String,
    key: &str,
    unit: &str,
    number: Option<u64>,
) -> Result<(), AllocError>
    ensures { OnOk result (HasAdded text.old text.new (measure_line key.now unit.now number)) }
{
    match number {
        Some(number) => write!(text, "{key} = \"{number}{unit}\"\n"),
        None => Ok(()),
    }
}

/// Adds the key that says which frame a node sends first, unless the key may be left out.
#[tactic(auto, unfolding(crate::specs::Written::queue_line))]
fn push_queue(text: &mut String, queue: QueueText) -> Result<(), AllocError>
    ensures { OnOk result (HasAdded text.old text.new (queue_line queue)) }
{
    match queue {
        QueueText::Fifo => Ok(()),
        QueueText::Priority => text.push_str("queue = \"priority\"\n"),
    }
}

/// Returns a tolerance with more bits.
fn widened(tolerance: Option<u32>) -> Option<u64>
    ensures { result ≡ tolerance }
{
    match tolerance {
        Some(ppm) => Some(u64::from(ppm)),
        None => None,
    }
}

/// Adds a byte in two hexadecimal digits.
#[tactic(auto, using(std::proofs::lemmas::Fmt::hex_byte))]
fn push_byte(text: &mut String, byte: u8) -> Result<(), AllocError>
    ensures { OnOk result (HasAdded text.old text.new (byte_words byte)) }
{
    write!(text, "0x{byte:02x}")
}

/// Adds a byte after others.
fn push_later(text: &mut String, byte: u8) -> Result<(), AllocError>
    ensures { OnOk result (HasAdded text.old text.new (later_words byte)) }
{
    text.push_str(", ")?;
    push_byte(text, byte)
}

/// Adds bytes after others.
fn push_later_bytes(text: &mut String, bytes: &[u8]) -> Result<(), AllocError>
    ensures { OnOk result (HasAdded text.old text.new (flat_map later_words bytes.now)) }
{
    for byte in bytes {
        push_later(text, *byte)?;
    }
    Ok(())
}

/// Adds the key of a frame's data, if it has any.
#[tactic(auto, unfolding(crate::specs::Written::data_line))]
fn push_data(text: &mut String, bytes: &[u8]) -> Result<(), AllocError>
    ensures { OnOk result (HasAdded text.old text.new (data_line bytes.now)) }
{
    match bytes {
        [] => Ok(()),
        [first, rest @ ..] => {
            text.push_str("bytes = [")?;
            push_byte(text, *first)?;
            push_later_bytes(text, rest)?;
            text.push_str("]\n")
        }
    }
}

/// Adds a key that is false if it is left out.
#[tactic(auto, unfolding(crate::specs::Written::flag_line))]
fn push_flag(text: &mut String, key: &str, is_set: bool) -> Result<(), AllocError>
    ensures { OnOk result (HasAdded text.old text.new (flag_line key.now is_set)) }
{
    if is_set {
        write!(text, "{key} = true\n")
    } else {
        Ok(())
    }
}

/// Adds the keys of a frame that are numbers.
#[tactic(auto, unfolding(crate::specs::Written::frame_keys))]
fn push_frame_keys(text: &mut String, frame: &FrameText) -> Result<(), AllocError>
    ensures { OnOk result (HasAdded text.old text.new (frame_keys frame.now)) }
{
    let (id, dlc, ready) = (frame.id, frame.dlc, frame.ready);
    write!(text, "id = 0x{id:x}\ndlc = {dlc}\nready = {ready}\n")
}

/// Adds the table of a frame.
fn push_frame(text: &mut String, frame: &FrameText) -> Result<(), AllocError>
    ensures { OnOk result (HasAdded text.old text.new (frame_lines frame.now)) }
{
    push_header(text, "node.frame")?;
    push_frame_keys(text, frame)?;
    push_number(text, "every", frame.every)?;
    push_number(text, "count", frame.count)?;
    push_number(text, "deadline", frame.deadline)?;
    push_number(text, "jitter", frame.jitter)?;
    push_flag(text, "extended", frame.extended)?;
    push_flag(text, "remote", frame.remote)?;
    push_data(text, frame.bytes.as_slice())
}

/// Adds the tables of frames.
fn push_frames(text: &mut String, frames: &[FrameText]) -> Result<(), AllocError>
    ensures { OnOk result (HasAdded text.old text.new (flat_map frame_lines frames.now)) }
{
    for frame in frames {
        push_frame(text, frame)?;
    }
    Ok(())
}

/// True if there is one rate, from quantum 0 on.
fn is_one(rates: &[RateText]) -> bool
    ensures { result ≡ is_one rates.now }
{
    match rates {
        [] => false,
        [rate] => rate.from == 0,
        [_, _, ..] => false,
    }
}

/// True if the clock keys of a node are its own: in version 1, and in versions 3 and 4 if it has one rate, from quantum 0 on.
fn is_own(version: u64, rates: &[RateText]) -> bool
    ensures { result ≡ is_own version rates.now }
{
    version == 1 || ((version == 3 || version == 4) && is_one(rates))
}

/// Adds the clock keys of a node, if they are its own.
fn push_own_clocks(text: &mut String, version: u64, rates: &[RateText]) -> Result<(), AllocError>
    ensures { OnOk result (HasAdded text.old text.new (own_clock_lines version rates.now)) }
{
    if is_own(version, rates) {
        push_clocks(text, rates)
    } else {
        Ok(())
    }
}

/// Adds the tables of a node's rates, if its clock keys aren't its own.
fn push_rate_tables(text: &mut String, version: u64, rates: &[RateText]) -> Result<(), AllocError>
    ensures { OnOk result (HasAdded text.old text.new (rate_tables version rates.now)) }
{
    if is_own(version, rates) {
        Ok(())
    } else {
        push_rates(text, rates)
    }
}

/// Adds the name and the offset of a node.
#[tactic(auto, unfolding(crate::specs::Written::name_lines))]
fn push_name(text: &mut String, node: &NodeText) -> Result<(), AllocError>
    ensures { OnOk result (HasAdded text.old text.new (name_lines node.now)) }
{
    let (name, offset) = (node.name.as_str(), node.offset);
    write!(text, "name = \"{name}\"\noffset = {offset}\n")
}

/// Adds the keys of a node's own table.
#[tactic(auto, unfolding(crate::specs::Written::node_keys))]
fn push_node_keys(text: &mut String, version: u64, node: &NodeText) -> Result<(), AllocError>
    ensures { OnOk result (HasAdded text.old text.new (node_keys version node.now)) }
{
    push_name(text, node)?;
    push_own_clocks(text, version, node.rates.as_slice())?;
    push_segments(text, node)?;
    push_place(text, node)?;
    push_number(text, "tolerance", widened(node.tolerance))?;
    push_flag(text, "listen", node.listens)?;
    push_queue(text, node.queue)?;
    push_number(text, "until", node.until)
}

/// Adds the table of a node, with those of its rates and frames.
fn push_node(text: &mut String, version: u64, node: &NodeText) -> Result<(), AllocError>
    ensures { OnOk result (HasAdded text.old text.new (node_lines version node.now)) }
{
    push_header(text, "node")?;
    push_node_keys(text, version, node)?;
    push_rate_tables(text, version, node.rates.as_slice())?;
    push_frames(text, node.frame.as_slice())
}

/// Adds the tables of nodes.
fn push_nodes(text: &mut String, version: u64, nodes: &[NodeText]) -> Result<(), AllocError>
    ensures { OnOk result (HasAdded text.old text.new (flat_map (node_lines version) nodes.now)) }
{
    for node in nodes {
        push_node(text, version, node)?;
    }
    Ok(())
}

/// Adds where a disturbance is: at one node, or at a place on the cable.
#[tactic(auto, unfolding(crate::specs::Written::spot_line))]
fn push_spot(text: &mut String, node: &Option<Text>, x: u32) -> Result<(), AllocError>
    ensures { OnOk result (HasAdded text.old text.new (spot_line node.now x)) }
{
    match node {
        Some(name) => {
            let name = name.as_str();
            write!(text, "node = \"{name}\"\n")
        }
        None => write!(text, "x = {x}\n"),
    }
}

/// Adds from when to when a disturbance is.
#[tactic(auto, unfolding(crate::specs::Written::interval_lines))]
fn push_interval(text: &mut String, disturbance: &DisturbanceText) -> Result<(), AllocError>
    ensures { OnOk result (HasAdded text.old text.new (interval_lines disturbance.now)) }
{
    let (from, to) = (disturbance.from, disturbance.to);
    write!(text, "from = {from}\nto = {to}\n")
}

/// Adds the table of a disturbance.
fn push_disturbance(text: &mut String, disturbance: &DisturbanceText) -> Result<(), AllocError>
    ensures { OnOk result (HasAdded text.old text.new (disturbance_lines disturbance.now)) }
{
    push_header(text, "disturbance")?;
    push_spot(text, &disturbance.node, disturbance.x)?;
    push_interval(text, disturbance)
}

/// Adds the tables of disturbances.
fn push_disturbances(text: &mut String, disturbances: &[DisturbanceText]) -> Result<(), AllocError>
    ensures { OnOk result (HasAdded text.old text.new (flat_map disturbance_lines disturbances.now)) }
{
    for disturbance in disturbances {
        push_disturbance(text, disturbance)?;
    }
    Ok(())
}

/// Adds a plan text as TOML, key by key in the order of the format. Refused only when out of memory.
pub fn push_plan(text: &mut String, plan: &PlanText) -> Result<(), AllocError>
    ensures { OnOk result (HasAdded text.old text.new (plan_words plan.now)) }
{
    push_top(text, plan)?;
    push_measure(text, "tick", "fs", plan.tick)?;
    push_measure(text, "unit", "um", plan.unit)?;
    push_nodes(text, plan.version, plan.node.as_slice())?;
    push_disturbances(text, plan.disturbance.as_slice())
}

/// Returns a plan text as TOML, as `push_plan` adds it. What is returned is read as the same plan text, if that keeps to the bounds of its keys.
#[tactic(auto, using(crate::proofs::PlanBack::printed_text))]
pub fn plan_text(alloc: Global, plan: &PlanText) -> Result<String, AllocError>
    ensures text { IfOk result (λ text. string_bytes text ≡ plan_words plan.now) }
    ensures reads_back { IfOk result (λ text. PrintsBack plan.now (string_bytes text)) }
{
    printed_is_read();
    let mut text = String::new(alloc);
    push_plan(&mut text, plan)?;
    Ok(text)
}
