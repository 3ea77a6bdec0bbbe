//! What is wrong at each fault of a plan's text, and what to change: tables, which the definitions of `specs/Remedies.antt` read. The words of
//! changes are those of the table of faults in `docs/use/commands.md`.
ghost use Rattle.std.specs.Prelude.{◌≡◌, map};
ghost use Rattle.wl_explain.specs.Remedies.{cause, cause_in, clock_name, fault_name, frame_name, listed, plan_name, remedy, remedy_in, segments_name, topology_name, wide_remedy};

use wl_clock::ClockFault;
use wl_frame::frame::FrameFault;
use wl_plan::PlanFault;
use wl_segments::SegmentsFault;
use wl_setup::SetupFault;
use wl_topology::TopologyFault;

/// What is wrong, by the fault's name.
#[rattlefmt::skip]
const CAUSES: [(&str, &str); 37] = [
    ("Toml", "the text is no TOML 1.1"),
    ("Version", "the version is none that is known"),
    ("Missing", "it has to be there"),
    ("Kind", "the value is of another kind or out of its bounds"),
    ("Unknown", "the key has no place there"),
    ("SameName", "two nodes have one name"),
    ("Size", "the text has more than 1,048,576 bytes"),
    ("Read", "the text could not be read"),
    ("Memory", "memory was refused"),
    ("BadPpm", "ppm is out of its bounds"),
    ("ZeroDen", "den is 0"),
    ("TooFast", "a quantum takes less than a tick"),
    ("TooSlow", "a quantum takes more than 1,048,576 ticks"),
    ("BigOffset", "offset is above 1,048,576 ticks"),
    ("BigDen", "den is above 1,000,000"),
    ("NoRates", "there is no rate"),
    ("TooManyRates", "there are more than 16 rates"),
    ("RateOrder", "the rates are not in the order of their from, from 0 on"),
    ("BadFrom", "a rate begins after quantum 1,048,576"),
    ("Prop", "prop is out of its bounds"),
    ("Phase1", "ps1 is out of its bounds"),
    ("Phase2", "ps2 is out of its bounds"),
    ("Jump", "sjw is out of its bounds or above ps1"),
    ("Length", "a bit has fewer than 8 quanta"),
    ("Id", "id is above 0x7FF in a base frame"),
    ("Dlc", "dlc is above 15"),
    ("DataLength", "the bytes are not as many as dlc says, or a remote frame has some"),
    ("ExtendedId", "id is above 0x1FFFFFFF"),
    ("NoNodes", "there is no node"),
    ("TooManyNodes", "there are more than 16 nodes"),
    ("ZeroDelay", "a level takes no tick from the one to the other"),
    ("TooLong", "a level takes more than 1,048,576 ticks from the one to the other"),
    ("Nodes", "the places are not as many as the nodes"),
    ("End", "end is above 68,719,476,736 ticks"),
    ("Quanta", "more quanta begin before end than may"),
    ("Queue", "more than 64 frames wait, or 4,096 in version 3"),
    ("Disturbance", "it ends before it begins, ends too late, is too far from a node, names no node, or is one of more than 64"),
];

/// What to change, by the fault's name, if no key is named.
#[rattlefmt::skip]
const CHANGES: [(&str, &str); 34] = [
    ("Toml", "Correct the TOML there."),
    ("Version", "Set `version = 1`, `version = 2` for rates that change, `version = 3` for frames that come again, listeners and disturbances at one node, or `version = 4` for controllers with `tseg1` and for greater limits."),
    ("SameName", "Give each node a name of its own."),
    ("Size", "Shorten the plan to 1,048,576 bytes."),
    ("Read", "Check that standard input is a file or a pipe that can be read."),
    ("Memory", "Free memory, or raise the limit that the program runs under."),
    ("BadPpm", "Set `ppm` from -100,000 to 100,000 (a positive one is slow)."),
    ("ZeroDen", "Give `den` from 1 to 1,000,000."),
    ("TooFast", "Choose a smaller tick, so that a quantum takes at least one."),
    ("TooSlow", "Choose a greater tick, so that a quantum takes at most 1,048,576."),
    ("BigOffset", "Give an offset of at most 1,048,576."),
    ("BigDen", "Give the rate with a denominator of at most 1,000,000."),
    ("NoRates", "Give at least the rate from quantum 0 on."),
    ("TooManyRates", "Keep at most 16 rates a node."),
    ("RateOrder", "Begin with `from = 0`, and put the rates in the order of their `from`, no two alike."),
    ("BadFrom", "Leave out rates that begin later than quantum 1,048,576."),
    ("Prop", "Set `prop` from 1 to 8."),
    ("Phase1", "Set `ps1` from 1 to 8."),
    ("Phase2", "Set `ps2` from 2 to 8."),
    ("Jump", "Set `sjw` from 1 to 4 and at most `ps1`."),
    ("Length", "Lengthen the segments to 8 to 25 quanta in all."),
    ("Id", "Set `id` from 0 to 0x7FF, or `extended = true` for an identifier of 29 bits."),
    ("Dlc", "Set `dlc` from 0 to 15."),
    ("DataLength", "Give as many bytes as `dlc` says, and a remote frame none."),
    ("ExtendedId", "Set `id` to at most 0x1FFFFFFF."),
    ("NoNodes", "Add a `[[node]]`."),
    ("TooManyNodes", "Keep at most 16 nodes."),
    ("ZeroDelay", "Give each node an `out` or an `in` of at least 1 tick."),
    ("TooLong", "Shorten the way from the one node to the other, or choose a greater tick."),
    ("Nodes", "Give each node a place."),
    ("End", "Set `end` to at most 68,719,476,736."),
    ("Quanta", "Lower `end` to at most `offset` + 1,048,576 quanta of that node in ticks (786,432 for `sync = \"book\"` with `prop` and `ps1` of 1)."),
    ("Queue", "Keep at most 64 frames a node, or 4,096 in version 3."),
    ("Disturbance", "Give at most 64 disturbances, each with `from` below `to`, and near enough to each node or at a node of the plan."),
];

/// What to change if a key is missing, by the key.
#[rattlefmt::skip]
const MISSING: [(&str, &str); 6] = [
    ("version", "Pass a plan on standard input, with `version = 1` at its top."),
    ("num", "Give it `quantum` and `ppm`, or `num` and `den`."),
    ("rates", "Give each node its rates, as `rates = [{ from = 0, num = 100, den = 1 }]`."),
    ("every", "Give `every` beside `count`: the quanta from one instance to the next."),
    ("tseg1", "Give `tseg1` and `tseg2`, or `prop`, `ps1` and `ps2` in their place."),
    ("tseg2", "Give `tseg1` and `tseg2`, or `prop`, `ps1` and `ps2` in their place."),
];

/// What to change if another key is missing.
const MISSING_OTHER: &str =
    "Add the key to the table that lacks it, or correct its spelling there.";

/// What to change if the value of a key is of another kind, by the key.
#[rattlefmt::skip]
const KIND: [(&str, &str); 19] = [
    ("version", "Set `version = 1`, `version = 2`, `version = 3` or `version = 4`."),
    ("end", "Give `end` as a whole number of ticks, up to 281,474,976,710,655."),
    ("name", "Give `name` as 1 to 32 ASCII letters, digits, `_` or `-`."),
    ("x", "Give `x` as a whole number from 0 to 2,147,483,647; choose a smaller unit of length for parts of one."),
    ("id", "Give `id` as a whole number from 0 to 0x7FF, or to 0x1FFFFFFF beside `extended = true`."),
    ("sync", "Set `sync = \"after\"` or `sync = \"book\"`, or leave it out."),
    ("dlc", "Give `dlc` as a whole number from 0 to 15."),
    ("ppm", "Give `ppm` as a whole number from -100,000 to 100,000."),
    ("tolerance", "Give `tolerance` as a whole number of ppm from 0 to 100,000, without a sign."),
    ("remote", "Write `remote = true`, or leave the key out."),
    ("extended", "Write `extended = true`, or leave the key out."),
    ("bytes", "Give `bytes` as an array of numbers from 0 to 255."),
    ("node", "Write each node under a header `[[node]]`; of a disturbance give `node` as a name."),
    ("rates", "Write each rate under a header `[[node.rates]]`."),
    ("frame", "Write each frame under a header `[[node.frame]]`."),
    ("disturbance", "Write each disturbance under a header `[[disturbance]]`."),
    ("every", "Give `every` as a whole number of quanta, from 1 on."),
    ("count", "Give `count` as a whole number, from 1 on."),
    ("listen", "Write `listen = true`, or leave the key out."),
];

/// What to change if the value of another key is of another kind.
const KIND_OTHER: &str =
    "Give the key a whole number from 0 to 281,474,976,710,655; choose a smaller tick for parts of one, or `num` and `den` for a quantum.";

/// What to change if a key has no place in its table, by the key.
#[rattlefmt::skip]
const UNKNOWN: [(&str, &str); 12] = [
    ("num", "Keep `quantum` and `ppm`, or `num` and `den`, but not both; in version 2 put them into a rate."),
    ("den", "Keep `quantum` and `ppm`, or `num` and `den`, but not both; in version 2 put them into a rate."),
    ("ppm", "Remove `ppm`, or give `quantum` in the place of `num` and `den`; in version 2 put them into a rate."),
    ("quantum", "Put `quantum` and `ppm` into a rate."),
    ("rates", "Set `version = 2`, and remove the node's own clock keys."),
    ("every", "Put the key into a frame of a plan with `version = 3`, or remove it."),
    ("count", "Put the key into a frame of a plan with `version = 3`, or remove it."),
    ("listen", "Put the key into a node of a plan with `version = 3`, or remove it."),
    ("node", "Set `version = 3`, and give a disturbance `node` or `x`, but not both."),
    ("x", "Remove the key; a disturbance has `x` or `node`, but not both."),
    ("tseg1", "Put the key into a node of a plan with `version = 4`, or remove it."),
    ("tseg2", "Put the key into a node of a plan with `version = 4`, or remove it."),
];

/// What to change if another key has no place in its table.
const UNKNOWN_OTHER: &str = "Remove the key, or correct its spelling.";

/// What is wrong by the limits of version 4, by the fault's name, if it is something else then.
#[rattlefmt::skip]
const WIDE_CAUSES: [(&str, &str); 6] = [
    ("BigOffset", "offset is above 17,179,869,184 ticks"),
    ("BadFrom", "a rate begins after quantum 1,073,741,824"),
    ("TooManyNodes", "there are more than 64 nodes"),
    ("End", "end is above 1,099,511,627,776 ticks"),
    ("Queue", "more than 65,536 frames wait"),
    ("Disturbance", "it ends before it begins, ends too late, is too far from a node, names no node, or is one of more than 256"),
];

/// What to change by these limits.
#[rattlefmt::skip]
const WIDE_CHANGES: [(&str, &str); 7] = [
    ("BigOffset", "Give an offset of at most 17,179,869,184."),
    ("BadFrom", "Leave out rates that begin later than quantum 1,073,741,824."),
    ("TooManyNodes", "Keep at most 64 nodes."),
    ("End", "Set `end` to at most 1,099,511,627,776."),
    ("Quanta", "Lower `end` to at most `offset` + 1,073,741,824 quanta of that node in ticks (805,306,368 for `sync = \"book\"` with the sample at place 3)."),
    ("Queue", "Keep at most 65,536 frames a node."),
    ("Disturbance", "Give at most 256 disturbances, each with `from` below `to`, and near enough to each node or at a node of the plan."),
];

/// What to change in version 4 if a key has no place in its table, by the key, if it is something else then.
#[rattlefmt::skip]
const WIDE_UNKNOWN: [(&str, &str); 3] = [
    ("prop", "Remove the key; a node has `tseg1` and `tseg2`, or `prop`, `ps1` and `ps2`, but not both."),
    ("ps1", "Remove the key; a node has `tseg1` and `tseg2`, or `prop`, `ps1` and `ps2`, but not both."),
    ("ps2", "Remove the key; a node has `tseg1` and `tseg2`, or `prop`, `ps1` and `ps2`, but not both."),
];

/// What to change in version 4 if a key is missing, by the key, if it is something else then.
#[rattlefmt::skip]
const WIDE_MISSING: [(&str, &str); 3] = [
    ("tick", "Add the length of a tick at the top, as `tick = \"1ns\"`: a text with a unit asks for it."),
    ("clock", "Give the frequency of the clock, as `clock = \"16MHz\"`, beside `prescaler` or `bitrate`."),
    ("prescaler", "Give `prescaler`, or `bitrate` in its place."),
];

/// What to change in version 4 if the value of a key is of another kind, by the key, if it is something else then.
#[rattlefmt::skip]
const WIDE_KIND: [(&str, &str); 11] = [
    ("tick", "Give `tick` as a text with a time up to 1 ms, as `tick = \"1ns\"` or `tick = \"12.5ns\"`."),
    ("unit", "Give `unit` as a text with a length up to 100 m, as `unit = \"1m\"`, or leave it out."),
    ("controller", "Write each controller under a header `[controller.NAME]`, and name one of them at the node."),
    ("kind", "Name a known kind of controllers, or leave the key out."),
    ("clock", "Give `clock` as a text with a whole number of Hz, as `clock = \"16MHz\"`."),
    ("prescaler", "Give `prescaler` as a whole number from 1 on, which the kind of controllers takes."),
    ("bitrate", "Give `bitrate` as a text, as `bitrate = \"500k\"`, with a rate that the clock gives exactly by these segments and prescaler."),
    ("queue", "Set `queue = \"fifo\"` or `queue = \"priority\"`, or leave it out."),
    ("cycle", "Give `cycle` as a time of one or more whole quanta of the node, which has one rate, or give `every`, but not both."),
    ("at", "Give `at` as a time of the plan at a node with one rate, or give `ready`, but not both."),
    ("noise", "Give `noise` as a table, as `noise = { rate = 4, length = \"2us\", seed = 1 }`, with a rate and an end that make at most 256 disturbances."),
];

/// What is wrong with the segments of a controller, by the fault's name, if it is something else than with those that are set one by one.
#[rattlefmt::skip]
const CONTROLLER_CAUSES: [(&str, &str); 3] = [
    ("Phase1", "tseg1 is out of its bounds"),
    ("Phase2", "tseg2 is out of its bounds"),
    ("Jump", "sjw is out of its bounds, above tseg1 - 1 or above tseg2"),
];

/// What to change of them.
#[rattlefmt::skip]
const CONTROLLER_CHANGES: [(&str, &str); 4] = [
    ("Phase1", "Set `tseg1` from 2 to 256."),
    ("Phase2", "Set `tseg2` from 2 to 128."),
    ("Jump", "Set `sjw` from 1 to 128, at most `tseg1` - 1 and at most `tseg2`."),
    ("Length", "Lengthen the segments to 8 to 385 quanta in all."),
];

/// By which words a fault of a plan's text is explained.
#[derive(Clone, Copy, Debug, PartialEq, Eq)]
pub enum TextForm {
    /// Those of versions 1 to 3.
    Narrow,
    /// Those of version 4, with its limits.
    Wide,
    /// Those of version 4, on the segments of a controller.
    Controller,
}

/// Returns the text at a name in a table; another text if the table hasn't the name.
fn listed(
    rows: &'static [(&'static str, &'static str)],
    name: &str,
    other: &'static str,
) -> &'static str
    ensures { result.now ≡ listed (map (λ r. (r.0.now, r.1.now)) rows.now) name.now other.now }
{
    for row in rows {
        if name == row.0 {
            return row.1;
        }
    }
    other
}

fn clock_name(fault: ClockFault) -> &'static str
    ensures { result.now ≡ clock_name fault }
{
    match fault {
        ClockFault::BadPpm => "BadPpm",
        ClockFault::ZeroDen => "ZeroDen",
        ClockFault::TooFast => "TooFast",
        ClockFault::TooSlow => "TooSlow",
        ClockFault::BigOffset => "BigOffset",
        ClockFault::BigDen => "BigDen",
        ClockFault::NoRates => "NoRates",
        ClockFault::TooManyRates => "TooManyRates",
        ClockFault::RateOrder => "RateOrder",
        ClockFault::BadFrom => "BadFrom",
    }
}

fn segments_name(fault: SegmentsFault) -> &'static str
    ensures { result.now ≡ segments_name fault }
{
    match fault {
        SegmentsFault::Prop => "Prop",
        SegmentsFault::Phase1 => "Phase1",
        SegmentsFault::Phase2 => "Phase2",
        SegmentsFault::Jump => "Jump",
        SegmentsFault::Length => "Length",
    }
}

fn frame_name(fault: FrameFault) -> &'static str
    ensures { result.now ≡ frame_name fault }
{
    match fault {
        FrameFault::Id => "Id",
        FrameFault::Dlc => "Dlc",
        FrameFault::DataLength => "DataLength",
        FrameFault::ExtendedId => "ExtendedId",
    }
}

fn topology_name(fault: TopologyFault) -> &'static str
    ensures { result.now ≡ topology_name fault }
{
    match fault {
        TopologyFault::NoNodes => "NoNodes",
        TopologyFault::TooManyNodes => "TooManyNodes",
        TopologyFault::ZeroDelay(_, _) => "ZeroDelay",
        TopologyFault::TooLong(_, _) => "TooLong",
    }
}

fn plan_name(fault: PlanFault) -> &'static str
    ensures { result.now ≡ plan_name fault }
{
    match fault {
        PlanFault::Nodes => "Nodes",
        PlanFault::End => "End",
        PlanFault::Quanta(_) => "Quanta",
        PlanFault::Queue(_) => "Queue",
        PlanFault::Disturbance(_) => "Disturbance",
    }
}

/// Returns the name of a fault, without its numbers and keys.
fn fault_name(fault: &SetupFault) -> &'static str
    ensures { result.now ≡ fault_name fault.now }
{
    match fault {
        SetupFault::Toml => "Toml",
        SetupFault::Version => "Version",
        SetupFault::Missing(_) => "Missing",
        SetupFault::Kind(_) => "Kind",
        SetupFault::Unknown(_) => "Unknown",
        SetupFault::SameName => "SameName",
        SetupFault::Size => "Size",
        SetupFault::NodeClock(_, f) => clock_name(*f),
        SetupFault::NodeSegments(_, f) => segments_name(*f),
        SetupFault::NodeFrame(_, _, f) => frame_name(*f),
        SetupFault::Topology(f) => topology_name(*f),
        SetupFault::Plan(f) => plan_name(*f),
        SetupFault::Read => "Read",
        SetupFault::Memory => "Memory",
    }
}

/// Returns what is wrong at a fault.
pub fn cause(fault: &SetupFault) -> &'static str
    ensures { result.now ≡ cause fault.now }
{
    listed(&CAUSES, fault_name(fault), "")
}

/// Returns what to change at a fault.
pub fn remedy(fault: &SetupFault) -> &'static str
    ensures { result.now ≡ remedy fault.now }
{
    match fault {
        SetupFault::Missing(key) => listed(&MISSING, key.as_str(), MISSING_OTHER),
        SetupFault::Kind(key) => listed(&KIND, key.as_str(), KIND_OTHER),
        SetupFault::Unknown(key) => listed(&UNKNOWN, key.as_str(), UNKNOWN_OTHER),
        SetupFault::Toml
        | SetupFault::Version
        | SetupFault::SameName
        | SetupFault::Size
        | SetupFault::NodeClock(_, _)
        | SetupFault::NodeSegments(_, _)
        | SetupFault::NodeFrame(_, _, _)
        | SetupFault::Topology(_)
        | SetupFault::Plan(_)
        | SetupFault::Read
        | SetupFault::Memory => listed(&CHANGES, fault_name(fault), ""),
    }
}

/// Returns what is wrong at a fault, by the words of this form.
pub fn cause_in(form: TextForm, fault: &SetupFault) -> &'static str
    ensures { result.now ≡ cause_in form fault.now }
{
    match form {
        TextForm::Narrow => cause(fault),
        TextForm::Wide => listed(&WIDE_CAUSES, fault_name(fault), cause(fault)),
        TextForm::Controller => listed(&CONTROLLER_CAUSES, fault_name(fault), cause(fault)),
    }
}

/// Returns what to change at a fault by the limits of version 4.
fn wide_remedy(fault: &SetupFault) -> &'static str
    ensures { result.now ≡ wide_remedy fault.now }
{
    match fault {
        SetupFault::Unknown(key) => listed(&WIDE_UNKNOWN, key.as_str(), remedy(fault)),
        SetupFault::Missing(key) => listed(&WIDE_MISSING, key.as_str(), remedy(fault)),
        SetupFault::Kind(key) => listed(&WIDE_KIND, key.as_str(), remedy(fault)),
        SetupFault::Toml
        | SetupFault::Version
        | SetupFault::SameName
        | SetupFault::Size
        | SetupFault::NodeClock(_, _)
        | SetupFault::NodeSegments(_, _)
        | SetupFault::NodeFrame(_, _, _)
        | SetupFault::Topology(_)
        | SetupFault::Plan(_)
        | SetupFault::Read
        | SetupFault::Memory => listed(&WIDE_CHANGES, fault_name(fault), remedy(fault)),
    }
}

/// Returns what to change at a fault, by the words of this form.
pub fn remedy_in(form: TextForm, fault: &SetupFault) -> &'static str
    ensures { result.now ≡ remedy_in form fault.now }
{
    match form {
        TextForm::Narrow => remedy(fault),
        TextForm::Wide => wide_remedy(fault),
        TextForm::Controller => listed(&CONTROLLER_CHANGES, fault_name(fault), remedy(fault)),
    }
}
