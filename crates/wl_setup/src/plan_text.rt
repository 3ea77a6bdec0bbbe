//! What a plan's text says, key by key, with the numbers as they are written.
use crate::text::Text;
use wl_level::Listed;
use wl_segments::SyncRules;

/// A plan as it is written: one field for each key of the top table.
///
/// Nothing is known of the numbers but the bounds of their keys: whole numbers are below 2^48.
#[derive(Debug, Drop)]
pub struct PlanText {
    /// The version of the text: 1 to 4.
    pub version: u64,
    /// The tick at which the plan ends.
    pub end: u64,
    /// Ticks that a level takes along one unit of length.
    pub per: u64,
    /// The nodes, in the order of their tables.
    pub node: Listed<NodeText>,
    /// The disturbances, none if the key is absent.
    pub disturbance: Listed<DisturbanceText>,
    /// Where SYNC_SEG lies in a bit that an edge begins, at all nodes: after the edge if the key is absent.
    pub sync: SyncRules,
    /// The length of a tick in femtoseconds, if it is said. No run uses it.
    pub tick: Option<u64>,
    /// The length of a unit of length in micrometres, if it is said. No run uses it.
    pub unit: Option<u64>,
}

/// How fast a clock goes, as it is written.
#[derive(Clone, Copy, Debug, PartialEq, Eq)]
pub enum ClockText {
    /// A quantum takes `num / den` ticks.
    Rate { num: u64, den: u64 },
    /// A quantum takes `quantum` ticks, but for a deviation of `ppm` parts per million, from -10^9 to 10^9.
    Ppm { quantum: u64, ppm: i64 },
    /// A quantum takes `num / den` ticks, but for a deviation of `ppm` parts per million, from -10^9 to 10^9.
    Fraction { num: u64, den: u64, ppm: i64 },
}

/// Which of the frames that are ready a node sends first, as it is written.
#[derive(Clone, Copy, Debug, PartialEq, Eq)]
pub enum QueueText {
    /// The one that became ready first: `queue = "fifo"`, or no key.
    Fifo,
    /// The one that wins the arbitration: `queue = "priority"`.
    Priority,
}

/// A rate of a node's clock as it is written.
#[derive(Clone, Copy, Debug, PartialEq, Eq)]
pub struct RateText {
    /// The first quantum at this rate, counted from 0.
    pub from: u64,
    /// The keys `num` and `den`, or `quantum` and `ppm`, or all but `quantum`.
    pub clock: ClockText,
}

/// The segments of a bit as they are written, but for the resynchronisation jump width.
#[derive(Clone, Copy, Debug, PartialEq, Eq)]
pub enum SegmentsText {
    /// Each by itself: the keys `prop`, `ps1` and `ps2`, quanta of PROP_SEG, PHASE_SEG1 and PHASE_SEG2.
    Each { prop: u64, ps1: u64, ps2: u64 },
    /// A controller's: the keys `tseg1`, quanta of PROP_SEG and PHASE_SEG1 together, and `tseg2`, quanta of PHASE_SEG2.
    Controller { tseg1: u64, tseg2: u64 },
}

/// A node as it is written: one field for each key, one for those of its segments, and one for two clock keys of its own.
#[derive(Debug, Drop)]
pub struct NodeText {
    /// 1 to 32 ASCII letters, digits, `_` or `-`.
    pub name: Text,
    /// The tick at which quantum 0 begins.
    pub offset: u64,
    /// The rates of the clock, in the order of their tables; without tables the one, from quantum 0 on, that the keys
    /// `num` and `den`, or `quantum` and `ppm`, say.
    pub rates: Listed<RateText>,
    /// The segments of a bit.
    pub segments: SegmentsText,
    /// Quanta of the resynchronisation jump width.
    pub sjw: u64,
    /// The place on the cable, in units of length, below 2^31.
    pub x: u32,
    /// The key `out`: ticks that a level takes from the node to the cable.
    pub out_delay: u64,
    /// The key `in`: ticks that it takes from the cable to the node.
    pub in_delay: u64,
    /// The frames that wait at the node, in the order of their tables, none if the key is absent.
    pub frame: Listed<FrameText>,
    /// By how many parts per million each rate may deviate either way from what it is without `ppm`: at most 100,000. No run uses it.
    pub tolerance: Option<u32>,
    /// Whether the node only listens, false if the key is absent.
    pub listens: bool,
    /// Which frame it sends first, `Fifo` if the key is absent.
    pub queue: QueueText,
    /// The tick from which on the node is unplugged, if it ever is.
    pub until: Option<u64>,
}

/// A frame that waits at a node, as it is written.
#[derive(Debug, Drop)]
pub struct FrameText {
    /// The identifier, below 2^31.
    pub id: u32,
    /// The data length code, below 2^31.
    pub dlc: u32,
    /// Whether it is a remote frame, false if the key is absent.
    pub remote: bool,
    /// The data bytes, none if the key is absent.
    pub bytes: Listed<u8>,
    /// The quantum of the node from which on the frame may be sent, 0 if the key is absent.
    pub ready: u64,
    /// Whether it is an extended frame, false if the key is absent.
    pub extended: bool,
    /// After how many quanta it becomes ready again, if it does.
    pub every: Option<u64>,
    /// How many times it becomes ready at most, if that is said.
    pub count: Option<u64>,
    /// Within how many ticks after it becomes ready the frame has to be sent, if that is said. No run uses it.
    pub deadline: Option<u64>,
    /// By how many ticks at most it becomes ready later than it should, if that is said. No run uses it.
    pub jitter: Option<u64>,
}

/// A disturbance as it is written: at a place of the cable, or at one node, something drives dominant for a while.
#[derive(Debug, Drop)]
pub struct DisturbanceText {
    /// The name of the node, if it is at one.
    pub node: Option<Text>,
    /// The place on the cable, in units of length, below 2^31; 0 if it is at a node.
    pub x: u32,
    /// The first tick.
    pub from: u64,
    /// The first tick after it.
    pub to: u64,
}
