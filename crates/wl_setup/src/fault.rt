//! Why a text gives no plan.
use crate::text::Text;
use std::alloc::AllocError;
use thiserror::Error;
use wl_clock::ClockFault;
use wl_frame::frame::FrameFault;
use wl_plan::PlanFault;
use wl_segments::SegmentsFault;
use wl_topology::TopologyFault;

/// Why a text gives no plan. A key is named as it is written in its table, without a path.
#[derive(Debug, Drop, Error)]
pub enum SetupFault {
    /// The text is no TOML, or not UTF-8, or nests deeper than the parser's limit of 80.
    #[error("Toml")]
    Toml,
    /// The version is none that is known.
    #[error("Version")]
    Version,
    /// A required key is not there.
    #[error("Missing({0})")]
    Missing(Text),
    /// The value of a key has another type, or lies outside its bounds.
    #[error("Kind({0})")]
    Kind(Text),
    /// A table has a key that no such table has. It is shown in one line, its control characters as TOML escapes them.
    #[error("Unknown({0})")]
    Unknown(Text),
    /// Two nodes have one name.
    #[error("SameName")]
    SameName,
    /// The text has more than 1,048,576 bytes.
    #[error("Size")]
    Size,
    /// The clock of a node, counted from 0.
    #[error("NodeClock({0}, {1})")]
    NodeClock(u64, ClockFault),
    /// The bit segments of a node, counted from 0.
    #[error("NodeSegments({0}, {1})")]
    NodeSegments(u64, SegmentsFault),
    /// A frame of a node, both counted from 0: first the node, then the frame.
    #[error("NodeFrame({0}, {1}, {2})")]
    NodeFrame(u64, u64, FrameFault),
    /// The places of the nodes.
    #[error("Topology({0})")]
    Topology(TopologyFault),
    /// The plan can't be run.
    #[error("Plan({0})")]
    Plan(PlanFault),
    /// The reader failed, or its calls ran out.
    #[error("Read")]
    Read,
    /// Memory was refused.
    #[error("Memory")]
    Memory,
}

impl From<AllocError> for SetupFault {
    ghost use Rattle.std.specs.Prelude.{◌≡◌};
    ghost use Rattle.wl_setup.specs.declared.fault.SetupFault.TheVariants.{Memory};

    ghost from_gives = { λ _ fault. fault ≡ Memory };

    fn from(_: AllocError) -> SetupFault {
        SetupFault::Memory
    }
}
