//! How a bit is parted.
ghost use Rattle.std.specs.Prelude.{◌≡◌, ◌≤◌, ◌<◌, ◌^◌};
ghost use Rattle.wl_settings.specs.Settings.{fit_parts, quanta_after_sample, quanta_of_tseg1, quanta_of_parts, segments_by};

use wl_segments::{Segments, SegmentsFault};

/// The segments of a bit but for SYNC_SEG, in quanta, as the registers of a controller hold them.
#[derive(Clone, Copy, Debug, PartialEq, Eq)]
pub enum Parts {
    /// PROP_SEG, PHASE_SEG1 and PHASE_SEG2, each by itself.
    Each { prop: u16, ps1: u16, ps2: u16 },
    /// PROP_SEG and PHASE_SEG1 as one length, TSEG1, and PHASE_SEG2 as TSEG2.
    Joint { tseg1: u16, tseg2: u16 },
}

impl Parts {
    /// Returns the quanta of the bit.
    pub fn quanta(self) -> u64
        ensures value { result ≡ quanta_of_parts self }
        ensures after { quanta_after_sample self < result }
        ensures most { result < 2 ^ 18 }
    {
        match self {
            Parts::Each { prop, ps1, ps2 } => 1 + prop as u64 + ps1 as u64 + ps2 as u64,
            Parts::Joint { tseg1, tseg2 } => 1 + tseg1 as u64 + tseg2 as u64,
        }
    }

    /// Returns the quanta of PROP_SEG and PHASE_SEG1 together: at most 2^17.
    pub fn before_sample(self) -> u32
        ensures { result ≡ quanta_of_tseg1 self }
    {
        match self {
            Parts::Each { prop, ps1, .. } => prop as u32 + ps1 as u32,
            Parts::Joint { tseg1, .. } => tseg1 as u32,
        }
    }

    /// Returns the quanta after the sample: PHASE_SEG2.
    pub fn after_sample(self) -> u16
        ensures { result ≡ quanta_after_sample self }
    {
        match self {
            Parts::Each { ps2, .. } => ps2,
            Parts::Joint { tseg2, .. } => tseg2,
        }
    }

    /// Returns the segments with this jump width, or why there are none.
    pub(crate) fn segments(self, sjw: u16) -> Result<Segments, SegmentsFault>
        ensures { result ≡ segments_by self sjw }
    {
        match self {
            Parts::Each { prop, ps1, ps2 } => Segments::new(
                prop as u64,
                ps1 as u64,
                ps2 as u64,
                sjw as u64,
            ),
            Parts::Joint { tseg1, tseg2 } => Segments::of_controller(
                tseg1 as u64,
                tseg2 as u64,
                sjw as u64,
            ),
        }
    }

    /// True if the registers are the same, and each segment is at most the greatest.
    pub(crate) fn fit(self, greatest: Parts) -> bool
        ensures { result ≡ fit_parts greatest self }
    {
        match (greatest, self) {
            (
                Parts::Each { prop, ps1, ps2 },
                Parts::Each {
                    prop: a,
                    ps1: b,
                    ps2: c,
                },
            ) => a <= prop && b <= ps1 && c <= ps2,
            (Parts::Joint { tseg1, tseg2 }, Parts::Joint { tseg1: a, tseg2: b }) => a <= tseg1
                && b <= tseg2,
            _ => false,
        }
    }
}
