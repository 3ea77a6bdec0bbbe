//! The segments of a bit, in quanta, and how much an oscillator may deviate with them.
//!
//! A bit is SYNC_SEG of one quantum, PROP_SEG, PHASE_SEG1 and PHASE_SEG2, and its level is sampled where PHASE_SEG1
//! ends (Bosch CAN 2.0 part B, section 10; ISO 11898-1, bit timing). The length of PHASE_SEG2 is set by itself and
//! isn't derived from PHASE_SEG1: that, and the tolerance test, are this project's profile.
#![tactic(auto)]

ghost use Rattle.std.specs.Prelude.{◌≡◌, ℕ, ◌≤◌, ◌↔◌, IsTrue};
ghost use Rattle.wl_segments.specs.Lengths.{Lengths, AreLengths, IsTolerated, segments_of, controller_segments_of, sample_at, bit_quanta, found_at, least_way};

use std::marker::Model;
use thiserror::Error;

/// Which length is refused.
#[derive(Clone, Copy, Debug, PartialEq, Eq, Error)]
pub enum SegmentsFault {
    /// PROP_SEG isn't 1 to 8 quanta.
    #[error("Prop")]
    Prop,
    /// PHASE_SEG1 isn't 1 to 8 quanta, or TSEG1 isn't 2 to 256.
    #[error("Phase1")]
    Phase1,
    /// PHASE_SEG2 isn't 2 to 8 quanta, or TSEG2 isn't 2 to 128.
    #[error("Phase2")]
    Phase2,
    /// The jump width isn't 1 to 4 quanta, or is above PHASE_SEG1. With TSEG1 and TSEG2 it isn't 1 up to the lesser of TSEG1 - 1 and TSEG2.
    #[error("Jump")]
    Jump,
    /// The bit isn't 8 to 25 quanta long. With TSEG1 and TSEG2 it is below 8 quanta.
    #[error("Length")]
    Length,
}

/// The rules by which edges synchronise a bit. An edge is found by the first quantum that begins on a dominant line.
#[derive(Clone, Copy, Debug, PartialEq, Eq)]
pub enum SyncRules {
    /// The quantum that finds the edge is SYNC_SEG, so the edge lies before it, by a quantum at most: this project's profile.
    After,
    /// The quantum before it is SYNC_SEG, so the edge lies within it, and all rules are those of the book (Bosch CAN 2.0 part B,
    /// section 10; ISO 11898-1, synchronisation), as far as one look a quantum allows.
    Book,
}

/// The segments of a bit and the resynchronisation jump width, in quanta, and the rules by which edges synchronise it.
#[derive(Clone, Copy, Debug, PartialEq, Eq)]
pub struct Segments {
    prop: u16,
    ps1: u16,
    ps2: u16,
    sjw: u16,
    sync: SyncRules,
}

impl Model for Segments {
    ghost Value = { Lengths };

    ghost view = { λ s. record { prop = s.prop; ps1 = s.ps1; ps2 = s.ps2; sjw = s.sjw; sync = s.sync } };

    ghost inverse = { λ l. record { prop = l.prop; ps1 = l.ps1; ps2 = l.ps2; sjw = l.sjw; sync = l.sync } };

    ghost invariant = { λ s. AreLengths (record {
      prop = s.prop;
      ps1 = s.ps1;
      ps2 = s.ps2;
      sjw = s.sjw;
      sync = s.sync;
    }) };
}

impl Segments {
    /// Returns the segments with PROP_SEG, PHASE_SEG1 and PHASE_SEG2 of these quanta, and this jump width. Their rules are `After`.
    ///
    /// Refused as `Prop` (not 1 to 8), `Phase1` (not 1 to 8), `Phase2` (not 2 to 8), `Jump` (not 1 to the lesser of 4 and `ps1`) or
    /// `Length`: all four segments together are below 8 quanta or above 25. If several apply, it is the first of them in this order.
    pub fn new(prop: u64, ps1: u64, ps2: u64, sjw: u64) -> Result<Segments, SegmentsFault>
        ensures { result ≡ segments_of prop ps1 ps2 sjw }
    {
        if prop < 1 || prop > 8 {
            return Err(SegmentsFault::Prop);
        }
        if ps1 < 1 || ps1 > 8 {
            return Err(SegmentsFault::Phase1);
        }
        if ps2 < 2 || ps2 > 8 {
            return Err(SegmentsFault::Phase2);
        }
        if sjw < 1 || sjw > ps1.min(4) {
            return Err(SegmentsFault::Jump);
        }
        let quanta = 1 + prop + ps1 + ps2;
        if quanta < 8 || quanta > 25 {
            return Err(SegmentsFault::Length);
        }
        Ok(Segments {
            prop: prop as u16,
            ps1: ps1 as u16,
            ps2: ps2 as u16,
            sjw: sjw as u16,
            sync: SyncRules::After,
        })
    }

    /// Returns the segments of a controller with TSEG1 (PROP_SEG and PHASE_SEG1 together), TSEG2 (PHASE_SEG2) and the jump width of these
    /// quanta. Their rules are `After`.
    ///
    /// TSEG1 has no PROP_SEG of its own. PHASE_SEG1 is the lesser of `tseg1 - 1` and `tseg2`, since a longer one than PHASE_SEG2 has no use,
    /// and PROP_SEG is the rest. Only [`tolerance_ok`](Self::tolerance_ok) reads the two apart.
    ///
    /// Refused as `Phase1` (`tseg1` isn't 2 to 256), `Phase2` (`tseg2` isn't 2 to 128), `Jump` (`sjw` isn't 1 up to the lesser of
    /// `tseg1 - 1` and `tseg2`) or `Length`: the bit is below 8 quanta. If several apply, it is the first of them in this order.
    pub fn of_controller(tseg1: u64, tseg2: u64, sjw: u64) -> Result<Segments, SegmentsFault>
        ensures { result ≡ controller_segments_of tseg1 tseg2 sjw }
    {
        if tseg1 < 2 || tseg1 > 256 {
            return Err(SegmentsFault::Phase1);
        }
        if tseg2 < 2 || tseg2 > 128 {
            return Err(SegmentsFault::Phase2);
        }
        let ps1 = (tseg1 - 1).min(tseg2);
        if sjw < 1 || sjw > ps1 {
            return Err(SegmentsFault::Jump);
        }
        if 1 + tseg1 + tseg2 < 8 {
            return Err(SegmentsFault::Length);
        }
        Ok(Segments {
            prop: (tseg1 - ps1) as u16,
            ps1: ps1 as u16,
            ps2: tseg2 as u16,
            sjw: sjw as u16,
            sync: SyncRules::After,
        })
    }

    /// Returns the same segments with these rules of synchronisation.
    pub fn with_sync(self, sync: SyncRules) -> Segments
        ensures { result ≡ record self { sync = sync } }
    {
        Segments { sync, ..self }
    }

    /// Returns the rules by which edges synchronise a bit.
    pub fn sync(&self) -> SyncRules
        ensures { result ≡ self.now.sync }
    {
        self.sync
    }

    /// Returns the place, in the bit that an edge begins, of the quantum that finds the edge: 0 or 1.
    pub fn found_at(&self) -> u64
        ensures { result ≡ found_at self.now }
    {
        match self.sync {
            SyncRules::After => 0,
            SyncRules::Book => 1,
        }
    }

    /// Returns the least quanta from the start of a bit up to and including its sample: 2 to 257.
    pub fn least_way(&self) -> u64
        ensures way { result ≡ least_way self.now }
        ensures lengths { AreLengths self.now }
    {
        self.sample_at() - self.found_at()
    }

    /// Returns PROP_SEG: 1 to 255 quanta.
    pub fn prop(&self) -> u64
        ensures prop { result ≡ self.now.prop }
        ensures lengths { AreLengths self.now }
    {
        self.prop as u64
    }

    /// Returns PHASE_SEG1: 1 to 128 quanta.
    pub fn ps1(&self) -> u64
        ensures ps1 { result ≡ self.now.ps1 }
        ensures lengths { AreLengths self.now }
    {
        self.ps1 as u64
    }

    /// Returns PHASE_SEG2: 2 to 128 quanta.
    pub fn ps2(&self) -> u64
        ensures ps2 { result ≡ self.now.ps2 }
        ensures lengths { AreLengths self.now }
    {
        self.ps2 as u64
    }

    /// Returns the resynchronisation jump width: 1 to 128 quanta, and at most PHASE_SEG1.
    pub fn sjw(&self) -> u64
        ensures sjw { result ≡ self.now.sjw }
        ensures lengths { AreLengths self.now }
    {
        self.sjw as u64
    }

    /// Returns the place of the sample in a bit that nothing moved: the quanta of SYNC_SEG, PROP_SEG and PHASE_SEG1.
    pub fn sample_at(&self) -> u64
        ensures place { result ≡ sample_at self.now }
        ensures lengths { AreLengths self.now }
    {
        1 + self.prop() + self.ps1()
    }

    /// Returns the quanta of a bit that nothing moved: 8 to 385.
    pub fn bit_quanta(&self) -> u64
        ensures quanta { result ≡ bit_quanta self.now }
        ensures lengths { AreLengths self.now }
    {
        self.sample_at() + self.ps2()
    }

    /// True if two oscillators that each deviate by `ppm` parts per million stay in step with these segments, by this project's test.
    ///
    /// With B the quanta of a bit this asks two things: `2 * ppm * (13 * B - ps2)` is at most `1000000 * min(ps1, ps2)`, and `20 * ppm * B`
    /// is at most `1000000 * sjw`.
    pub fn tolerance_ok(&self, ppm: u32) -> bool
        ensures { IsTrue result ↔ IsTolerated self.now ppm }
    {
        let quanta = self.bit_quanta();
        let ppm = ppm as u64;
        2 * ppm * (13 * quanta - self.ps2()) <= 1_000_000 * self.ps1().min(self.ps2())
            && 20 * ppm * quanta <= 1_000_000 * self.sjw()
    }

    /// Returns the greatest deviation, in parts per million, that `tolerance_ok` allows.
    pub fn greatest_ppm(&self) -> u32
        ensures reached { IsTolerated self.now result }
        ensures greatest { (ppm : ℕ) → IsTolerated self.now ppm → ppm ≤ result }
    {
        let quanta = self.bit_quanta();
        let flagged = 1_000_000 * self.ps1().min(self.ps2()) / (2 * (13 * quanta - self.ps2()));
        let stuffed = 1_000_000 * self.sjw() / (20 * quanta);
        flagged.min(stuffed) as u32
    }
}
