//! The units in which times are said.
ghost use Rattle.std.specs.Prelude.{◌≡◌, ◌<◌, ◌^◌};
ghost use Rattle.wl_bound.specs.Families.{member_at};
ghost use Rattle.wl_bound.specs.Oscillators.{shortest_of};
ghost use Rattle.wl_margin.specs.Sentences.{measure_of, picoseconds_around, picoseconds_within, quanta_around, quanta_within};

use std::marker::Model;
use wl_bound::Family;

const MILLION: u128 = 1_000_000;

/// The longest time that is said, 2^100 millionths of a tick.
const LONGEST_TIME: u128 = 1 << 100;

/// How long a tick of a plan takes, below 2^36 picoseconds, and how long a quantum of a node, above 0 millionths of a tick.
#[derive(Clone, Copy)]
pub(crate) struct Units {
    tick: u64,
    quantum: u128,
}

impl Model for Units {
    ghost use Rattle.wl_margin.specs.Sentences.{IsMeasure, Measure};

    ghost Value = { Measure };

    ghost view = { λ u. record { tick = u.tick; quantum = u.quantum } };

    ghost inverse = { λ m. record { tick = m.tick; quantum = m.quantum } };

    ghost invariant = { λ u. IsMeasure (record { tick = u.tick; quantum = u.quantum }) };
}

impl Units {
    /// Returns the units of a tick of this many picoseconds and a quantum of this many millionths of a tick.
    pub(crate) fn new(tick: u64, quantum: u128) -> Units
        requires tick { tick < 2 ^ 36 }
        requires quantum { 0 < quantum }
        ensures { result ≡ record { tick = tick; quantum = quantum } }
    {
        Units { tick, quantum }
    }

    /// Returns a tick in picoseconds.
    fn tick(self) -> u128
        ensures tick { result ≡ self.tick }
        ensures short { result < 2 ^ 36 }
    {
        self.tick as u128
    }

    /// Returns a quantum in millionths of a tick.
    fn quantum(self) -> u128
        ensures quantum { result ≡ self.quantum }
        ensures some { 0 < result }
    {
        self.quantum
    }

    /// Returns a time in picoseconds, rounded down. The time is in millionths of a tick; what is longer than 2^100 is taken for that.
    pub(crate) fn picoseconds_within(self, time: u128) -> u128
        ensures { result ≡ picoseconds_within self time }
    {
        let tick = self.tick();
        let time = time.min(LONGEST_TIME);
        time / MILLION * tick + time % MILLION * tick / MILLION
    }

    /// Returns a time in picoseconds, rounded up. The time is in millionths of a tick; what is longer than 2^100 is taken for that.
    pub(crate) fn picoseconds_around(self, time: u128) -> u128
        ensures { result ≡ picoseconds_around self time }
    {
        let tick = self.tick();
        let time = time.min(LONGEST_TIME);
        time / MILLION * tick + (time % MILLION * tick).div_ceil(MILLION)
    }

    /// Returns a time in hundredths of a quantum, rounded down. The time is in millionths of a tick; what is longer than 2^100 is taken for that.
    pub(crate) fn quanta_within(self, time: u128) -> u128
        ensures { result ≡ quanta_within self time }
    {
        100 * time.min(LONGEST_TIME) / self.quantum()
    }

    /// Returns a time in hundredths of a quantum, rounded up. The time is in millionths of a tick; what is longer than 2^100 is taken for that.
    pub(crate) fn quanta_around(self, time: u128) -> u128
        ensures { result ≡ quanta_around self time }
    {
        (100 * time.min(LONGEST_TIME)).div_ceil(self.quantum())
    }
}

/// Returns the shortest quantum of node `i` in millionths of a tick; a tick for a node that isn't there.
fn shortest(family: &Family, i: u8) -> u128
    ensures { result ≡ shortest_of (member_at family.now i).oscillator 0 }
{
    if i < family.nodes() {
        family.member(i).oscillator.shortest()
    } else {
        1_000_000
    }
}

/// Returns the units in which times at node `i` are said.
pub(crate) fn units_at(family: &Family, tick: u64, i: u8) -> Units
    requires { tick < 2 ^ 36 }
    ensures { result ≡ measure_of tick family.now i }
{
    Units::new(tick, shortest(family, i).max(1))
}
