//! Times as text, and what goes wrong if the condition for a sound bus fails.
ghost use Rattle.std.specs.Prelude.{◌≡◌, ◌++◌, string_bytes, OnOk};
ghost use Rattle.wl_setup.specs.Names.{name_of};
ghost use Rattle.wl_margin.specs.Noise.{spike_line};
ghost use Rattle.wl_margin.specs.Sentences.{amount_words, drift_words, early_words, inequality_words, late_words, loop_words, picoseconds_around, picoseconds_within, quanta_around, quanta_within, sentence, signed_words, spare_words};

use crate::numbers::{Hundredths, Thousandths};
use crate::units::Units;
use std::alloc::AllocError;
use std::fmt;
use wl_bound::{Failure, Inequality, Sides};
use wl_setup::Names;

/// A time in picoseconds and in hundredths of a quantum.
#[derive(Clone, Copy)]
pub(crate) struct Amount {
    picoseconds: u128,
    quanta: u128,
}

impl fmt::Display for Amount {
    ghost use Rattle.std.specs.Prelude.{Some};
    ghost use Rattle.wl_margin.specs.Sentences.{amount_words};

    ghost output = { λ a. Some (amount_words a.picoseconds a.quanta) };

    fn fmt<W: fmt::Write>(&self, f: &mut fmt::Formatter<W>) -> fmt::Result {
        let nanoseconds = Thousandths(self.picoseconds);
        let quanta = Hundredths(self.quanta);
        write!(f, "{nanoseconds} ns ({quanta} quanta)")
    }
}

impl Amount {
    /// Returns a time that there is, rounded down. It is in millionths of a tick.
    pub(crate) fn within(units: Units, time: u128) -> Amount
        ensures picoseconds { result.picoseconds ≡ picoseconds_within units time }
        ensures quanta { result.quanta ≡ quanta_within units time }
    {
        Amount {
            picoseconds: units.picoseconds_within(time),
            quanta: units.quanta_within(time),
        }
    }

    /// Returns a time that is taken, rounded up. It is in millionths of a tick.
    pub(crate) fn around(units: Units, time: u128) -> Amount
        ensures picoseconds { result.picoseconds ≡ picoseconds_around units time }
        ensures quanta { result.quanta ≡ quanta_around units time }
    {
        Amount {
            picoseconds: units.picoseconds_around(time),
            quanta: units.quanta_around(time),
        }
    }
}

/// What is to spare, which may be below 0.
#[derive(Clone, Copy)]
pub(crate) struct Spare {
    is_below: bool,
    amount: Amount,
}

impl fmt::Display for Spare {
    ghost use Rattle.std.specs.Prelude.{Some};
    ghost use Rattle.wl_margin.specs.Sentences.{signed_words};

    ghost output = { λ s. Some (signed_words s.is_below s.amount.picoseconds s.amount.quanta) };

    fn fmt<W: fmt::Write>(&self, f: &mut fmt::Formatter<W>) -> fmt::Result {
        let nanoseconds = Thousandths(self.amount.picoseconds);
        let quanta = Hundredths(self.amount.quanta);
        if self.is_below {
            write!(f, "-{nanoseconds} ns (-{quanta} quanta)")
        } else {
            write!(f, "{nanoseconds} ns ({quanta} quanta)")
        }
    }
}

impl Spare {
    /// Returns what is to spare between the sides of an inequality, which are in millionths of a tick.
    pub(crate) fn between(units: Units, sides: Sides) -> Spare
        ensures { signed_words result.is_below result.amount.picoseconds result.amount.quanta
            ≡ spare_words units sides }
    {
        if sides.left <= sides.right {
            Spare {
                is_below: false,
                amount: Amount::within(units, sides.right - sides.left),
            }
        } else {
            Spare {
                is_below: true,
                amount: Amount::around(units, sides.left - sides.right),
            }
        }
    }
}

/// What an inequality leaves to a pair of nodes.
#[derive(Clone, Copy)]
pub(crate) enum Rest {
    /// It isn't asked of them.
    NotAsked,
    /// This is to spare.
    Asked(Spare),
}

impl fmt::Display for Rest {
    ghost use Rattle.std.specs.Prelude.{Some};
    ghost use Rattle.wl_margin.specs.Sentences.{rest_words};

    ghost output = { λ r. Some (rest_words r) };

    fn fmt<W: fmt::Write>(&self, f: &mut fmt::Formatter<W>) -> fmt::Result {
        match self {
            Rest::NotAsked => write!(f, "none"),
            Rest::Asked(spare) => write!(f, "{spare}"),
        }
    }
}

/// Adds the sentence of two nodes that drift apart by more than an edge puts right.
pub(crate) fn push_drift(
    text: &mut String,
    a: &str,
    b: &str,
    taken: Amount,
    there: Amount,
) -> Result<(), AllocError>
    ensures { OnOk result (string_bytes text.new ≡ string_bytes text.old ++ drift_words a.now b.now
        (amount_words taken.picoseconds taken.quanta) (amount_words there.picoseconds there.quanta)) }
{
    write!(
        text,
        "in ten bits {a} falls behind {b} by up to {taken}, and an edge puts right {there}"
    )
}

/// Adds the sentence of a node that samples before another's bit has come.
pub(crate) fn push_late(
    text: &mut String,
    a: &str,
    b: &str,
    taken: Amount,
    there: Amount,
) -> Result<(), AllocError>
    ensures { OnOk result (string_bytes text.new ≡ string_bytes text.old ++ late_words a.now b.now
        (amount_words taken.picoseconds taken.quanta) (amount_words there.picoseconds there.quanta)) }
{
    write!(
        text,
        "a bit of {b} comes to {a} up to {taken} after its own began, and {a} samples after {there}"
    )
}

/// Adds the sentence of a node that samples before its own bit is back.
pub(crate) fn push_loop(
    text: &mut String,
    a: &str,
    taken: Amount,
    there: Amount,
) -> Result<(), AllocError>
    ensures { OnOk result (string_bytes text.new ≡ string_bytes text.old ++ loop_words a.now
        (amount_words taken.picoseconds taken.quanta) (amount_words there.picoseconds there.quanta)) }
{
    write!(
        text,
        "a bit of {a} comes back to it {taken} after it began, and it samples after {there}"
    )
}

/// Adds the sentence of a node to which another's next bit comes before it has sampled.
fn push_early(
    text: &mut String,
    a: &str,
    b: &str,
    taken: Amount,
    there: Amount,
) -> Result<(), AllocError>
    ensures { OnOk result (string_bytes text.new ≡ string_bytes text.old ++ early_words a.now b.now
        (amount_words taken.picoseconds taken.quanta) (amount_words there.picoseconds there.quanta)) }
{
    write!(
        text,
        "the next bit of {b} comes to {a} up to {taken} too early, and its PHASE_SEG2 has {there}"
    )
}

/// Adds that one spike may hide a frame of a node from another, with what is to spare and what both jumps take.
pub(crate) fn push_spike(
    text: &mut String,
    a: &str,
    b: &str,
    late: Spare,
    jumps: Amount,
) -> Result<(), AllocError>
    ensures { OnOk result (string_bytes text.new ≡ string_bytes text.old ++ spike_line a.now b.now
        (signed_words late.is_below late.amount.picoseconds late.amount.quanta)
        (amount_words jumps.picoseconds jumps.quanta)) }
{
    writeln!(
        text,
        "noise: one spike may hide a frame of {a} from {b}, as far as searched: late {late}, and their jumps take {jumps}"
    )
}

/// Adds what goes wrong if an inequality fails.
pub(crate) fn push_failure(
    text: &mut String,
    units: Units,
    names: &Names,
    failure: Failure,
) -> Result<(), AllocError>
    ensures { OnOk result (string_bytes text.new ≡ string_bytes text.old ++ sentence units names.now failure) }
{
    let a = names.name_of(failure.node as usize);
    let b = names.name_of(failure.other as usize);
    let taken = Amount::around(units, failure.sides.left);
    let there = Amount::within(units, failure.sides.right);
    match failure.inequality {
        Inequality::DriftFitsJump => push_drift(text, a, b, taken, there),
        Inequality::BitIsThereAtSample => {
            if failure.node == failure.other {
                return push_loop(text, a, taken, there);
            }
            push_late(text, a, b, taken, there)
        }
        Inequality::NoBitTooEarly => push_early(text, a, b, taken, there),
    }
}
