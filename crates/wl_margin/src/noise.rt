//! What a bus's margin says of noise.
ghost use Rattle.std.specs.Prelude.{◌≡◌, ◌++◌, ◌<◌, ◌≤◌, ◌^◌, length, string_bytes, OnOk};
ghost use Rattle.wl_margin.specs.Noise.{bus_off_time, counted_line, hidden_words, hiding_words, noise_lines, noise_words, short_bit, shortest_bit, spike_words};
ghost use Rattle.wl_margin.specs.Pieces.{thousandths};

use crate::numbers::Thousandths;
use crate::sentences::{Amount, Spare, push_spike};
use crate::units::{Units, units_at};
use std::alloc::AllocError;
use wl_bound::{Family, Hiding, Senders, Verdict};
use wl_setup::Names;

/// More than any time.
const NO_TIME: u128 = 1_267_650_600_228_229_401_496_703_205_376;

/// Returns the shortest bit of node `i`, in millionths of a tick.
fn short_bit(family: &Family, i: u8) -> u128
    requires { i < length family.now.members }
    ensures { result ≡ short_bit family.now i }
{
    let member = family.member(i);
    member.segments.bit_quanta() as u128 * member.oscillator.shortest()
}

/// Returns the shortest bit of any node, in millionths of a tick.
fn shortest_bit(family: &Family) -> u128
    ensures value { result ≡ shortest_bit family.now }
    ensures most { result ≤ 2 ^ 100 }
{
    let mut shortest = NO_TIME;
    for i in 0..family.nodes() {
        shortest = shortest.min(short_bit(family, i));
    }
    shortest
}

/// Returns the time of 242 bits in thousandths of a microsecond, rounded down.
fn bus_off_time(family: &Family, tick: u64) -> Thousandths
    requires { tick < 2 ^ 36 }
    ensures { thousandths result.0 ≡ bus_off_time tick family.now }
{
    let units = Units::new(tick, 1);
    Thousandths(units.picoseconds_within(242 * shortest_bit(family)) / 1000)
}

/// Adds how long a node takes to bus off.
fn push_counted(text: &mut String, time: Thousandths) -> Result<(), AllocError>
    ensures { OnOk result (string_bytes text.new ≡ string_bytes text.old ++ counted_line (thousandths time.0)) }
{
    writeln!(
        text,
        "noise: n bits raise a TEC by n + 13 at most, so from 0 to bus off it takes more than 242 bits ({time} us), proved: what_a_disturbance_counts"
    )
}

/// Adds that one spike may hide a frame of a node from another, in the units of the first.
fn push_hidden(
    text: &mut String,
    units: Units,
    names: &Names,
    hiding: Hiding,
) -> Result<(), AllocError>
    ensures { OnOk result (string_bytes text.new ≡ string_bytes text.old ++ hidden_words units names.now hiding) }
{
    let a = names.name_of(hiding.sender as usize);
    let b = names.name_of(hiding.receiver as usize);
    let late = Spare::between(units, hiding.late);
    let jumps = Amount::around(units, hiding.jumps);
    push_spike(text, a, b, late, jumps)
}

/// Adds what is said of one spike, by the worst pair of nodes if one may hide a frame.
fn push_hiding(
    text: &mut String,
    family: &Family,
    names: &Names,
    tick: u64,
    worst: Option<Hiding>,
) -> Result<(), AllocError>
    requires { tick < 2 ^ 36 }
    ensures { OnOk result (string_bytes text.new ≡ string_bytes text.old
        ++ hiding_words tick family.now names.now worst) }
{
    match worst {
        None => text.push_str(
            "noise: no spike shorter than a bit hides a frame from an error active node that acknowledges, as far as searched\n",
        ),
        Some(hiding) => push_hidden(text, units_at(family, tick, hiding.sender), names, hiding),
    }
}

/// Adds the line of a bus's margin that says whether one spike may hide a frame from a receiver, with both names. A tick takes `tick`
/// picoseconds.
pub fn push_spike_line(
    text: &mut String,
    family: &Family,
    names: &Names,
    tick: u64,
    senders: Senders,
) -> Result<(), AllocError>
    requires { tick < 2 ^ 36 }
    ensures { OnOk result (string_bytes text.new ≡ string_bytes text.old
        ++ spike_words tick family.now names.now senders) }
{
    push_hiding(text, family, names, tick, family.worst_hiding(senders))
}

/// Adds all lines of noise.
fn push_noise_lines(
    text: &mut String,
    family: &Family,
    names: &Names,
    tick: u64,
    senders: Senders,
) -> Result<(), AllocError>
    requires { tick < 2 ^ 36 }
    ensures { OnOk result (string_bytes text.new ≡ string_bytes text.old
        ++ noise_lines tick family.now names.now senders) }
{
    text.push_str(
        "noise: error active nodes that acknowledge are in step again 209 bits after a disturbance, on one wire, proved: active_machines_heal\n",
    )?;
    push_counted(text, bus_off_time(family, tick))?;
    push_spike_line(text, family, names, tick, senders)?;
    text.push_str(
        "noise: an error passive node may need 5 idle bits after each frame to be in step again, as far as searched\n",
    )
}

/// Adds what is said of noise: nothing if the condition doesn't hold.
pub(crate) fn push_noise(
    text: &mut String,
    family: &Family,
    names: &Names,
    tick: u64,
    verdict: Verdict,
) -> Result<(), AllocError>
    requires { tick < 2 ^ 36 }
    ensures { OnOk result (string_bytes text.new ≡ string_bytes text.old
        ++ noise_words tick family.now names.now verdict) }
{
    match verdict {
        Verdict::ForAny => push_noise_lines(text, family, names, tick, Senders::Any),
        Verdict::ForOne => push_noise_lines(text, family, names, tick, Senders::One),
        Verdict::DoesNotHold(_) | Verdict::NoBound(_) => Ok(()),
    }
}
