//! The phase of a node: where the edges of the line lie in its bits, and what moves them.
//!
//! A clock of one rate says when its quanta begin, in exact parts of a tick. The bit clock says after how many quanta the node samples
//! next. Each edge that counts moves that sample, by the rules of the book (Bosch CAN 2.0 part B, section 10; ISO 11898-1,
//! synchronisation).
#![tactic(auto)]

pub mod laws;

ghost use Rattle.std.specs.Prelude.{◌≡◌, ◌<◌, ◌≤◌, ◌^◌, ◌*◌, ◌↔◌, IsTrue};
ghost use Rattle.wl_segments.specs.Lengths.{bit_quanta};
ghost use Rattle.wl_phase.specs.InStep.{AreNear};
ghost use Rattle.wl_phase.specs.Ways as ways;

use wl_segments::Segments;
use wl_sync::Sync;

/// Returns how many quanta come before the next sample after one quantum more, if `way` come before it now and that
/// quantum synchronises the bit by this, or doesn't.
///
/// With the rules of the book that is what the bit clock does, whatever the edge: the way is what
/// [`BitClock::free_quanta`](wl_sync::BitClock::free_quanta) answers with `starts` and the line's level.
pub fn way_after(segments: &Segments, way: u16, sync: Option<Sync>) -> u64
    ensures { result ≡ ways.way_after segments.now way sync }
{
    let way = way as u64;
    match sync {
        None if way == 0 => segments.bit_quanta() - 1,
        None => way - 1,
        Some(Sync::Hard) => segments.sample_at() - 2,
        Some(Sync::Error(_)) => {
            let aim = segments.sample_at() - 1;
            let jump = segments.sjw();
            way.saturating_sub(jump).max((way + jump).min(aim)) - 1
        }
    }
}

/// How long a node's quanta take: `num / den` ticks each.
#[derive(Clone, Copy, Debug, PartialEq, Eq)]
pub struct Pace {
    /// The numerator, in ticks.
    pub num: u64,
    /// The denominator, in quanta.
    pub den: u32,
}

/// True if a listener with these segments and this pace stays in step with a sender whose bits nothing moves.
///
/// In ten bits of either the other is off by the jump width at most. If the sender is the faster one, a tick more doesn't bring its next
/// bit before the listener's sample. By the rules of the book that is enough: [`a_listener_stays_in_step`](laws::a_listener_stays_in_step).
pub fn are_near(
    sender: &Segments,
    sender_pace: Pace,
    listener: &Segments,
    listener_pace: Pace,
) -> bool
    ensures { IsTrue result ↔ AreNear (listener_pace.den * (bit_quanta sender.now * sender_pace.num))
        (sender_pace.den * listener_pace.num) (sender_pace.den * listener_pace.den) listener.now }
{
    let bit = parts(listener_pace.den, sender.bit_quanta(), sender_pace.num);
    let quantum = parts(sender_pace.den, 1, listener_pace.num);
    let tick = parts(sender_pace.den, 1, listener_pace.den as u64);
    let ten = 10 * listener.bit_quanta() as u128 * quantum;
    let jump = listener.sjw() as u128 * quantum;
    let rest = listener.ps2() as u128 * quantum;
    10 * bit <= ten + jump && ten <= 10 * bit + jump && ten + tick <= 10 * bit + rest
}

/// Returns the parts of a tick that this many quanta take, 385 at most, of `num` parts by another denominator each.
pub fn parts(den: u32, quanta: u64, num: u64) -> u128
    requires { quanta ≤ 385 }
    ensures parts { result ≡ den * (quanta * num) }
    ensures small { result < 2 ^ 106 }
{
    den as u128 * (quanta as u128 * num as u128)
}
