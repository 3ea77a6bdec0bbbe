//! A bus on which one node sends: every frame gets through, from the power-up of all nodes on, if the condition for margins holds.
//!
//! One node has frames, and its clock and those of all others are near enough. Then each other node samples the bits that
//! it sends, and it samples their acknowledgement (Bosch CAN 2.0 part B, section 3.2.1). All is by the rules of the book.

pub mod laws;

ghost use Rattle.std.specs.Prelude.{◌*◌, ◌↔◌, IsTrue};
ghost use Rattle.wl_phase.specs.Answer.{IsInTime};
ghost use Rattle.wl_segments.specs.Lengths.{bit_quanta};

use wl_phase::{Pace, parts};
use wl_segments::Segments;

/// True if a listener's acknowledgement comes back to the sender in time, with `there_and_back` ticks there and back.
///
/// It arrives by the sender's sample of the ACK slot, and after that of the CRC delimiter, though ten bits' drift makes it late or early.
/// It lasts until the sample that it moves. With [`are_near`](wl_phase::are_near) that is enough for a listener:
/// [`the_first_frame_is_acknowledged`](laws::the_first_frame_is_acknowledged).
pub fn comes_in_time(
    sender: &Segments,
    sender_pace: Pace,
    listener: &Segments,
    listener_pace: Pace,
    there_and_back: u32,
) -> bool
    ensures { IsTrue result ↔ IsInTime sender.now (listener_pace.den * (bit_quanta sender.now * sender_pace.num))
        (listener_pace.den * sender_pace.num) listener.now (sender_pace.den * listener_pace.num)
        (sender_pace.den * listener_pace.den) there_and_back }
{
    let bit = parts(listener_pace.den, sender.bit_quanta(), sender_pace.num);
    let own_quantum = parts(listener_pace.den, 1, sender_pace.num);
    let quantum = parts(sender_pace.den, 1, listener_pace.num);
    let tick = parts(sender_pace.den, 1, listener_pace.den as u64);
    let their_bit = listener.bit_quanta() as u128 * quantum;
    let way = there_and_back as u128 * tick;
    let late = way + 10 * their_bit.saturating_sub(bit);
    let early = quantum + 2 * tick + 10 * bit.saturating_sub(their_bit);
    late <= sender.sample_at() as u128 * own_quantum
        && early <= sender.ps2() as u128 * own_quantum + way
        && 10 * bit <= 10 * their_bit + sender.sjw() as u128 * own_quantum
}
