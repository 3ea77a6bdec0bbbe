//! The arbitration field of a frame as a number.
ghost use Rattle.std.specs.Prelude.{◌≡◌};
ghost use Rattle.wl_frame.specs.Grammar.{IsContent};
ghost use Rattle.wl_node.specs.Queues.{field_number};
ghost use Rattle.wl_bound.specs.Fields.{field_of};

use wl_frame::frame::Frame;

/// Returns the number by which a queue by priority picks its head.
fn field_number(frame: &Frame) -> u64
    ensures number { result ≡ field_number frame.now }
    ensures content { IsContent frame.now }
{
    let remote = if frame.remote() { 1 } else { 0 };
    let id = u64::from(frame.id());
    if frame.is_extended() {
        id / 0x4_0000 * 0x20_0000 + 0x10_0000 + 0x8_0000 + id % 0x4_0000 * 2 + remote
    } else {
        id * 0x20_0000 + remote * 0x10_0000
    }
}

/// Returns the arbitration field of a frame as a number of 32 bits: the frame with the least one wins. A base frame lacks 20 of them, which
/// count as dominant.
#[tactic(auto, using(crate::proofs::FieldsLemmas::one_number))]
pub fn field_of(frame: &Frame) -> u64
    ensures { result ≡ field_of frame.now }
{
    field_number(frame)
}
