//! The frames of one message among those that a node sent or received.
ghost use Rattle.std.specs.Prelude.{◌≡◌, ◌≤◌, ◌<◌, length, IfOk, true};
ghost use Rattle.std.specs.List.{All, list_any};
ghost use Rattle.wl_node.specs.Limits.{most_run_quanta};
ghost use Rattle.wl_delivery.specs.Messages.{is_first_sent, is_of_message, message_ticks};

use std::alloc::{AllocError, Global};
use wl_clock::Clock;
use wl_frame::frame::Frame;
use wl_node::Passed;

/// True if a frame has the format, identifier and kind of `frame`, and was sent or received as `sent` says. Most frames differ in the identifier.
fn is_of_message(sent: bool, frame: &Frame, passed: &Passed) -> bool
    ensures { result ≡ is_of_message sent frame.now passed.now }
{
    frame.id() == passed.frame.id()
        && frame.is_extended() == passed.frame.is_extended()
        && frame.remote() == passed.frame.remote()
        && passed.sent == sent
}

/// Returns the ticks at which a node with this clock has sent, or received, the frames of the message of `frame`.
pub fn message_ticks(
    alloc: Global,
    clock: &Clock,
    sent: bool,
    frame: &Frame,
    frames: &[Passed],
) -> Result<Vec<u64>, AllocError>
    requires { All (λ p. p.quantum ≤ most_run_quanta) frames.now }
    ensures { IfOk result (λ ticks. ticks.items ≡ message_ticks clock.now sent frame.now frames.now) }
{
    let mut ticks = Vec::new(alloc);
    for passed in frames {
        if is_of_message(sent, frame, passed) {
            ticks.push(clock.at(passed.quantum))?;
        }
    }
    Ok(ticks)
}

/// True if one of these frames was sent, and is of the message of `frame`.
pub fn any_sent(frame: &Frame, frames: &[Passed]) -> bool
    ensures { result ≡ list_any (is_of_message true frame.now) frames.now }
{
    frames
        .iter()
        .any(|passed| is_of_message(true, frame, passed))
}

/// True if frame `k` was sent, and none of its message before it.
pub fn is_first_sent(frames: &[Passed], k: usize) -> bool
    requires { k < length frames.now }
    ensures { result ≡ is_first_sent frames.now k }
{
    frames[k].sent && !any_sent(&frames[k].frame, &frames[..k])
}
