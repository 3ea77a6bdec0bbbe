//! The log of can-utils.
ghost use Rattle.std.specs.Prelude.{◌≡◌, ◌≤◌, ◌++◌, ◌∷◌, [], OnOk, IfOk, codes};
ghost use Rattle.std.specs.List.{filter, flat_map};
ghost use Rattle.wl_report.specs.Report.{id_digits};
ghost use Rattle.wl_views.specs.Candump.{content_word, code_word, log_line, log_of, time_word, wanted_word};
ghost use Rattle.wl_views.specs.Digits.{Extends, digits_of};
ghost use Rattle.wl_views.specs.SentFrames.{AreInTime};
ghost use Rattle.wl_views.specs.Ticks.{microseconds};
ghost use Rattle.wl_views.specs.Windows.{is_within};

use crate::digits::push_digits;
use crate::sent_frames::sent_by_tick;
use crate::tick::Tick;
use crate::window::Window;
use std::alloc::{AllocError, Global};
use wl_frame::frame::Frame;
use wl_plan::Plan;
use wl_serial::Totals;

/// Adds a time after this many seconds: seconds, and microseconds after a point.
pub(crate) fn push_time(text: &mut Vec<u8>, from: u32, us: u128) -> Result<(), AllocError>
    ensures { OnOk result (Extends text.old text.new (time_word from us)) }
{
    push_digits(text, 10, 10, u128::from(from) + us / 1_000_000)?;
    text.extend_from_slice(b".")?;
    push_digits(text, 10, 6, us % 1_000_000)
}

/// Adds an identifier: 3 digits, or 8 of an extended frame.
fn push_id(text: &mut Vec<u8>, frame: &Frame) -> Result<(), AllocError>
    ensures { OnOk result (Extends text.old text.new (digits_of 16 (id_digits frame.now.extended) frame.now.id)) }
{
    let digits = if frame.is_extended() { 8 } else { 3 };
    push_digits(text, 16, digits, u128::from(frame.id()))
}

/// Adds a data length code above 8.
fn push_code(text: &mut Vec<u8>, dlc: u32) -> Result<(), AllocError>
    ensures { OnOk result (Extends text.old text.new (code_word dlc)) }
{
    if dlc <= 8 {
        return Ok(());
    }
    text.extend_from_slice(b"_")?;
    push_digits(text, 16, 1, u128::from(dlc))
}

/// Adds what a remote frame with this data length code asks for.
fn push_wanted(text: &mut Vec<u8>, dlc: u32) -> Result<(), AllocError>
    ensures { OnOk result (Extends text.old text.new (wanted_word dlc)) }
{
    if dlc == 0 {
        return Ok(());
    }
    push_digits(text, 16, 1, u128::from(dlc.min(8)))?;
    push_code(text, dlc)
}

/// Adds bytes as two digits each.
fn push_bytes(text: &mut Vec<u8>, bytes: &[u8]) -> Result<(), AllocError>
    ensures { OnOk result (Extends text.old text.new (flat_map (digits_of 16 2) bytes.now)) }
{
    for byte in bytes {
        push_digits(text, 16, 2, u128::from(*byte))?;
    }
    Ok(())
}

/// Adds what comes after the identifier.
fn push_carried(text: &mut Vec<u8>, frame: &Frame) -> Result<(), AllocError>
    ensures { OnOk result (Extends text.old text.new (content_word frame.now)) }
{
    if frame.remote() {
        text.extend_from_slice(b"R")?;
        push_wanted(text, frame.dlc())
    } else {
        push_bytes(text, frame.bytes())?;
        push_code(text, frame.dlc())
    }
}

/// Adds the line of a frame that was completed at a tick.
pub(crate) fn push_line(
    text: &mut Vec<u8>,
    tick: Tick,
    from: u32,
    at: u64,
    frame: &Frame,
) -> Result<(), AllocError>
    ensures { OnOk result (Extends text.old text.new (log_line tick from (at, frame.now))) }
{
    text.extend_from_slice(b"(")?;
    push_time(text, from, tick.microseconds(at))?;
    text.extend_from_slice(b") can0 ")?;
    push_id(text, frame)?;
    text.extend_from_slice(b"#")?;
    push_carried(text, frame)?;
    text.extend_from_slice(b"\n")
}

/// Adds the lines of these frames that were completed within a window.
fn push_lines(
    text: &mut Vec<u8>,
    tick: Tick,
    from: u32,
    window: Window,
    sent: &[(u64, Frame)],
) -> Result<(), AllocError>
    ensures { OnOk result (Extends text.old text.new
        (flat_map (log_line tick from) (filter (λ s. is_within window s.0) sent.now))) }
{
    for (at, frame) in sent {
        if window.has(*at) {
            push_line(text, tick, from, *at, frame)?;
        }
    }
    Ok(())
}

/// Returns the log of the frames that were sent, by what a report says of each node: for each a line
/// `({seconds}.{microseconds}) can0 {id}#{bytes}`, in the order in which they were completed; those of one tick node by node. Frames that were
/// completed outside of a window are left out.
///
/// The time is that of the quantum at which the sender sampled the last bit of end of frame (Bosch CAN 2.0 part B, section 5). It counts
/// from tick 0, which is at second `from`, and is rounded down, 10 digits and 6. The identifier has 3 hexadecimal digits, or 8 of an
/// extended frame. A remote frame has `R` in place of the bytes, and after it the data length code if that isn't 0. A code above 8 is after
/// the 8 bytes, or the `R8`, as `_9` to `_F`. Refused out of memory alone.
pub fn candump(
    alloc: Global,
    tick: Tick,
    from: u32,
    window: Window,
    plan: &Plan,
    totals: &Totals,
) -> Result<Vec<u8>, AllocError>
    requires { AreInTime plan.now totals.now }
    ensures { IfOk result (λ text. text.items ≡ log_of tick from window plan.now totals.now) }
{
    let sent = sent_by_tick(alloc, plan, totals.as_slice())?;
    let mut text = Vec::new(alloc);
    push_lines(&mut text, tick, from, window, &sent)?;
    Ok(text)
}
