//! Times in quanta, by another quantum.
ghost use Rattle.std.specs.Prelude.{◌≡◌, IfOk};
ghost use Rattle.std.specs.List.{enumerate_from};
ghost use Rattle.wl_apply.specs.Answers.{AnswersMade, each_made};
ghost use Rattle.wl_apply.specs.Moves.{frame_in_time, moved, moved_every, moved_frame, ratio_of};

use crate::chosen::QuantumLength;
use crate::copies::frame_with;
use crate::fault::ApplyFault;
use std::alloc::{AllocError, Global};
use wl_level::Listed;
use wl_setup::FrameText;
use wl_units::{lowest, whole};

/// Returns how many new quanta an old one is: a fraction in lowest terms, if its numbers aren't too large.
pub(crate) fn ratio_of(old: QuantumLength, new: QuantumLength) -> Option<(u64, u64)>
    ensures { result ≡ ratio_of old new }
{
    lowest(
        old.num as u128 * new.den as u128,
        old.den as u128 * new.num as u128,
    )
}

/// Returns a number of old quanta in new ones, if they are whole.
fn moved(ratio: Option<(u64, u64)>, n: u64) -> Option<u64>
    ensures { result ≡ moved ratio n }
{
    let (num, den) = ratio?;
    whole(n as u128 * num as u128, den as u128)
}

/// Returns in new quanta after how many a frame comes again, if it does; nothing if they aren't whole.
fn moved_every(ratio: Option<(u64, u64)>, every: Option<u64>) -> Option<Option<u64>>
    ensures { result ≡ moved_every ratio every }
{
    match every {
        None => Some(None),
        Some(n) => match moved(ratio, n) {
            Some(m) if m > 0 => Some(Some(m)),
            _ => None,
        },
    }
}

/// Returns a frame at the same times in new quanta, if they are whole.
fn moved_frame(
    alloc: Global,
    ratio: Option<(u64, u64)>,
    frame: &FrameText,
) -> Result<Option<FrameText>, AllocError>
    ensures { IfOk result (λ made. made ≡ moved_frame ratio frame.now) }
{
    match (moved(ratio, frame.ready), moved_every(ratio, frame.every)) {
        (Some(ready), Some(every)) => Ok(Some(frame_with(alloc, frame, ready, every)?)),
        _ => Ok(None),
    }
}

/// Returns frame `n` of node `i` at the same times in new quanta.
fn frame_in_time(
    alloc: Global,
    ratio: Option<(u64, u64)>,
    i: u64,
    n: u64,
    frame: &FrameText,
) -> Result<FrameText, ApplyFault>
    ensures { AnswersMade (frame_in_time ratio i (n, frame.now)) result }
{
    match moved_frame(alloc, ratio, frame)? {
        Some(made) => Ok(made),
        None => Err(ApplyFault::Time(i, n)),
    }
}

/// Returns the frames of node `i` at the same times in new quanta, or the first whose times aren't whole.
pub(crate) fn moved_frames(
    alloc: Global,
    ratio: Option<(u64, u64)>,
    i: u64,
    frames: &[FrameText],
) -> Result<Listed<FrameText>, ApplyFault>
    ensures { AnswersMade (each_made (frame_in_time ratio i) (enumerate_from 0 frames.now)) result }
{
    let mut made = Listed::new(alloc);
    for (n, frame) in frames.iter().enumerate() {
        made.push(frame_in_time(alloc, ratio, i, n as u64, frame)?)?;
    }
    Ok(made)
}
