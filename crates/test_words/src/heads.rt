//! Heads of machines: the frames that they are to send.
ghost use Rattle.std.specs.Prelude.{◌≡◌, ◌==◌, IfOk, length};
ghost use Rattle.test_words.specs.Heads.{IsHead, SpellsFrame};
ghost use Rattle.wl_frame.specs.Grammar.{frame_of_numbers};

use crate::lines::Stop;
use crate::words::parts;
use std::alloc::Global;
use wl_frame::frame::{Frame, FrameFault};

/// Returns the frame of an identifier as it is written: one of eight digits is extended, as logs of frames have it.
pub fn frame_of(
    digits: &str,
    id: u32,
    remote: bool,
    dlc: u32,
    bytes: &[u8],
) -> Result<Frame, FrameFault>
    ensures { result ≡ frame_of_numbers (length digits.now == 8) id remote dlc bytes.now }
{
    if digits.len() == 8 {
        Frame::extended(id, remote, dlc, bytes)
    } else {
        Frame::base(id, remote, dlc, bytes)
    }
}

/// Returns the head that a word spells: `-` for none, or the identifier of a frame in hexadecimal, with `r` before it for a remote frame, and
/// after it a dot and its bytes, as in `100.a5ff`.
pub fn head(alloc: Global, word: &str) -> Result<Option<Frame>, Stop>
    ensures { IfOk result (IsHead word.now) }
{
    if word == "-" {
        return Ok(None);
    }
    match word.strip_prefix('r') {
        Some(rest) => Ok(Some(frame(alloc, rest, true)?)),
        None => Ok(Some(frame(alloc, word, false)?)),
    }
}

/// Returns the frame that a word spells, without an `r` before it.
fn frame(alloc: Global, word: &str, remote: bool) -> Result<Frame, Stop>
    ensures { IfOk result (SpellsFrame word.now remote) }
{
    let (digits, spelled) = parts(word, '.');
    let bytes = bytes(alloc, spelled)?;
    let id = u32::from_str_radix(digits, 16)?;
    let dlc = u32::try_from(bytes.len()).map_err(|_| Stop::Unread)?;
    match frame_of(digits, id, remote, dlc, bytes.as_slice()) {
        Ok(frame) => Ok(frame),
        Err(_) => Err(Stop::Unread),
    }
}

/// Returns the bytes of hexadecimal digits, two for each.
fn bytes(alloc: Global, spelled: &str) -> Result<Vec<u8>, Stop> {
    let mut bytes = Vec::new(alloc);
    let mut high = None;
    for digit in spelled.chars() {
        let value = digit.to_digit(16).ok_or(Stop::Unread)?;
        high = match high {
            None => Some(value),
            Some(first) => {
                bytes.push(byte_of(first, value))?;
                None
            }
        };
    }
    Ok(bytes)
}

fn byte_of(high: u32, low: u32) -> u8 {
    (high % 16 * 16 + low % 16) as u8
}
