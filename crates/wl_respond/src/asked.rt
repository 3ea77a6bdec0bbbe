//! What a plan's text asks of its messages.
ghost use Rattle.std.specs.Prelude.{◌≡◌, ◌<◌, ◌≤◌, ◌^◌, ◌++◌, ◌∷◌, List, length, map, true, IfOk};
ghost use Rattle.wl_level.specs.declared.Level.{Level};
ghost use Rattle.wl_frame.specs.Grammar.{Content, IsContent, bits_of};
ghost use Rattle.wl_frame.specs.Stuffing.{Stuffs};
ghost use Rattle.wl_setup.specs.declared.plan_text.FrameText.{FrameText};
ghost use Rattle.wl_bound.specs.Families.{Bus};
ghost use Rattle.wl_bound.specs.Rooms.{plain_bus};
ghost use Rattle.wl_respond.specs.declared.message.MessageWait.{MessageWait};
ghost use Rattle.wl_respond.specs.Asks.{IsOfText, asked_by, asked_of, deadline_in, every_in, frames_at, is_frame_of, jitter_in, least_apart, message_in, most_bits_in, quanta_over, sooner};

use crate::message::{MessageWait, shortest_at};
use crate::table::ONCE;
use std::alloc::{AllocError, Global};
use wl_bound::Family;
use wl_frame::frame::Frame;
use wl_level::Listed;
use wl_longest::longest_frame;
use wl_setup::{FrameText, PlanText};

/// A message, and what the text asks of it.
#[derive(Clone, Copy, Debug)]
pub struct Asked {
    /// The message. Its frames are apart by the period less the jitter.
    pub message: MessageWait,
    /// The period in quanta of its node, or `ONCE`.
    pub every: u64,
    /// By how many ticks at most a frame is ready later than it should.
    pub jitter: u64,
    /// Within how many ticks a frame has to be sent, if that is said.
    pub deadline: Option<u64>,
}

/// True if a frame of the text has the identifier of this frame, base or extended, data or remote.
fn is_frame_of(frame: &Frame, text: &FrameText) -> bool
    ensures { result ≡ is_frame_of frame.now text.now }
{
    text.id == frame.id() && text.extended == frame.is_extended() && text.remote == frame.remote()
}

/// Returns the least period of these frames that have the identifier, in quanta, or `ONCE`.
fn every_in(frame: &Frame, frames: &[FrameText]) -> u64
    ensures { result ≡ every_in frame.now frames.now }
{
    match frames {
        [] => ONCE,
        [text, later @ ..] => {
            let every = every_in(frame, later);
            if is_frame_of(frame, text) {
                text.every.unwrap_or(ONCE).min(every)
            } else {
                every
            }
        }
    }
}

/// Returns the greatest jitter of these frames that have the identifier, in ticks.
fn jitter_in(frame: &Frame, frames: &[FrameText]) -> u64
    ensures { result ≡ jitter_in frame.now frames.now }
{
    match frames {
        [] => 0,
        [text, later @ ..] => {
            let jitter = jitter_in(frame, later);
            if is_frame_of(frame, text) {
                text.jitter.unwrap_or(0).max(jitter)
            } else {
                jitter
            }
        }
    }
}

/// Returns the sooner of two deadlines.
fn sooner(one: Option<u64>, other: Option<u64>) -> Option<u64>
    ensures { result ≡ sooner one other }
{
    match one {
        None => other,
        Some(n) => match other {
            None => Some(n),
            Some(m) => Some(n.min(m)),
        },
    }
}

/// Returns the least deadline of these frames that have the identifier, in ticks.
fn deadline_in(frame: &Frame, frames: &[FrameText]) -> Option<u64>
    ensures { result ≡ deadline_in frame.now frames.now }
{
    match frames {
        [] => None,
        [text, later @ ..] => {
            let deadline = deadline_in(frame, later);
            if is_frame_of(frame, text) {
                sooner(text.deadline, deadline)
            } else {
                deadline
            }
        }
    }
}

/// Returns the most bits, up to the end of the CRC sequence and with stuff bits, of these frames that have the
/// identifier, whatever their data are.
fn most_bits_in(frame: &Frame, frames: &[FrameText]) -> u8
    ensures { result ≡ most_bits_in frame.now frames.now }
{
    match frames {
        [] => 0,
        [text, later @ ..] => {
            let most = most_bits_in(frame, later);
            if is_frame_of(frame, text) {
                longest_frame(text.extended, text.id, text.remote, text.dlc).max(most)
            } else {
                most
            }
        }
    }
}

/// Law, of messages that may have any data: a frame of the text with a message's identifier has at most the bits that the message counts
/// with, whatever its data are. These are up to the last bit of its CRC sequence, with stuff bits.
pub fn any_data_is_within_the_bits()
    ensures { (b : Bus) (x : MessageWait) (before later : List FrameText) (f : FrameText) (c : Content) (y : List Level)
        → is_frame_of x.frame f ≡ true → IsOfText c f → IsContent c → Stuffs y (bits_of c)
        → length y ≤ (asked_by b true x (before ++ f ∷ later)).message.bits }
{}

/// Returns a time in ticks as quanta of node `i`, rounded up.
fn quanta_over(family: &Family, i: u8, ticks: u64) -> u128
    ensures { result ≡ quanta_over (plain_bus family.now) i ticks }
{
    (ticks as u128 * 1_000_000).div_ceil(shortest_at(family, i).max(1))
}

/// Returns by how many quanta two frames of node `i` are apart at least.
fn least_apart(family: &Family, i: u8, every: u64, jitter: u64) -> u64
    ensures { result ≡ least_apart (plain_bus family.now) i every jitter }
{
    if every == ONCE {
        return ONCE;
    }
    let late = quanta_over(family, i, jitter);
    (every as u128).saturating_sub(late) as u64
}

/// Returns the frames that the text has for node `i`.
pub(crate) fn frames_at(text: &PlanText, i: u8) -> &[FrameText]
    ensures { result.now ≡ frames_at text.now i }
{
    match text.node.as_slice().get(i as usize) {
        Some(node) => node.frame.as_slice(),
        None => &[],
    }
}

/// Returns what these frames ask of a message. If `any` it may have any data.
fn asked_by(family: &Family, any: bool, message: &MessageWait, frames: &[FrameText]) -> Asked
    ensures { result ≡ asked_by (plain_bus family.now) any message.now frames.now }
{
    let frame = &message.frame;
    let every = message.every.min(every_in(frame, frames));
    let jitter = jitter_in(frame, frames);
    let bits = if any {
        message.bits.max(most_bits_in(frame, frames))
    } else {
        message.bits
    };
    let message = MessageWait {
        bits,
        every: least_apart(family, message.node, every, jitter),
        ..*message
    };
    Asked {
        message,
        every,
        jitter,
        deadline: deadline_in(frame, frames),
    }
}

/// Returns what the text asks of a message. If `any` it may have any data.
fn asked_of(family: &Family, any: bool, text: &PlanText, message: &MessageWait) -> Asked
    ensures { result ≡ asked_of (plain_bus family.now) any text.now message.now }
{
    asked_by(family, any, message, frames_at(text, message.node))
}

/// Returns what the text asks of these messages. Refused only when out of memory.
pub(crate) fn all_asked(
    alloc: Global,
    family: &Family,
    any: bool,
    text: &PlanText,
    messages: &[MessageWait],
) -> Result<Listed<Asked>, AllocError>
    ensures { IfOk result (λ all. all ≡ map (asked_of (plain_bus family.now) any text.now) messages.now) }
{
    let mut all = Listed::new(alloc);
    for message in messages {
        all.push(asked_of(family, any, text, message))?;
    }
    Ok(all)
}

/// Returns the messages alone, without what is asked. Refused only when out of memory.
pub(crate) fn messages_in(alloc: Global, asked: &[Asked]) -> Result<Listed<MessageWait>, AllocError>
    ensures { IfOk result (λ messages. messages ≡ map message_in asked.now) }
{
    let mut messages = Listed::new(alloc);
    for one in asked {
        messages.push(one.message)?;
    }
    Ok(messages)
}
