//! What was made goes into the caller's buffer.
ghost use Rattle.std.specs.Prelude.{◌≡◌, IfErr, IfOk};
ghost use Rattle.wl_c.specs.Calls.{EndsCall, Ends, EndsOrder, FailsToShow, IsInForm, IsRefusalIn, Puts};
ghost use Rattle.wl_c.specs.Orders.{subject_name};

use crate::asked::Order;
use crate::engines::{Made, make};
use crate::status::Status;
use std::alloc::Global;
use wl_formats::{FormatFault, formatted};

/// Puts bytes at the front of a buffer and returns this status, if the buffer has room for them. Says how many there are.
fn put(bytes: &[u8], whole: Status, out: &mut [u8], needed: &mut usize) -> Status
    ensures { Puts out.old out.new needed.new whole bytes.now result }
{
    *needed = bytes.len();
    if out.len() < bytes.len() {
        return Status::Room;
    }
    out[..bytes.len()].copy_from_slice(bytes);
    whole
}

/// Puts bytes as `put` does, or returns why there are none.
fn put_shown(
    shown: Result<Vec<u8>, Status>,
    whole: Status,
    out: &mut [u8],
    needed: &mut usize,
) -> Status
    ensures bytes { IfOk shown (λ bytes. Puts out.old out.new needed.new whole bytes.items result) }
    ensures none { IfErr shown (λ status. (result ≡ status) × (out.new ≡ out.old) × (needed.new ≡ needed.old)) }
{
    match shown {
        Ok(bytes) => put(&bytes, whole, out, needed),
        Err(status) => status,
    }
}

/// Returns what is said, in an order's form.
fn shown(alloc: Global, order: Order, said: Vec<u8>) -> Result<Vec<u8>, Status>
    ensures bytes { IfOk result (λ bytes. IsInForm order.format (subject_name order.task) said.items bytes.items) }
    ensures fault { IfErr result (FailsToShow order said.items) }
{
    let Some(format) = order.format else {
        return Ok(said);
    };
    let Some(subject) = order.task.subject() else {
        return Ok(said);
    };
    match formatted(alloc, format, subject, &said) {
        Ok(bytes) => Ok(bytes),
        Err(FormatFault::Shape) => Err(Status::Shape),
        Err(FormatFault::Memory) => Err(Status::Memory),
    }
}

/// Returns what is said of a text that is refused, in an order's form.
fn refusal_shown(alloc: Global, order: Order, said: Vec<u8>) -> Result<Vec<u8>, Status>
    ensures bytes { IfOk result (λ bytes. IsRefusalIn order.format (subject_name order.task) said.items bytes.items) }
    ensures fault { IfErr result (FailsToShow order said.items) }
{
    if said.is_empty() {
        Ok(said)
    } else {
        shown(alloc, order, said)
    }
}

/// Writes what an order's command says of a text.
fn answer_order(
    alloc: Global,
    order: Order,
    text: &[u8],
    out: &mut [u8],
    needed: &mut usize,
) -> Status
    requires { needed.old ≡ 0 }
    ensures { EndsOrder out.old out.new needed.new text.now order result }
{
    match make(alloc, order, text) {
        Made::Output(said) => put_shown(shown(alloc, order, said), Status::Done, out, needed),
        Made::Refusal(said) => {
            put_shown(
                refusal_shown(alloc, order, said),
                Status::Refused,
                out,
                needed,
            )
        }
        Made::OutOfMemory => Status::Memory,
    }
}

/// Writes what the command of an order says of a text, if there is such an order.
fn answer_any(
    alloc: Global,
    order: Option<Order>,
    text: &[u8],
    out: &mut [u8],
    needed: &mut usize,
) -> Status
    ensures { Ends out.old out.new needed.new text.now order result }
{
    *needed = 0;
    match order {
        None => Status::Asked,
        Some(order) => answer_order(alloc, order, text, out, needed),
    }
}

/// Writes what the command of an order says of a text, if there is such an order, and returns the number of the status.
pub(crate) fn answer(
    alloc: Global,
    order: Option<Order>,
    text: &[u8],
    out: &mut [u8],
    needed: &mut usize,
) -> u32
    ensures { EndsCall order text.now out.old out.new needed.new result }
{
    answer_any(alloc, order, text, out, needed).code()
}
