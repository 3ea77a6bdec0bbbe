//! `run`, `check`, `explain`, `margin`, `traffic`, `respond` and `judge` as functions for C: a plan's text in, what the command writes and a status out.
//!
//! Each call reads the text, puts what the program's command writes at the front of the caller's buffer, and returns a status. Nothing is
//! kept from call to call. The header's functions (`tools/c/wireline.h`) test pointers, and call these.
#![tactic(auto)]

ghost use Rattle.std.specs.Prelude.{Some};
ghost use Rattle.wl_c.specs.Calls.{EndsCall};
ghost use Rattle.wl_c.specs.Orders.{judge_task, margin_task, order_in, respond_task, traffic_task};

mod answer;
mod asked;
mod engines;
mod status;

use crate::answer::answer;
use crate::asked::{judge_task, margin_task, order_in, respond_task, traffic_task};
pub use asked::{Asked, Order, Task};
pub use status::Status;
use std::alloc::Global;

/// Writes the report of the plan's simulation, as `run` does, and returns the status. `needed` is how many bytes there are.
#[unsafe(no_mangle)]
pub extern "C" fn wl_c_run(
    alloc: Global,
    plan: &[u8],
    asked: &Asked,
    out: &mut [u8],
    needed: &mut usize,
) -> u32
    ensures { EndsCall (order_in (Some Task.Run) asked.now) plan.now out.old out.new needed.new result }
{
    answer(alloc, order_in(Some(Task::Run), asked), plan, out, needed)
}

/// Writes what the plan's bit segments allow and how long its cable takes, as `check` does, and returns the status.
#[unsafe(no_mangle)]
pub extern "C" fn wl_c_check(
    alloc: Global,
    plan: &[u8],
    asked: &Asked,
    out: &mut [u8],
    needed: &mut usize,
) -> u32
    ensures { EndsCall (order_in (Some Task.Check) asked.now) plan.now out.old out.new needed.new result }
{
    answer(alloc, order_in(Some(Task::Check), asked), plan, out, needed)
}

/// Writes what is doubtful of the plan and its figures, or what is wrong with it, as `explain` does, and returns the status.
#[unsafe(no_mangle)]
pub extern "C" fn wl_c_explain(
    alloc: Global,
    plan: &[u8],
    asked: &Asked,
    out: &mut [u8],
    needed: &mut usize,
) -> u32
    ensures { EndsCall (order_in (Some Task.Explain) asked.now) plan.now out.old out.new needed.new result }
{
    answer(
        alloc,
        order_in(Some(Task::Explain), asked),
        plan,
        out,
        needed,
    )
}

/// Writes whether the plan's bus works, and with how much to spare, as `margin` does, and returns the status.
#[unsafe(no_mangle)]
pub extern "C" fn wl_c_margin(
    alloc: Global,
    plan: &[u8],
    asked: &Asked,
    out: &mut [u8],
    needed: &mut usize,
) -> u32
    ensures { EndsCall (order_in (margin_task asked.now) asked.now) plan.now out.old out.new needed.new result }
{
    answer(
        alloc,
        order_in(margin_task(asked), asked),
        plan,
        out,
        needed,
    )
}

/// Writes how busy the plan's bus was and how long its messages waited, as `traffic` does, and returns the status.
#[unsafe(no_mangle)]
pub extern "C" fn wl_c_traffic(
    alloc: Global,
    plan: &[u8],
    asked: &Asked,
    out: &mut [u8],
    needed: &mut usize,
) -> u32
    ensures { EndsCall (order_in (traffic_task asked.now) asked.now) plan.now out.old out.new needed.new result }
{
    answer(
        alloc,
        order_in(traffic_task(asked), asked),
        plan,
        out,
        needed,
    )
}

/// Writes how long each message of the plan may wait, as `respond` does, and returns the status.
#[unsafe(no_mangle)]
pub extern "C" fn wl_c_respond(
    alloc: Global,
    plan: &[u8],
    asked: &Asked,
    out: &mut [u8],
    needed: &mut usize,
) -> u32
    ensures { EndsCall (order_in (respond_task asked.now) asked.now) plan.now out.old out.new needed.new result }
{
    answer(
        alloc,
        order_in(respond_task(asked), asked),
        plan,
        out,
        needed,
    )
}

/// Writes whether the plan's bus works, how sure that is, and what would help, as `judge` does, and returns the status.
#[unsafe(no_mangle)]
pub extern "C" fn wl_c_judge(
    alloc: Global,
    plan: &[u8],
    asked: &Asked,
    out: &mut [u8],
    needed: &mut usize,
) -> u32
    ensures { EndsCall (order_in (judge_task asked.now) asked.now) plan.now out.old out.new needed.new result }
{
    answer(alloc, order_in(judge_task(asked), asked), plan, out, needed)
}
