//! The engines over a text in memory.
ghost use Rattle.std.specs.Prelude.{◌≡◌, None};
ghost use Rattle.wl_c.specs.Made.{IsMade, Makes, without_answer};

use crate::asked::{Order, Task};
use std::alloc::Global;
use wl_engines::{
    Kept, RunFault, TextReader, check_run, explain_run, judge_run, margin_run, plan_run,
    respond_run, traffic_run,
};
use wl_lines::Format;
use wl_views::Tick;

/// What an engine made of a text.
#[derive(Drop)]
pub(crate) enum Made {
    /// The whole output.
    Output(Vec<u8>),
    /// What is said of a text that is refused: nothing, but by an explanation.
    Refusal(Vec<u8>),
    /// Nothing, for want of memory.
    OutOfMemory,
}

/// Returns what an engine with this answer made, which it wrote into memory.
fn made_by(answer: Result<(), RunFault>, kept: Kept) -> Made
    ensures { IsMade answer kept.bytes.items result }
{
    match answer {
        Ok(()) => Made::Output(kept.bytes),
        Err(RunFault::Setup(_)) => Made::Refusal(kept.bytes),
        Err(_) => Made::OutOfMemory,
    }
}

/// Returns whether a run wrote its output, without what it answered beside that.
fn without_answer<A: Copy>(answer: Result<A, RunFault>) -> Result<(), RunFault>
    ensures { result ≡ without_answer answer }
{
    match answer {
        Ok(_) => Ok(()),
        Err(fault) => Err(fault),
    }
}

/// Returns the report of a plan's simulation.
fn run_of(alloc: Global, text: &[u8]) -> Made
    ensures { Makes None Task.Run text.now result }
{
    let mut reader = TextReader { rest: text };
    let mut kept = Kept::new(alloc);
    let found = plan_run(alloc, &mut reader, &mut kept);
    let answer = without_answer(found);
    made_by(answer, kept)
}

/// Returns the check of a plan.
fn check_of(alloc: Global, text: &[u8]) -> Made
    ensures { Makes None Task.Check text.now result }
{
    let mut reader = TextReader { rest: text };
    let mut kept = Kept::new(alloc);
    let answer = check_run(alloc, &mut reader, &mut kept);
    made_by(answer, kept)
}

/// Returns the explanation of a plan, or of its refusal.
fn explanation_of(alloc: Global, text: &[u8]) -> Made
    ensures { Makes None Task.Explain text.now result }
{
    let mut reader = TextReader { rest: text };
    let mut kept = Kept::new(alloc);
    let found = explain_run(alloc, &mut reader, &mut kept);
    let answer = without_answer(found);
    made_by(answer, kept)
}

/// Returns the margin of a plan's bus.
fn margin_of(alloc: Global, tick: Tick, all_send: bool, text: &[u8]) -> Made
    ensures { Makes None (Task.Margin tick all_send) text.now result }
{
    let mut reader = TextReader { rest: text };
    let mut kept = Kept::new(alloc);
    let found = margin_run(alloc, tick, all_send, &mut reader, &mut kept);
    let answer = without_answer(found);
    made_by(answer, kept)
}

/// Returns the traffic of a plan's simulation.
fn traffic_of(alloc: Global, tick: Tick, text: &[u8]) -> Made
    ensures { Makes None (Task.Traffic tick) text.now result }
{
    let mut reader = TextReader { rest: text };
    let mut kept = Kept::new(alloc);
    let found = traffic_run(alloc, tick, &mut reader, &mut kept);
    let answer = without_answer(found);
    made_by(answer, kept)
}

/// Returns how long the messages of a plan may wait, as text or in a format.
fn response_of(alloc: Global, tick: Tick, format: Option<Format>, text: &[u8]) -> Made
    ensures { Makes format (Task.Respond tick) text.now result }
{
    let mut reader = TextReader { rest: text };
    let mut kept = Kept::new(alloc);
    let found = respond_run(alloc, tick, false, format, &mut reader, &mut kept);
    let answer = without_answer(found);
    made_by(answer, kept)
}

/// Returns whether the bus of a plan works.
fn judgement_of(alloc: Global, tick: Tick, text: &[u8]) -> Made
    ensures { Makes None (Task.Judge tick) text.now result }
{
    let mut reader = TextReader { rest: text };
    let mut kept = Kept::new(alloc);
    let found = judge_run(alloc, tick, false, &mut reader, &mut kept);
    let answer = without_answer(found);
    made_by(answer, kept)
}

/// Returns what the command of an order says of a text: `respond` in the order's format, the others as text.
pub(crate) fn make(alloc: Global, order: Order, text: &[u8]) -> Made
    ensures { Makes order.format order.task text.now result }
{
    match order.task {
        Task::Run => run_of(alloc, text),
        Task::Check => check_of(alloc, text),
        Task::Explain => explanation_of(alloc, text),
        Task::Margin(tick, all_send) => margin_of(alloc, tick, all_send, text),
        Task::Traffic(tick) => traffic_of(alloc, tick, text),
        Task::Respond(tick) => response_of(alloc, tick, order.format, text),
        Task::Judge(tick) => judgement_of(alloc, tick, text),
    }
}
