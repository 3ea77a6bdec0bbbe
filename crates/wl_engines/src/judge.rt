//! Whether the bus of a plan works.
ghost use Rattle.std.specs.Prelude.{◌≡◌, ◌≤◌, length, IfOk, string_bytes};
ghost use Rattle.wl_engines.specs.Judged.{IsJudgeOutput, JudgesText, RunsJudge, plan_judgement, run_state};
ghost use Rattle.wl_setup.specs.Limits.{most_bytes};
ghost use Rattle.wl_traffic.specs.Reasons.{reason_of};

use crate::fault::RunFault;
use crate::output::write_answer;
use crate::respond::text_of;
use std::alloc::{AllocError, Global};
use wl_device::{Ended, Sink, Source};
use wl_judge::{Answer, Judgement, Manner, RunSaid, RunState, judge_plan};
use wl_serial::run_counted;
use wl_setup::{Bus, PlanText, SetupFault, bus_of_bytes, read_bytes};
use wl_traffic::{Reason, traffic_of};
use wl_views::Tick;

/// Returns what a run says that doesn't work for this reason, or works.
fn run_state(reason: Reason) -> RunState
    ensures { result ≡ run_state reason }
{
    match reason {
        Reason::Works => RunState::Works,
        Reason::EndsTooEarly => RunState::EndsTooEarly,
        Reason::Errors
        | Reason::Overloaded
        | Reason::Starved
        | Reason::BusOff
        | Reason::Deaf
        | Reason::Missed
        | Reason::TakenTwice => RunState::Fails,
    }
}

/// Returns why the run of a plan doesn't work, or that it does.
fn run_reason(alloc: Global, tick: Tick, bus: &Bus) -> Result<Reason, AllocError>
    ensures { IfOk result (λ reason. reason ≡ reason_of bus.now.plan) }
{
    let counted = run_counted(alloc, &bus.plan)?;
    let found = traffic_of(alloc, tick, &bus.plan, &bus.names, &counted)?;
    Ok(found.reason)
}

/// Returns whether the bus of a text works, and the lines that say so.
fn judged(
    alloc: Global,
    tick: Tick,
    explain: bool,
    plain: &PlanText,
    bus: &Bus,
) -> Result<Answer, AllocError>
    requires { length bus.now.deviations ≡ length bus.now.plan.nodes }
    ensures judgement { IfOk result (λ a. a.judgement ≡ plan_judgement bus.now) }
    ensures text { IfOk result (λ a. IsJudgeOutput tick explain plain.now bus.now (string_bytes a.text)) }
{
    let reason = run_reason(alloc, tick, bus)?;
    let manner = Manner {
        tick: tick.picoseconds(),
        explain,
    };
    let run = RunSaid {
        state: run_state(reason),
        word: reason.word(),
    };
    judge_plan(alloc, manner, run, plain, bus)
}

/// Writes whether the bus of a text works, and returns it.
fn judge_to<W: Sink>(
    alloc: Global,
    tick: Tick,
    explain: bool,
    text: &[u8],
    writer: &mut W,
) -> Result<Judgement, RunFault>
    requires { length text.now ≤ most_bytes }
    ensures { JudgesText W.takes tick explain text.now writer.old writer.new result }
{
    let plain = text_of(alloc, text)?;
    let bus = bus_of_bytes(alloc, text)?;
    let answer = judged(alloc, tick, explain, &plain, &bus)?;
    write_answer(answer.judgement, answer.text.as_bytes(), writer)
}

/// Reads a plan's text, simulates the plan, and writes whether its bus works: how sure that is, where it is weakest, which change gives most,
/// how long messages may wait. Returns the judgement. A tick of the plan takes as long as `tick` says. If `explain` each part of the
/// output has a line with the command that says it.
///
/// The whole output is made before the first write. If the input is refused, or memory runs out, the writer isn't called; if the writer
/// fails, a prefix of the output has been written.
pub fn judge_run<R: Source, W: Sink>(
    alloc: Global,
    tick: Tick,
    explain: bool,
    reader: &mut R,
    writer: &mut W,
) -> Result<Judgement, RunFault>
    ensures { RunsJudge R.gives W.takes tick explain reader.old reader.new writer.old writer.new result }
{
    let (text, ended) = read_bytes(alloc, reader)?;
    match ended {
        Ended::End => judge_to(alloc, tick, explain, &text, writer),
        Ended::Broken => Err(RunFault::Setup(SetupFault::Read)),
        Ended::Full => Err(RunFault::Setup(SetupFault::Size)),
    }
}
