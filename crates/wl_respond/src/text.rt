//! The lines of how long the messages of a bus may wait.
ghost use Rattle.std.specs.Prelude.{◌≡◌, ◌++◌, ◌∷◌, [], ◌<◌, ◌^◌, ◌&&◌, ◌==◌, length, IfOk, IfSome, None, OnOk};
ghost use Rattle.wl_respond.specs.Texts.{AreLinesOf, AreLinesOfBus, lacking_line, load_line, message_lines, missed_count, no_clock_line, outcome_lines, verdict_line};

use crate::asked::Asked;
use crate::bounds::{Question, Waits, waits_asked};
use crate::parts::Line;
use crate::shapes::unknown_shape;
use crate::verdict::{Outcome, missed_count, outcome_in, verdict_line};
use crate::words::{lacking_line, line_of_message, line_of_text, load_line};
use std::alloc::{AllocError, Global};
use wl_lines::TextLine;
use wl_setup::{Bus, Names, PlanText};

/// How long the messages of a bus may wait.
#[derive(Drop)]
pub struct Response {
    /// The lines.
    pub lines: Vec<TextLine>,
    /// Whether each message has a bound, and meets its deadline.
    pub met: bool,
}

/// Adds the lines of all messages.
fn add_messages(
    alloc: Global,
    said: &mut Vec<TextLine>,
    names: &Names,
    asked: &[Asked],
    lines: &[Line],
) -> Result<(), AllocError>
    requires { length asked.now ≡ length lines.now }
    ensures { OnOk result (said.new.items ≡ said.old.items ++ message_lines names.now asked.now lines.now) }
{
    for e in 0..lines.len() {
        said.push(line_of_message(alloc, names, asked, lines, e)?)?;
    }
    Ok(())
}

/// Returns all lines and whether all deadlines are met.
fn made_response(
    alloc: Global,
    names: &Names,
    asked: &[Asked],
    lines: &[Line],
    outcome: Outcome,
) -> Result<Response, AllocError>
    requires { length asked.now ≡ length lines.now }
    ensures lines { IfOk result (λ r. r.lines.items ≡ outcome_lines names.now asked.now lines.now outcome) }
    ensures met { IfOk result (λ r. r.met ≡ outcome.shown && (missed_count lines.now == 0)) }
{
    let mut said = Vec::new(alloc);
    said.push(lacking_line(alloc, names, outcome.lacking)?)?;
    said.push(load_line(alloc, outcome.load)?)?;
    add_messages(alloc, &mut said, names, asked, lines)?;
    said.push(verdict_line(alloc, names, asked, lines, outcome)?)?;
    let met = outcome.shown && missed_count(lines) == 0;
    Ok(Response { lines: said, met })
}

/// Returns the line of a bus with a clock that is none without its `ppm`.
fn no_clock_response(alloc: Global) -> Result<Response, AllocError>
    ensures { IfOk result (λ r. AreLinesOf [] None r.lines.items r.met) }
{
    let mut said = Vec::new(alloc);
    said.push(line_of_text(
        alloc,
        unknown_shape(),
        "without its ppm a quantum takes less than a tick or more than 1,048,576",
    )?)?;
    Ok(Response {
        lines: said,
        met: false,
    })
}

/// Returns the lines of waits, and whether all deadlines are met; or the line of a bus with a clock that is none without its `ppm`.
fn lines_by(alloc: Global, names: &Names, found: Option<Waits>) -> Result<Response, AllocError>
    requires { IfSome found (λ w. length w.asked ≡ length w.lines) }
    ensures { IfOk result (λ r. AreLinesOf names.now found r.lines.items r.met) }
{
    match found {
        Some(waits) => {
            let outcome = outcome_in(&waits);
            made_response(
                alloc,
                names,
                waits.asked.as_slice(),
                waits.lines.as_slice(),
                outcome,
            )
        }
        None => no_clock_response(alloc),
    }
}

/// Returns how long each message of a bus may wait, as lines, and whether all meet their deadlines. The bus is that of the plan's text.
///
/// The first line says that the bounds are proved, or which premise lacks, the second how busy the bus is at most. Then follows a line for each
/// message: its node and identifier, the most bits of a frame with the end of frame, its period in quanta of its node and its jitter; how many
/// quanta and microseconds a frame waits at most; its deadline, and whether that is met; and of what the bound consists. The last line is the
/// verdict. Refused only when out of memory.
pub fn respond_lines(
    alloc: Global,
    question: Question,
    plain: &PlanText,
    bus: &Bus,
) -> Result<Response, AllocError>
    requires tick { question.tick < 2 ^ 36 }
    requires deviations { length bus.now.deviations ≡ length bus.now.plan.nodes }
    ensures { IfOk result (λ r. AreLinesOfBus question.tick question.any_data plain.now bus.now
        r.lines.items r.met) }
{
    let found = waits_asked(alloc, question, plain, bus)?;
    lines_by(alloc, &bus.names, found)
}
