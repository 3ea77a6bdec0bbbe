//! The output of a task in another format.
ghost use Rattle.std.specs.Prelude.{◌≡◌, Result};
ghost use Rattle.wl_sim.specs.declared.answer.Done.{Done};
ghost use Rattle.wl_sim.specs.declared.answer.Fault.{Fault};
ghost use Rattle.wl_sim.specs.Tasks.{WritesAs, WritesFormatted, WritesRefused, after_written, is_write, subject_of};

use crate::answer::{Done, Fault};
use std::alloc::Global;
use wl_device::{Sink, write_all};
use wl_engines::RunFault;
use wl_formats::{FormatFault, Subject, formatted};
use wl_lines::Format;
use wl_settings::Shown;
use wl_words::Task;

/// Returns the command of a task, if other formats are made of its text. A member of a sweep and the plan of a setting are plans, the map of a
/// sweep is a page, and a part of it JSON; `respond` makes its formats itself.
pub(crate) fn subject_of(task: Task) -> Option<Subject>
    ensures { result ≡ subject_of task }
{
    match task {
        Task::Check => Some(Subject::Check),
        Task::Run(_, _, _, _) => Some(Subject::Run),
        Task::Explain(_) => Some(Subject::Explain),
        Task::Trace(_) => Some(Subject::Trace),
        Task::Margin(_, _, _) => Some(Subject::Margin),
        Task::Traffic(_, _) => Some(Subject::Traffic),
        Task::Judge(_, _) => Some(Subject::Judge),
        Task::Settings(_, shown, _) => match shown {
            Shown::Best(_) => Some(Subject::Settings),
            Shown::Plan => None,
        },
        Task::Sweep(swept) => {
            if !swept.join && (swept.part.is_some() || swept.print.is_some() || swept.page) {
                None
            } else {
                Some(if swept.spike {
                    Subject::Spikes
                } else {
                    Subject::Sweep
                })
            }
        }
        Task::Init(_)
        | Task::Merge(_)
        | Task::Horizon(_)
        | Task::Upgrade
        | Task::Records(_)
        | Task::Candump(_, _, _, _)
        | Task::Vcd(_, _)
        | Task::Page(_, _)
        | Task::Respond(_, _, _) => None,
    }
}

/// Writes a text in another format. On a fault not all of it went.
fn write_other<W: Sink>(
    alloc: Global,
    format: Format,
    subject: Subject,
    text: &[u8],
    writer: &mut W,
) -> Result<(), Fault>
    ensures { (answer : Result Done Fault)
        → WritesFormatted W.takes writer.old writer.new format subject text.now answer (after_written answer result) }
{
    match formatted(alloc, format, subject, text) {
        Ok(bytes) => match write_all(&bytes, writer) {
            Ok(()) => Ok(()),
            Err(_) => Err(Fault::Run(RunFault::Write)),
        },
        Err(FormatFault::Shape) => Err(Fault::Format),
        Err(FormatFault::Memory) => Err(Fault::Run(RunFault::Memory)),
    }
}

/// Writes a text in another format, and returns an answer if all of it went.
fn write_formatted<W: Sink>(
    alloc: Global,
    format: Format,
    subject: Subject,
    text: &[u8],
    answer: Result<Done, Fault>,
    writer: &mut W,
) -> Result<Done, Fault>
    ensures { WritesFormatted W.takes writer.old writer.new format subject text.now answer result }
{
    match write_other(alloc, format, subject, text, writer) {
        Ok(()) => answer,
        Err(fault) => Err(fault),
    }
}

/// True if a fault is one of writing.
fn is_write(fault: &Fault) -> bool
    ensures { result ≡ is_write fault.now }
{
    match fault {
        Fault::Run(fault) => match fault {
            RunFault::Write => true,
            _ => false,
        },
        _ => false,
    }
}

/// Writes what an engine wrote into memory before a fault, and returns that fault. Nothing is written if the engine wrote nothing, or if
/// memory ran out.
fn write_refused<W: Sink>(
    alloc: Global,
    format: Format,
    subject: Subject,
    text: &[u8],
    fault: Fault,
    writer: &mut W,
) -> Result<Done, Fault>
    ensures { WritesRefused W.takes writer.old writer.new format subject text.now fault result }
{
    if is_write(&fault) {
        return Err(Fault::Run(RunFault::Memory));
    }
    if text.is_empty() {
        return Err(fault);
    }
    write_formatted(alloc, format, subject, text, Err(fault), writer)
}

/// Writes what an engine wrote into memory in another format, and returns what the engine answered.
pub(crate) fn write_kept<W: Sink>(
    alloc: Global,
    format: Format,
    subject: Subject,
    text: &[u8],
    answer: Result<Done, Fault>,
    writer: &mut W,
) -> Result<Done, Fault>
    ensures { WritesAs W.takes writer.old writer.new format subject text.now answer result }
{
    match answer {
        Ok(done) => write_formatted(alloc, format, subject, text, Ok(done), writer),
        Err(fault) => write_refused(alloc, format, subject, text, fault, writer),
    }
}
