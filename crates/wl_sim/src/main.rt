//! `wl_sim`: the program of Wireline: its command line, its files, hints and progress, and the status.
//!
//! It reads one input from standard input or from a file, does what its one subcommand says, and writes the output to standard output or to
//! a file. Of a record text `merge` writes the canonical text of the replica that its records make, and `horizon` what that replica knows
//! of each node, and up to which tick. `settings` reads a text of its own kind, or takes options in its place, and writes the bit timings with which a bus works.
//! `init` reads nothing, and writes a plan to begin from. The others read a plan text:
//!
//! - `check` writes what the bit segments allow and how long the cable takes;
//! - `format` writes the plan as one of version 4;
//! - `records` writes the records of the plan's simulation, `run` its report;
//! - `candump` writes the frames that were sent as can-utils logs them, `vcd` the waveform, `page` one page of HTML that shows all of it;
//! - `trace` writes what happened to each node, and where;
//! - `traffic` writes how busy the bus was and how long messages waited;
//! - `margin` writes whether the plan's bus works, and with how much to spare;
//! - `respond` writes how long each message may wait, and whether that is in time;
//! - `explain` writes what is doubtful of a plan, and the figures of its nodes, or what is wrong with a plan that is refused;
//! - `judge` writes whether the plan's bus works, how sure that is, where it is weakest, and which change gives most;
//! - `sweep` writes how many members of a family of plans are clean, also in parts that it joins.
#![tactic(auto)]

ghost use Rattle.std.specs.Prelude.{◌≡◌, ◌≢◌, ◌≤◌, ◌==◌, MatchBool, map, string_bytes, IfOk, IfErr, Ok, Err, option_map};
ghost use Rattle.std.specs.IoError.{error_kind};
ghost use Rattle.std.specs.Process.{exit_status};
ghost use Rattle.wl_words.specs.declared.task.Task.{Task};
ghost use Rattle.wl_engines.specs.Plans.{RunsPlanWith, IsReportOutput};
ghost use Rattle.wl_engines.specs.Workers.{RunsByWorkersAs};
ghost use Rattle.wl_files.specs.Files.{Keeps};
ghost use Rattle.wl_words.specs.CommandLine.{NamesTask};
ghost use Rattle.wl_sim.specs.Orders.{AppliesTo, Ends, EndsPlainly, MovesFile, Performs, PerformsApplied, PerformsTask, RunsWords, WritesTo, settings_tick};
ghost use Rattle.wl_sim.specs.Lines.{respond_asked};
ghost use Rattle.wl_sim.specs.Tasks.{AppliesAsked, Does, DoesApplied, DoesAs, DoesAnySweep, DoesBy, DoesIn, DoesSpikes, DoesSweep, DoesSwept, DoesTrace, FindsSettings, IsCount, run_status, refusal_status};

use std::alloc::Global;
use std::io::ErrorKind;
use std::process::ExitCode;
use std::sync::Wait;
use std::thread::Threads;
use std::time::Clock;
use std::{io, thread};
use wl_apply_engine::{AppliedFault, applied_of_words, applied_run};
use wl_device::{Host, Sink, Source};
use wl_engines::Kept;
use wl_files::{BeginFault, Folder, SystemFolder};
use wl_formats::Subject;
use wl_init::init_run;
use wl_lines::Format;
use wl_print::format_run;
use wl_settings::{AskedWord, SettingsFault, Shown, settings_of_words, settings_run};
use wl_setup::{SetupFault, Text};
use wl_sweep_engine::{
    Asked, Workers, join_run, map_run, part_run, print_run, spike_print, spikes_run, sweep_run,
};
use wl_views::{Pick, Tick};
use wl_words::{Order, Refusal, Swept, Task};

mod answer;
mod formats;
mod hints;
mod lines;
mod progress;
mod texts;

use crate::answer::{
    of_applied, of_doubts, of_format, of_init, of_join, of_judge, of_map, of_named_trace, of_print,
    of_settings, of_tally, of_traffic, of_verdict, plainly,
};
use crate::formats::{subject_of, write_kept};
use crate::lines::respond_asked;
pub use answer::{Done, Fault};
pub use wl_engines::{
    Crew, LinkKind, RunFault, candump_run_as, check_run, explain_run, horizon_run,
    horizon_run_within, judge_run, margin_run, merge_run, merge_run_within, merges_as_one,
    node_trace_run, page_run_within, picked_trace_run, plan_run, plan_run_as, records_run_within,
    respond_run, traffic_run, vcd_run_within, workers_run, workers_run_as,
};

/// The statuses that the program ends with beside 0.
const REFUSED_INPUT: u8 = 1;

const UNCLEAN_SWEEP: u8 = 1;

const REFUSED_COMMAND: u8 = 2;

const BROKEN: u8 = 3;

const UNKNOWN: u8 = 4;

/// The most threads of a sweep.
const MOST_THREADS: u8 = 8;

/// What is done: a task, over the ranges of a sweep or the node of a trace, or over words in the place of a text for `settings`.
#[derive(Clone, Copy)]
struct Work<'a> {
    task: Task,
    ranges: &'a [String],
    /// What options of `settings` ask for.
    asked: &'a [AskedWord],
    /// Another format of the output than text.
    format: Option<Format>,
    /// Whether a sweep says on standard error how far it is.
    progress: bool,
}

/// Hands the words of the command line, standard input, standard output and the system's files to `run_words`, whose answer is the
/// program's status. No clause says that these are handed on, and that the answer is the status: none can speak of a program's devices.
fn main(rt: HostRuntime) -> ExitCode {
    let words = wl_words::words_of(&rt);
    let mut reader = Host::new(rt.stdin());
    let mut writer = Host::new(rt.stdout());
    let mut folder = SystemFolder::new(&rt);
    run_words(
        &rt,
        rt.alloc(),
        words,
        &mut reader,
        &mut writer,
        &mut folder,
    )
}

/// Does what the words ask for: runs the engine of the task that they name, over the reader and the writer, or over the files that they
/// name in their place. Words that name no task, or that the system doesn't give, use none of these. It may wait if the task is a run by
/// several workers.
fn run_words<
    H: Eprint + Threads + Wait + Clock + Clone + Drop + Send + Sync + 'static,
    R: Source,
    W: Sink,
    F: Folder,
>(
    rt: &H,
    alloc: Global,
    words: io::Result<Vec<String>>,
    reader: &mut R,
    writer: &mut W,
    folder: &mut F,
) -> ExitCode
    ensures words { IfOk words (λ given. RunsWords R.gives W.takes F.Reader.gives F.Writer.takes F.opens F.stands
        F.holds reader.old reader.new writer.old writer.new folder.old folder.new
        (map string_bytes given.items) (exit_status result)) }
    ensures named { IfOk words (λ given. (task : Task) → NamesTask task (map string_bytes given.items)
        → EndsPlainly R.gives W.takes F.Reader.gives F.Writer.takes F.opens F.stands F.holds
        reader.old reader.new writer.old writer.new folder.old folder.new task (exit_status result)) }
    ensures memory { IfErr words (λ error. error_kind error ≡ ErrorKind.OutOfMemory
        → Ends R.gives W.takes F.Reader.gives F.Writer.takes F.opens F.stands F.holds
        reader.old reader.new writer.old writer.new folder.old folder.new (Err Refusal.Memory) (exit_status result)) }
    ensures unread { IfErr words (λ error. error_kind error ≢ ErrorKind.OutOfMemory
        → Ends R.gives W.takes F.Reader.gives F.Writer.takes F.opens F.stands F.holds
        reader.old reader.new writer.old writer.new folder.old folder.new (Err Refusal.Words) (exit_status result)) }
{
    match words {
        Ok(words) => {
            wl_words::a_word_is_read_as_its_task();
            run_given(rt, alloc, words.as_slice(), reader, writer, folder)
        }
        Err(error) => {
            let refusal = unread(&error);
            say_unread(rt, refusal);
            refused(rt, refusal)
        }
    }
}

/// Does what these words ask for, as `run_words`.
fn run_given<
    H: Eprint + Threads + Wait + Clock + Clone + Drop + Send + Sync + 'static,
    R: Source,
    W: Sink,
    F: Folder,
>(
    rt: &H,
    alloc: Global,
    words: &[String],
    reader: &mut R,
    writer: &mut W,
    folder: &mut F,
) -> ExitCode
    ensures { RunsWords R.gives W.takes F.Reader.gives F.Writer.takes F.opens F.stands F.holds
        reader.old reader.new writer.old writer.new folder.old folder.new
        (map string_bytes words.now) (exit_status result) }
{
    match wl_words::read(rt, alloc, words) {
        Ok(order) => run_order(rt, alloc, &order, reader, writer, folder),
        Err(refusal) => refused(rt, refusal),
    }
}

/// Does what an order asks for, says how long it takes and why it wasn't done, and returns the status.
fn run_order<
    H: Eprint + Threads + Wait + Clock + Clone + Drop + Send + Sync + 'static,
    R: Source,
    W: Sink,
    F: Folder,
>(rt: &H, alloc: Global, order: &Order, reader: &mut R, writer: &mut W, folder: &mut F) -> ExitCode
    ensures { Ends R.gives W.takes F.Reader.gives F.Writer.takes F.opens F.stands F.holds
        reader.old reader.new writer.old writer.new folder.old folder.new (Ok order.now) (exit_status result) }
{
    let ticker = progress::begin(rt, alloc, order);
    let answer = perform(rt, alloc, order, reader, writer, folder);
    progress::end(rt, ticker);
    if let Err(fault) = &answer {
        hints::say_fault(rt, alloc, order, fault, folder);
    }
    status_of(&answer)
}

/// Does the task of an order that has no plan beside it over the file to read that the order names, or over the reader if it names none. A
/// file that can't be opened is answered as a reader that fails.
fn perform_task<H: Threads + Wait + Sync + Eprint + Clock, R: Source, W: Sink, F: Folder>(
    rt: &H,
    alloc: Global,
    order: &Order,
    reader: &mut R,
    writer: &mut W,
    folder: &mut F,
) -> Result<Done, Fault>
    ensures { PerformsTask R.gives W.takes F.Reader.gives F.Writer.takes F.opens F.stands F.holds
        reader.old reader.new writer.old writer.new folder.old folder.new order.now result }
{
    let work = Work {
        task: order.task,
        ranges: order.ranges.as_slice(),
        asked: order.asked.as_slice(),
        format: order.format,
        progress: order.progress,
    };
    let output = order.output.as_ref();
    match &order.input {
        None => write_to(rt, alloc, work, output, reader, writer, folder),
        Some(name) => match folder.open(name.as_str()) {
            Ok(mut file) => write_to(rt, alloc, work, output, &mut file, writer, folder),
            Err(_) => Err(Fault::Run(RunFault::Setup(SetupFault::Read))),
        },
    }
}

/// A plan that gets settings.
#[derive(Clone, Copy)]
struct Applying<'a> {
    /// How long a tick takes.
    tick: Tick,
    /// What options ask for in the place of a text.
    asked: &'a [AskedWord],
    /// The file to write in the place of the writer.
    output: Option<&'a Text>,
}

/// Writes a plan with the first settings of what words ask for, or without words the reader's text.
fn write_asked<R: Source, P: Source, W: Sink>(
    alloc: Global,
    applying: Applying,
    reader: &mut R,
    plan: &mut P,
    writer: &mut W,
) -> Result<(), AppliedFault>
    ensures { AppliesAsked R.gives P.gives W.takes reader.old reader.new plan.old plan.new writer.old writer.new
        applying.entry.tick applying.entry.asked.now result }
{
    let picoseconds = applying.tick.picoseconds();
    match applying.asked {
        [] => applied_run(alloc, picoseconds, reader, plan, writer),
        _ => applied_of_words(alloc, picoseconds, applying.asked, plan, writer),
    }
}

/// Writes a plan with settings, as `write_asked` does.
fn run_applied<R: Source, P: Source, W: Sink>(
    alloc: Global,
    applying: Applying,
    reader: &mut R,
    plan: &mut P,
    writer: &mut W,
) -> Result<Done, Fault>
    ensures { DoesApplied R.gives P.gives W.takes reader.old reader.new plan.old plan.new writer.old writer.new
        applying.entry.tick applying.entry.asked.now result }
{
    of_applied(write_asked(alloc, applying, reader, plan, writer))
}

/// Writes a plan with settings into a new file, or to the writer if no file is named, as `write_to` does for a task.
fn apply_to<R: Source, P: Source, W: Sink, F: Folder>(
    alloc: Global,
    applying: Applying,
    reader: &mut R,
    plan: &mut P,
    writer: &mut W,
    folder: &mut F,
) -> Result<Done, Fault>
    ensures { AppliesTo R.gives P.gives W.takes F.Writer.takes F.stands F.holds reader.old reader.new plan.old plan.new
        writer.old writer.new folder.old folder.new applying.entry.tick applying.entry.asked.now
        (option_map (λ n. n.now) applying.entry.output) result }
{
    match applying.output {
        None => run_applied(alloc, applying, reader, plan, writer),
        Some(name) => match folder.begin(alloc, name.as_str()) {
            Ok(mut file) => {
                let answer = run_applied(alloc, applying, reader, plan, &mut file);
                finish(folder, file, name.as_str(), answer)
            }
            Err(BeginFault::Refused) => Err(Fault::Run(RunFault::Write)),
            Err(BeginFault::Memory) => Err(Fault::Run(RunFault::Memory)),
        },
    }
}

/// Writes the plan of a file with the settings that an order asks for. A file that can't be opened is answered as a reader that fails.
fn perform_applied<R: Source, W: Sink, F: Folder>(
    alloc: Global,
    order: &Order,
    tick: Tick,
    plan: &Text,
    reader: &mut R,
    writer: &mut W,
    folder: &mut F,
) -> Result<Done, Fault>
    ensures { PerformsApplied R.gives W.takes F.Reader.gives F.Writer.takes F.opens F.stands F.holds
        reader.old reader.new writer.old writer.new folder.old folder.new order.now tick plan.now result }
{
    let applying = Applying {
        tick,
        asked: order.asked.as_slice(),
        output: order.output.as_ref(),
    };
    let Ok(mut plan) = folder.open(plan.as_str()) else {
        return Err(Fault::Run(RunFault::Setup(SetupFault::Read)));
    };
    match &order.input {
        None => apply_to(alloc, applying, reader, &mut plan, writer, folder),
        Some(name) => {
            let Ok(mut file) = folder.open(name.as_str()) else {
                return Err(Fault::Run(RunFault::Setup(SetupFault::Read)));
            };
            apply_to(alloc, applying, &mut file, &mut plan, writer, folder)
        }
    }
}

/// Returns how long a tick is with which settings are asked for; `None` of another task.
fn settings_tick(task: Task) -> Option<Tick>
    ensures { result ≡ settings_tick task }
{
    match task {
        Task::Settings(tick, _, _) => Some(tick),
        _ => None,
    }
}

/// Does the task of an order: writes a plan with settings if the order names one, and else what the task is.
fn perform<H: Threads + Wait + Sync + Eprint + Clock, R: Source, W: Sink, F: Folder>(
    rt: &H,
    alloc: Global,
    order: &Order,
    reader: &mut R,
    writer: &mut W,
    folder: &mut F,
) -> Result<Done, Fault>
    ensures { Performs R.gives W.takes F.Reader.gives F.Writer.takes F.opens F.stands F.holds
        reader.old reader.new writer.old writer.new folder.old folder.new order.now result }
{
    match &order.apply {
        None => perform_task(rt, alloc, order, reader, writer, folder),
        Some(plan) => match settings_tick(order.task) {
            None => perform_task(rt, alloc, order, reader, writer, folder),
            Some(tick) => perform_applied(alloc, order, tick, plan, reader, writer, folder),
        },
    }
}

/// Does a task over a new file for its output, or over the writer if no file is named. If the task is done the file is moved to its name.
/// Else it is given up, and what was at its name stays.
fn write_to<H: Threads + Wait + Sync + Eprint + Clock, R: Source, W: Sink, F: Folder>(
    rt: &H,
    alloc: Global,
    work: Work,
    output: Option<&Text>,
    reader: &mut R,
    writer: &mut W,
    folder: &mut F,
) -> Result<Done, Fault>
    ensures { WritesTo R.gives W.takes F.Writer.takes F.stands F.holds reader.old reader.new writer.old writer.new
        folder.old folder.new work.entry.format work.entry.task (map string_bytes work.entry.ranges.now)
        work.entry.asked.now (option_map (λ n. n.now) output.entry) result }
{
    match output {
        None => run_as(rt, alloc, work, reader, writer),
        Some(name) => match folder.begin(alloc, name.as_str()) {
            Ok(mut file) => {
                let answer = run_as(rt, alloc, work, reader, &mut file);
                finish(folder, file, name.as_str(), answer)
            }
            Err(BeginFault::Refused) => Err(Fault::Run(RunFault::Write)),
            Err(BeginFault::Memory) => Err(Fault::Run(RunFault::Memory)),
        },
    }
}

/// Moves a new file to its name if the task was done, and else gives it up.
fn finish<F: Folder>(
    folder: &mut F,
    file: F::Writer,
    name: &str,
    answer: Result<Done, Fault>,
) -> Result<Done, Fault>
    ensures { MovesFile F.stands F.holds folder.old folder.new name.now file answer result }
{
    match answer {
        Ok(done) => {
            if folder.place(file, name) {
                Ok(done)
            } else {
                Err(Fault::Run(RunFault::Write))
            }
        }
        Err(fault) => {
            folder.discard(file);
            Err(fault)
        }
    }
}

/// Says that there are no words to read. If memory ran out, the line of that fault is all that is said.
fn say_unread(rt: &impl Eprint, refusal: Refusal) {
    if refusal == Refusal::Words {
        let _ = eprintln!(rt; "error: the arguments can't be read");
    }
}

/// Returns why words that the system didn't give name no task.
fn unread(error: &io::Error) -> Refusal
    ensures memory { error_kind error.now ≡ ErrorKind.OutOfMemory → result ≡ Refusal.Memory }
    ensures words { error_kind error.now ≢ ErrorKind.OutOfMemory → result ≡ Refusal.Words }
{
    if error.kind() == ErrorKind::OutOfMemory {
        Refusal::Memory
    } else {
        Refusal::Words
    }
}

/// Returns how many threads a sweep has if no number is said: one for each processor, 1 to 8.
fn threads_here<H: Threads>(rt: &H) -> u8
    ensures least { 1 ≤ result }
    ensures most { result ≤ 8 }
{
    match thread::available_parallelism(rt) {
        Ok(processors) => u8::try_from(processors.get())
            .unwrap_or(MOST_THREADS)
            .clamp(1, MOST_THREADS),
        Err(_) => 1,
    }
}

/// Returns how many threads a sweep has.
fn thread_count<H: Threads>(rt: &H, said: Option<u8>) -> u8
    ensures { IsCount said result }
{
    match said {
        Some(count) => count,
        None => threads_here(rt),
    }
}

/// Runs a sweep and writes what is found or its map, or writes one of its members.
fn run_sweep<H: Threads + Sync + Eprint + Clock, R: Source, W: Sink>(
    rt: &H,
    alloc: Global,
    swept: Swept,
    work: Work,
    reader: &mut R,
    writer: &mut W,
) -> Result<Done, Fault>
    ensures { DoesSweep R.gives W.takes reader.old reader.new writer.old writer.new
        swept (map string_bytes work.entry.ranges.now) swept.print swept.page result }
{
    let asked = Asked {
        options: swept.options,
        worst: swept.worst,
    };
    match swept.print {
        Some(number) => { of_print(print_run(alloc, work.ranges, asked, number, reader, writer)) }
        None => {
            let workers = Workers {
                count: thread_count(rt, swept.workers),
                progress: work.progress,
            };
            if swept.page {
                of_map(map_run(rt, alloc, work.ranges, asked, workers, reader, writer))
            } else {
                of_tally(sweep_run(rt, alloc, work.ranges, asked, workers, reader, writer))
            }
        }
    }
}

/// Runs a sweep or a part of it, or joins all parts of one.
fn run_swept<H: Threads + Sync + Eprint + Clock, R: Source, W: Sink>(
    rt: &H,
    alloc: Global,
    swept: Swept,
    work: Work,
    reader: &mut R,
    writer: &mut W,
) -> Result<Done, Fault>
    ensures { DoesSwept R.gives W.takes reader.old reader.new writer.old writer.new
        swept (map string_bytes work.entry.ranges.now) swept.join swept.part result }
{
    if swept.join {
        return of_join(join_run(alloc, reader, writer));
    }
    match swept.part {
        Some(share) => {
            let asked = Asked {
                options: swept.options,
                worst: swept.worst,
            };
            let workers = Workers {
                count: thread_count(rt, swept.workers),
                progress: work.progress,
            };
            of_print(part_run(
                rt,
                alloc,
                work.ranges,
                asked,
                share,
                workers,
                reader,
                writer,
            ))
        }
        None => run_sweep(rt, alloc, swept, work, reader, writer),
    }
}

/// Runs a plan with a spike at one place in time after another and writes what each costs, or writes one of its members.
fn run_spikes<H: Threads + Sync + Eprint + Clock, R: Source, W: Sink>(
    rt: &H,
    alloc: Global,
    swept: Swept,
    work: Work,
    reader: &mut R,
    writer: &mut W,
) -> Result<Done, Fault>
    ensures { DoesSpikes R.gives W.takes reader.old reader.new writer.old writer.new
        swept (map string_bytes work.entry.ranges.now) swept.print result }
{
    let asked = Asked {
        options: swept.options,
        worst: swept.worst,
    };
    match swept.print {
        Some(number) => of_print(spike_print(alloc, work.ranges, asked, number, reader, writer)),
        None => {
            let workers = Workers {
                count: thread_count(rt, swept.workers),
                progress: work.progress,
            };
            of_map(spikes_run(rt, alloc, work.ranges, asked, workers, reader, writer))
        }
    }
}

/// Runs a sweep: of spikes, or of a family and its ranges.
fn run_any_sweep<H: Threads + Sync + Eprint + Clock, R: Source, W: Sink>(
    rt: &H,
    alloc: Global,
    swept: Swept,
    work: Work,
    reader: &mut R,
    writer: &mut W,
) -> Result<Done, Fault>
    ensures { DoesAnySweep R.gives W.takes reader.old reader.new writer.old writer.new
        swept (map string_bytes work.entry.ranges.now) swept.spike result }
{
    if swept.spike {
        run_spikes(rt, alloc, swept, work, reader, writer)
    } else {
        run_swept(rt, alloc, swept, work, reader, writer)
    }
}

/// Runs a plan by its workers: by the one-thread engine if there is one worker. Returns whether the verdict is clean. It may wait if there
/// are several workers.
fn run_by<H: Threads + Wait + Sync, R: Source, W: Sink>(
    rt: &H,
    alloc: Global,
    crew: Crew,
    reader: &mut R,
    writer: &mut W,
) -> Result<bool, RunFault>
    ensures { MatchBool (crew.workers == 1)
        (RunsPlanWith R.gives W.takes (IsReportOutput crew.brief) reader.old reader.new writer.old writer.new result)
        (RunsByWorkersAs R.gives W.takes crew.brief crew.workers reader.old reader.new writer.old writer.new result) }
{
    if crew.workers == 1 {
        plan_run_as(alloc, crew.brief, reader, writer)
    } else {
        workers_run_as(rt, alloc, crew, reader, writer)
    }
}

/// Writes the settings of a bus that words ask for, or without words the reader's text. Returns whether each controller has one.
fn run_settings<R: Source, W: Sink>(
    alloc: Global,
    tick: Tick,
    shown: Shown,
    asked: &[AskedWord],
    reader: &mut R,
    writer: &mut W,
) -> Result<bool, SettingsFault>
    ensures { FindsSettings R.gives W.takes reader.old reader.new writer.old writer.new tick shown asked.now result }
{
    let picoseconds = tick.picoseconds();
    match asked {
        [] => settings_run(alloc, picoseconds, shown, reader, writer),
        _ => settings_of_words(alloc, picoseconds, shown, asked, writer),
    }
}

/// Writes what happened in a run, as far as it is picked: of the nodes that `pick` has, or of the node of the name that is given.
fn run_trace<R: Source, W: Sink>(
    alloc: Global,
    pick: Pick,
    named: &[String],
    reader: &mut R,
    writer: &mut W,
) -> Result<Done, Fault>
    ensures { DoesTrace R.gives W.takes reader.old reader.new writer.old writer.new
        pick (map string_bytes named.now) result }
{
    match named {
        [] => plainly(picked_trace_run(alloc, pick, reader, writer)),
        [name, ..] => of_named_trace(node_trace_run(alloc, pick, name.as_str(), reader, writer)),
    }
}

/// Runs the engine of a task. It may wait if that is a run by several workers.
fn run<H: Threads + Wait + Sync + Eprint + Clock, R: Source, W: Sink>(
    rt: &H,
    alloc: Global,
    work: Work,
    reader: &mut R,
    writer: &mut W,
) -> Result<Done, Fault>
    ensures { Does R.gives W.takes reader.old reader.new writer.old writer.new
        work.entry.task (map string_bytes work.entry.ranges.now) work.entry.asked.now result }
{
    match work.task {
        Task::Init(wish) => of_init(init_run(alloc, wish, writer)),
        Task::Merge(limits) => plainly(merge_run_within(alloc, limits, reader, writer)),
        Task::Horizon(limits) => plainly(horizon_run_within(alloc, limits, reader, writer)),
        Task::Check => plainly(check_run(alloc, reader, writer)),
        Task::Upgrade => of_format(format_run(alloc, reader, writer)),
        Task::Records(window) => plainly(records_run_within(alloc, window, reader, writer)),
        Task::Run(workers, kind, brief, strict) => {
            let crew = Crew {
                workers,
                kind,
                brief,
            };
            of_verdict(strict, run_by(rt, alloc, crew, reader, writer))
        }
        Task::Explain(strict) => of_doubts(strict, explain_run(alloc, reader, writer)),
        Task::Trace(pick) => run_trace(alloc, pick, work.ranges, reader, writer),
        Task::Candump(tick, from, errors, window) => {
            plainly(candump_run_as(alloc, tick, from, errors, window, reader, writer))
        }
        Task::Vcd(tick, window) => plainly(vcd_run_within(alloc, tick, window, reader, writer)),
        Task::Page(tick, window) => plainly(page_run_within(alloc, tick, window, reader, writer)),
        Task::Margin(tick, all_send, strict) => {
            of_verdict(strict, margin_run(alloc, tick, all_send, reader, writer))
        }
        Task::Respond(tick, any_data, strict) => {
            of_verdict(
                strict,
                respond_run(alloc, tick, any_data, None, reader, writer),
            )
        }
        Task::Traffic(tick, strict) => of_traffic(strict, traffic_run(alloc, tick, reader, writer)),
        Task::Judge(tick, explain) => of_judge(judge_run(alloc, tick, explain, reader, writer)),
        Task::Settings(tick, shown, strict) => {
            let found = run_settings(alloc, tick, shown, work.asked, reader, writer);
            of_settings(strict, found)
        }
        Task::Sweep(swept) => run_any_sweep(rt, alloc, swept, work, reader, writer),
    }
}

/// Runs the engine of a task into memory, and writes that in another format.
fn run_formatted<H: Threads + Wait + Sync + Eprint + Clock, R: Source, W: Sink>(
    rt: &H,
    alloc: Global,
    work: Work,
    format: Format,
    subject: Subject,
    reader: &mut R,
    writer: &mut W,
) -> Result<Done, Fault>
    ensures { DoesBy R.gives W.takes reader.old reader.new writer.old writer.new
        format (Some subject) work.entry.task (map string_bytes work.entry.ranges.now) work.entry.asked.now result }
{
    let mut kept = Kept::new(alloc);
    let answer = run(rt, alloc, work, reader, &mut kept);
    write_kept(alloc, format, subject, &kept.bytes, answer, writer)
}

/// Runs the engine of a task into another format than text, if its output has one. The engine of `respond` makes the format itself.
fn run_in<H: Threads + Wait + Sync + Eprint + Clock, R: Source, W: Sink>(
    rt: &H,
    alloc: Global,
    work: Work,
    format: Format,
    reader: &mut R,
    writer: &mut W,
) -> Result<Done, Fault>
    ensures { DoesIn R.gives W.takes reader.old reader.new writer.old writer.new
        format (respond_asked work.entry.task) work.entry.task (map string_bytes work.entry.ranges.now)
        work.entry.asked.now result }
{
    match respond_asked(work.task) {
        Some(waits) => {
            let found = respond_run(
                alloc,
                waits.tick,
                waits.any_data,
                Some(format),
                reader,
                writer,
            );
            of_verdict(waits.strict, found)
        }
        None => match subject_of(work.task) {
            None => run(rt, alloc, work, reader, writer),
            Some(subject) => run_formatted(rt, alloc, work, format, subject, reader, writer),
        },
    }
}

/// Runs the engine of a task, whose output may have another format than text.
fn run_as<H: Threads + Wait + Sync + Eprint + Clock, R: Source, W: Sink>(
    rt: &H,
    alloc: Global,
    work: Work,
    reader: &mut R,
    writer: &mut W,
) -> Result<Done, Fault>
    ensures { DoesAs R.gives W.takes reader.old reader.new writer.old writer.new
        work.entry.format work.entry.task (map string_bytes work.entry.ranges.now) work.entry.asked.now result }
{
    match work.format {
        None => run(rt, alloc, work, reader, writer),
        Some(format) => run_in(rt, alloc, work, format, reader, writer),
    }
}

/// Returns the status of a run.
fn status_of(answer: &Result<Done, Fault>) -> ExitCode
    ensures { exit_status result ≡ run_status answer.now }
{
    match answer {
        Ok(Done::Plain) => ExitCode::SUCCESS,
        Ok(Done::Unclean) => ExitCode::from(UNCLEAN_SWEEP),
        Ok(Done::Unknown) => ExitCode::from(UNKNOWN),
        Err(Fault::Run(fault)) => {
            if fault.is_refusal() {
                ExitCode::from(REFUSED_INPUT)
            } else {
                ExitCode::from(BROKEN)
            }
        }
        Err(Fault::Word(_)) | Err(Fault::Node) | Err(Fault::Init(_)) => {
            ExitCode::from(REFUSED_COMMAND)
        }
        Err(Fault::Settings(_))
        | Err(Fault::Apply(_))
        | Err(Fault::Print(_))
        | Err(Fault::Join(_)) => { ExitCode::from(REFUSED_INPUT) }
        Err(Fault::Format) => ExitCode::from(BROKEN),
    }
}

/// Returns the status of a command line that named no task. What was wrong with its words has been said; out of memory is reported here.
fn refused(rt: &impl Eprint, refusal: Refusal) -> ExitCode
    ensures { exit_status result ≡ refusal_status refusal }
{
    match refusal {
        Refusal::Words => ExitCode::from(REFUSED_COMMAND),
        Refusal::Memory => {
            let _ = eprintln!(rt; "fault: Memory");
            ExitCode::from(BROKEN)
        }
    }
}
