//! The command line.
ghost use Rattle.std.specs.Prelude.{◌≡◌, ◌≢◌, ◌↔◌, if◌then◌else◌, map, string_bytes, codes, IfOk, IfErr, Some, None, option_map};
ghost use Rattle.clap.specs.Words.{kind_of, subcommand_rows_of};
ghost use Rattle.wl_words.specs.CommandLine.{asked_words_in, begun_task, Enters, FoundTask, are_fitting, file_in, go_together, has_flag, is_asked_once, ranges_in};
ghost use Rattle.wl_words.specs.CommandLine.{candump_task, init_task, judgement_task, page_task, plain_task, run_task, sweep_task, task_named, timed_task, trace_task, valued_task, vcd_task};
ghost use Rattle.wl_words.specs.Asked.{FindsOrder, ReadsOrder};

use crate::asked::asked_of_subcommand;
use crate::clash::{Clash, clash_of_subcommand};
use crate::subcommands::matches_of;
use crate::task::Task;
use crate::values::{
    Values, file_of_subcommand, flag_of_subcommand, format_of_subcommand, ranges_of_subcommand,
    values_of_subcommand,
};
use clap::error::ErrorKind;
use clap::{ArgMatches, Error};
use std::alloc::{AllocError, Global};
use std::io;
use std::rt::Env;
use wl_lines::Format;
use wl_settings::AskedWord;
use wl_setup::Text;
use wl_views::Tick;

/// What the words of the command line ask for.
#[derive(Drop)]
pub struct Order {
    /// What is to be done.
    pub task: Task,
    /// The file to read in the place of standard input.
    pub input: Option<Text>,
    /// The name that a file with the output gets, in the place of standard output.
    pub output: Option<Text>,
    /// After a fault a line says what to change.
    pub hint: bool,
    /// Lines say how long the run has taken, or how far a sweep is.
    pub progress: bool,
    /// What the plan has to have: the ranges of a sweep, in the order of the words, or where a spike is and how long it takes, or the node of
    /// a trace by its name.
    pub ranges: Vec<String>,
    /// What options of `settings` say in the place of a file.
    pub asked: Vec<AskedWord>,
    /// The file with the plan that gets settings.
    pub apply: Option<Text>,
    /// Another format of the output than text.
    pub format: Option<Format>,
}

/// Why no task could be read from the command line.
#[derive(Clone, Copy, PartialEq, Eq)]
pub enum Refusal {
    /// The words were refused, or help was asked for; the text is on standard error.
    Words,
    /// Out of memory.
    Memory,
}

/// Returns the task that a word names by itself.
fn plain_task(word: &str) -> Option<Task>
    ensures { result ≡ plain_task word.now }
{
    match word {
        "check" => Some(Task::Check),
        "format" => Some(Task::Upgrade),
        _ => None,
    }
}

/// Returns the task of `run`, if the values have what it wants.
fn run_task(values: &Values) -> Option<Task>
    ensures { result ≡ run_task values.now }
{
    Some(Task::Run(values.workers?, values.link?, values.brief, values.strict))
}

/// Returns the task of `candump`, if the values have what it wants.
fn candump_task(values: &Values) -> Option<Task>
    ensures { result ≡ candump_task values.now }
{
    Some(Task::Candump(values.tick?, values.from?, values.errors, values.window))
}

/// Returns the task of `trace`, if the values have what it wants.
fn trace_task(values: &Values) -> Option<Task>
    ensures { result ≡ trace_task values.now }
{
    Some(Task::Trace(values.pick?))
}

/// Returns the task of `sweep`, if the values have what it wants.
fn sweep_task(values: &Values) -> Option<Task>
    ensures { result ≡ sweep_task values.now }
{
    Some(Task::Sweep(values.swept?))
}

/// Returns the task of `init`, if the values have what it wants.
fn init_task(values: &Values) -> Option<Task>
    ensures { result ≡ init_task values.now }
{
    Some(Task::Init(values.wish?))
}

/// Returns the task of `vcd`, if the values have what it wants.
fn vcd_task(tick: Tick, values: &Values) -> Option<Task>
    ensures { result ≡ vcd_task values.now tick }
{
    Some(Task::Vcd(tick, values.wave?))
}

/// Returns the task of `page`, if the values have what it wants.
fn page_task(tick: Tick, values: &Values) -> Option<Task>
    ensures { result ≡ page_task values.now tick }
{
    Some(Task::Page(tick, values.wave?))
}

/// Returns the task of `judge`, if the values have what it wants.
fn judgement_task(values: &Values) -> Option<Task>
    ensures { result ≡ judgement_task values.now }
{
    Some(Task::Judge(values.tick?, values.explain))
}

/// Returns the task that a word names at ticks that take so long.
fn timed_task(word: &str, tick: Tick, values: &Values) -> Option<Task>
    ensures { result ≡ timed_task word.now values.now tick }
{
    match word {
        "vcd" => vcd_task(tick, values),
        "page" => page_task(tick, values),
        "margin" => Some(Task::Margin(tick, values.all_send, values.strict)),
        "traffic" => Some(Task::Traffic(tick, values.strict)),
        "settings" => Some(Task::Settings(tick, values.shown, values.strict)),
        "respond" => Some(Task::Respond(tick, values.any_data, values.strict)),
        _ => None,
    }
}

/// Returns the task that a word names if it is `init` or `judge`, or a task over ticks that take so long.
fn begun_task(word: &str, values: &Values) -> Option<Task>
    ensures { result ≡ begun_task word.now values.now }
{
    match word {
        "init" => init_task(values),
        "judge" => judgement_task(values),
        _ => timed_task(word, values.tick?, values),
    }
}

/// Returns the task that a word names with values of options.
fn valued_task(word: &str, values: &Values) -> Option<Task>
    ensures { result ≡ valued_task word.now values.now }
{
    match word {
        "merge" => Some(Task::Merge(values.limits)),
        "horizon" => Some(Task::Horizon(values.limits)),
        "records" => Some(Task::Records(values.window)),
        "explain" => Some(Task::Explain(values.strict)),
        "run" => run_task(values),
        "trace" => trace_task(values),
        "candump" => candump_task(values),
        "sweep" => sweep_task(values),
        _ => begun_task(word, values),
    }
}

/// Returns the task of a subcommand, by its name and the values of its options.
fn task_named(name: Option<&str>, values: Option<Values>) -> Option<Task>
    ensures { result ≡ task_named (option_map (λ s. s.now) name.entry) values }
{
    let name = name?;
    match plain_task(name) {
        Some(task) => Some(task),
        None => valued_task(name, &values?),
    }
}

/// Returns the task that a parse of these words found.
fn task_in(matches: &ArgMatches) -> Option<Task>
    ensures { (task : Task) → (result ≡ Some task) ↔ FoundTask (subcommand_rows_of matches.now) task }
{
    let values = values_of_subcommand(matches);
    task_named(matches.subcommand_name(), values)
}

/// Returns what is asked for beside a task, by the words of the subcommand.
fn order_for(
    alloc: Global,
    matches: &ArgMatches,
    task: Task,
    format: Option<Format>,
) -> Result<Order, AllocError>
    ensures task { IfOk result (λ order. order.task ≡ task) }
    ensures input { IfOk result (λ order. order.input ≡ file_in (codes "input") (subcommand_rows_of matches.now)) }
    ensures output { IfOk result (λ order. order.output ≡ file_in (codes "output") (subcommand_rows_of matches.now)) }
    ensures hint { IfOk result (λ order. order.hint ≡ has_flag (codes "hint") (subcommand_rows_of matches.now)) }
    ensures progress { IfOk result (λ order. order.progress
        ≡ has_flag (codes "progress") (subcommand_rows_of matches.now)) }
    ensures ranges { IfOk result (λ order. map string_bytes order.ranges.items
        ≡ ranges_in (subcommand_rows_of matches.now)) }
    ensures format { IfOk result (λ order. order.format ≡ format) }
    ensures asked { IfOk result (λ order. order.asked.items ≡ asked_words_in (subcommand_rows_of matches.now)) }
    ensures apply { IfOk result (λ order. order.apply ≡ file_in (codes "apply") (subcommand_rows_of matches.now)) }
{
    let input = file_of_subcommand(alloc, matches, "input")?;
    let output = file_of_subcommand(alloc, matches, "output")?;
    let ranges = ranges_of_subcommand(alloc, matches)?;
    let asked = asked_of_subcommand(alloc, matches)?;
    let apply = file_of_subcommand(alloc, matches, "apply")?;
    Ok(Order {
        task,
        input,
        output,
        hint: flag_of_subcommand(matches, "hint"),
        progress: flag_of_subcommand(matches, "progress"),
        ranges,
        asked,
        apply,
        format,
    })
}

/// True if an order has no file to read, or nothing is asked for in its place.
fn is_asked_once(order: &Order) -> bool
    ensures { result ≡ is_asked_once order.now.input order.now.asked.items }
{
    match &order.input {
        None => true,
        Some(_) => match order.asked.as_slice() {
            [] => true,
            _ => false,
        },
    }
}

/// True if an order is asked for once, and nothing is wrong beside `--apply`.
fn are_fitting(order: &Order, wrong: Option<Clash>) -> bool
    ensures { result ≡ are_fitting order.now.input order.now.asked.items wrong }
{
    is_asked_once(order) && wrong.is_none()
}

/// Returns an order whose options go together.
fn fitting(order: Order, wrong: Option<Clash>) -> Option<Order>
    ensures { result ≡ (if are_fitting order.input order.asked.items wrong then Some order else None) }
{
    if are_fitting(&order, wrong) {
        Some(order)
    } else {
        None
    }
}

/// Returns what these words ask for, the program's own name first; an error that isn't out of memory is what clap says to them.
fn order_of(alloc: Global, words: &[String]) -> Result<Option<Order>, Error>
    ensures order { IfOk result (FindsOrder (map string_bytes words.now)) }
    ensures memory { IfErr result (λ e. (task : Task) → Enters task (map string_bytes words.now)
        → kind_of e ≡ ErrorKind.OutOfMemory) }
{
    let matches = matches_of(alloc, words)?;
    match task_in(&matches) {
        Some(task) => match format_of_subcommand(&matches) {
            Some(format) => {
                let order = order_for(alloc, &matches, task, format)?;
                Ok(fitting(order, clash_of_subcommand(&matches)))
            }
            None => Ok(None),
        },
        None => Ok(None),
    }
}

/// Returns why words that clap refused with this kind of error name no task.
fn refusal_of(kind: ErrorKind) -> Refusal
    ensures memory { kind ≡ ErrorKind.OutOfMemory → result ≡ Refusal.Memory }
    ensures words { kind ≢ ErrorKind.OutOfMemory → result ≡ Refusal.Words }
{
    if kind == ErrorKind::OutOfMemory {
        Refusal::Memory
    } else {
        Refusal::Words
    }
}

/// Returns what options want, if clap lets in values that name nothing.
fn wanted(words: &[String]) -> &'static str {
    match words.get(1) {
        Some(word) => match word.as_str() {
            "run" => "--link wants hub or mail, and --format text, json, csv, table or coloured",
            "check" | "explain" => "--format wants text, json, csv, table or coloured",
            "sweep" =>
                "--format wants text, json, csv, table or coloured, and --spike wants --length, and no --vary, --page, --part and --join",
            "settings" =>
                "--tick wants 1 to 999 and ps, ns or us, as 125ps, --format text, json, csv, table or coloured, and what is asked for comes from a FILE or from options",
            "trace" =>
                "--only wants lost, error, flag, frame, mode or sync, and --format text, json, csv, table or coloured",
            "judge" | "margin" | "respond" | "traffic" => {
                "--tick wants 1 to 999 and ps, ns or us, as 125ps, and --format text, json, csv, table or coloured"
            }
            "vcd" | "page" =>
                "--tick wants 1 to 999 and ps, ns or us, as 125ps, and --from and --to ticks, as 4000, or a time of whole ticks, as 3ms",
            _ => "--tick wants 1 to 999 and ps, ns or us, as 125ps",
        },
        None => "no task is named",
    }
}

/// Returns what is wrong with options beside `--apply`; `None` if they go together, or memory ran out.
fn clash_of(alloc: Global, words: &[String]) -> Option<Clash> {
    match matches_of(alloc, words) {
        Ok(matches) => clash_of_subcommand(&matches),
        Err(_) => None,
    }
}

/// Returns what is wrong with words that clap lets in and that name no task.
fn refused_by(alloc: Global, words: &[String]) -> &'static str {
    match clash_of(alloc, words) {
        Some(wrong) => wrong.said(),
        None => wanted(words),
    }
}

/// Returns a text of several lines, with escapes for what could steer a terminal: words are said again as they came.
fn shown_lines(alloc: Global, said: &str) -> Result<String, AllocError> {
    let mut shown = String::new(alloc);
    let mut is_first = true;
    for line in said.split('\n') {
        if !is_first {
            shown.push_str("\n")?;
        }
        is_first = false;
        let line = Text::new(alloc, line)?;
        write!(shown, "{line}")?;
    }
    Ok(shown)
}

/// Returns what clap finds wrong with words, or its help.
fn said_of(alloc: Global, error: &Error) -> Result<String, AllocError> {
    let said = format!(in alloc; "{error}")?;
    shown_lines(alloc, said.as_str())
}

/// Says what clap finds wrong with words. If memory ran out, the line of that fault is all that is said.
fn say(rt: &impl Eprint, alloc: Global, refusal: Refusal, error: &Error) {
    if refusal == Refusal::Words {
        if let Ok(said) = said_of(alloc, error) {
            let _ = eprint!(rt; "{said}");
        }
    }
}

/// Returns what the words ask for, the program's own name first. What is wrong with them goes to standard error, and so does help. No
/// clause says that this text goes out, since none can speak of standard error.
pub fn read(rt: &impl Eprint, alloc: Global, words: &[String]) -> Result<Order, Refusal>
    ensures { ReadsOrder (map string_bytes words.now) result }
{
    match order_of(alloc, words) {
        Ok(Some(order)) => Ok(order),
        Ok(None) => {
            let said = refused_by(alloc, words);
            let _ = eprintln!(rt; "error: {said}");
            Err(Refusal::Words)
        }
        Err(error) => {
            let refusal = refusal_of(error.kind());
            say(rt, alloc, refusal, &error);
            Err(refusal)
        }
    }
}

/// Returns the words of the command line, the program's own name first.
pub fn words_of<R: Env + AllocGlobal>(rt: &R) -> io::Result<Vec<String>> {
    let words = std::env::args(rt)?;
    Ok(words.collect(rt.alloc())?)
}
