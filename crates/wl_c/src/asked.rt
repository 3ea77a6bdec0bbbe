//! What a call asks for.
ghost use Rattle.std.specs.Prelude.{◌≡◌, IfSome, ◌<◌};
ghost use Rattle.wl_views.specs.Ticks.{tick_picoseconds};
ghost use Rattle.wl_c.specs.Orders.{asked_picoseconds, format_of, judge_task, margin_task, order_in, subject_name, asked_tick, respond_task, traffic_task, unit_count};

use wl_formats::Subject;
use wl_lines::Format;
use wl_views::{Tick, TimeUnit};

/// What a caller asks for beside the plan. All zeros is the program without options.
#[repr(C)]
#[derive(Clone, Copy)]
pub struct Asked {
    /// The form of the output: 0 is text, 1 JSON, 2 CSV.
    pub format: u32,
    /// How many picoseconds a tick of the plan takes: 1 to 999 ps, ns or us; 0 is 1 ns. `margin`, `traffic`, `respond` and `judge` read it.
    pub tick: u32,
    /// For `margin`, who sends: 0 is the plan's senders, and any other number all nodes that don't only listen.
    pub all_send: u32,
}

/// A command, with its options.
#[derive(Clone, Copy)]
pub enum Task {
    /// The report of a plan's simulation.
    Run,
    /// What the bit segments allow, and how long the cable takes.
    Check,
    /// What is doubtful of a plan, or wrong with it.
    Explain,
    /// Whether the bus works, at ticks of this length: for the plan's senders, or, if true, for all nodes that don't only listen.
    Margin(Tick, bool),
    /// How busy the bus was, at ticks of this length.
    Traffic(Tick),
    /// How long messages may wait, at ticks of this length.
    Respond(Tick),
    /// Whether the bus works, and what would help, at ticks of this length.
    Judge(Tick),
}

impl Task {
    /// Returns the command's name, if another format is made of its text. `respond` makes its formats itself.
    pub(crate) fn subject(self) -> Option<Subject>
        ensures { result ≡ subject_name self }
    {
        match self {
            Task::Run => Some(Subject::Run),
            Task::Check => Some(Subject::Check),
            Task::Explain => Some(Subject::Explain),
            Task::Margin(_, _) => Some(Subject::Margin),
            Task::Traffic(_) => Some(Subject::Traffic),
            Task::Respond(_) => None,
            Task::Judge(_) => Some(Subject::Judge),
        }
    }
}

/// A command and the form of its output: `None` is text.
#[derive(Clone, Copy)]
pub struct Order {
    /// The command.
    pub task: Task,
    /// The form of its output.
    pub format: Option<Format>,
}

/// Returns the form of this number: `None` within is text. `None` if there is none.
fn format_of(number: u32) -> Option<Option<Format>>
    ensures { result ≡ format_of number }
{
    match number {
        0 => Some(None),
        1 => Some(Some(Format::Json)),
        2 => Some(Some(Format::Csv)),
        _ => None,
    }
}

/// Returns the count of a unit of this many picoseconds, if it is whole and from 1 to 999.
fn count_of(picoseconds: u32, unit: u32) -> Option<u16>
    requires { 0 < unit }
    ensures { result ≡ unit_count picoseconds unit }
{
    let count = picoseconds / unit;
    if picoseconds % unit == 0 && 0 < count && count < 1_000 {
        u16::try_from(count).ok()
    } else {
        None
    }
}

/// Returns the tick of this many picoseconds. `None` if it isn't 1 to 999 ps, ns or us.
fn asked_tick(picoseconds: u32) -> Option<Tick>
    ensures tick { result ≡ asked_tick picoseconds }
    ensures length { IfSome result (λ tick. tick_picoseconds tick ≡ asked_picoseconds picoseconds) }
{
    let picoseconds = if picoseconds == 0 { 1_000 } else { picoseconds };
    if let Some(count) = count_of(picoseconds, 1) {
        return Some(Tick {
            count,
            unit: TimeUnit::Picosecond,
        });
    }
    if let Some(count) = count_of(picoseconds, 1_000) {
        return Some(Tick {
            count,
            unit: TimeUnit::Nanosecond,
        });
    }
    let count = count_of(picoseconds, 1_000_000)?;
    Some(Tick {
        count,
        unit: TimeUnit::Microsecond,
    })
}

/// Returns the task of `margin` that is asked for.
pub(crate) fn margin_task(asked: &Asked) -> Option<Task>
    ensures { result ≡ margin_task asked.now }
{
    let tick = asked_tick(asked.tick)?;
    Some(Task::Margin(tick, asked.all_send != 0))
}

/// Returns the task of `traffic` that is asked for.
pub(crate) fn traffic_task(asked: &Asked) -> Option<Task>
    ensures { result ≡ traffic_task asked.now }
{
    let tick = asked_tick(asked.tick)?;
    Some(Task::Traffic(tick))
}

/// Returns the task of `respond` that is asked for.
pub(crate) fn respond_task(asked: &Asked) -> Option<Task>
    ensures { result ≡ respond_task asked.now }
{
    let tick = asked_tick(asked.tick)?;
    Some(Task::Respond(tick))
}

/// Returns the task of `judge` that is asked for.
pub(crate) fn judge_task(asked: &Asked) -> Option<Task>
    ensures { result ≡ judge_task asked.now }
{
    let tick = asked_tick(asked.tick)?;
    Some(Task::Judge(tick))
}

/// Returns the order of a task in the form that is asked for.
pub(crate) fn order_in(task: Option<Task>, asked: &Asked) -> Option<Order>
    ensures { result ≡ order_in task asked.now }
{
    let task = task?;
    let format = format_of(asked.format)?;
    Some(Order { task, format })
}
