//! Tasks whose engines make other formats of lines, and read back no text.
ghost use Rattle.std.specs.Prelude.{◌≡◌};
ghost use Rattle.wl_sim.specs.Lines.{respond_asked};

use wl_views::Tick;
use wl_words::Task;

/// What is asked of how long messages may wait.
#[derive(Clone, Copy)]
pub(crate) struct RespondAsked {
    /// How long a tick is.
    pub(crate) tick: Tick,
    /// Whether a frame may have any data in the place of its own.
    pub(crate) any_data: bool,
    /// Whether the status says if all deadlines are met.
    pub(crate) strict: bool,
}

/// Returns what is asked of how long messages may wait, if the task is `respond`.
pub(crate) fn respond_asked(task: Task) -> Option<RespondAsked>
    ensures { result ≡ respond_asked task }
{
    match task {
        Task::Respond(tick, any_data, strict) => Some(RespondAsked {
            tick,
            any_data,
            strict,
        }),
        _ => None,
    }
}
