//! The commands whose output has lines of known shapes.
ghost use Rattle.std.specs.Prelude.{◌≡◌};
ghost use Rattle.wl_formats.specs.Shapes.{layout_of};
ghost use Rattle.wl_formats.specs.Layouts.{layout};

mod check;
mod explain;
mod judge;
mod margin;
mod run;
mod settings;
mod spikes;
mod sweep;
mod trace;
mod traffic;

use crate::shape::Table;
use check::check_table;
use explain::explain_table;
use judge::judge_table;
use margin::margin_table;
use run::run_table;
use settings::settings_table;
use spikes::spikes_table;
use sweep::sweep_table;
use trace::trace_table;
use traffic::traffic_table;

/// A command whose output has other formats.
#[derive(Clone, Copy, Debug, PartialEq, Eq)]
pub enum Subject {
    Run,
    Check,
    Explain,
    Margin,
    Trace,
    Traffic,
    Sweep,
    Spikes,
    Judge,
    Settings,
}

/// Returns the shapes of a command's lines.
pub(crate) fn table_of(subject: Subject) -> Table
    ensures { layout_of result ≡ layout subject }
{
    match subject {
        Subject::Run => *run_table(),
        Subject::Check => *check_table(),
        Subject::Explain => explain_table(),
        Subject::Margin => margin_table(),
        Subject::Trace => *trace_table(),
        Subject::Traffic => *traffic_table(),
        Subject::Sweep => *sweep_table(),
        Subject::Spikes => *spikes_table(),
        Subject::Judge => *judge_table(),
        Subject::Settings => settings_table(),
    }
}
