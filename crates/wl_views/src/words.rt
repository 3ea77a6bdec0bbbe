//! What a node is at, in words.
ghost use Rattle.std.specs.Prelude.{◌≡◌, ◌≤◌, length};
ghost use Rattle.wl_report.specs.Lines.{mode_word};
ghost use Rattle.wl_views.specs.Limits.{longest_word};
ghost use Rattle.wl_views.specs.Vcd.{doing_word};

use wl_confine::Mode;
use wl_machine::Doing;
use wl_report::mode_word;

/// Returns a mode.
pub(crate) fn mode(mode: Mode) -> &'static str
    ensures value { result.now ≡ mode_word mode }
    ensures short { length result.now ≤ longest_word }
{
    mode_word(mode)
}

/// Returns what it does.
pub(crate) fn doing_word(doing: Doing) -> &'static str
    ensures value { result.now ≡ doing_word doing }
    ensures short { length result.now ≤ longest_word }
{
    match doing {
        Doing::Integrating => "integrating",
        Doing::Idle => "idle",
        Doing::Receiving => "receiving",
        Doing::Transmitting => "transmitting",
        Doing::ActiveFlag => "active_flag",
        Doing::PassiveFlag => "passive_flag",
        Doing::OverloadFlag => "overload_flag",
        Doing::Waiting => "waiting",
        Doing::Delimiting => "delimiter",
        Doing::Intermission => "intermission",
        Doing::Suspended => "suspended",
        Doing::OffBus => "bus_off",
    }
}
