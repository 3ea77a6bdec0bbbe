//! Levels that stay for some ticks.
ghost use Rattle.std.specs.Prelude.{◌≡◌};
ghost use Rattle.wl_level.specs.Levels.{level_of};

use wl_level::Level;

/// Whether something is dominant, from a tick on and below another one.
#[derive(Clone, Copy)]
pub struct Pulse {
    /// The first tick.
    pub from: u64,
    /// The first tick at which it may be otherwise.
    pub until: u64,
    /// Whether it is dominant.
    pub dominant: bool,
}

impl Pulse {
    /// Returns the level: dominant or recessive.
    #[inline(always)]
    pub fn level(self) -> Level
        ensures { result ≡ level_of self.dominant }
    {
        if self.dominant {
            return Level::Dominant;
        }
        Level::Recessive
    }
}

/// No tick at all.
pub const SILENCE: Pulse = Pulse {
    from: 0,
    until: 0,
    dominant: false,
};
