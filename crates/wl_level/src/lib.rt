//! The two levels of a bus line, places in lists of them, and growing lists.
#![tactic(auto)]

mod laws;
mod listed;

ghost use Rattle.std.specs.Prelude.{◌≡◌};
ghost use Rattle.wl_level.specs.Levels.{is_dominant, opposite, same};

pub use laws::place_laws;
pub use listed::Listed;

/// What a line carries: bit 0 is dominant, bit 1 recessive (Bosch CAN 2.0 part A, section 2).
///
/// A line that nobody drives is recessive, so that is the default.
#[derive(Clone, Copy, Debug, PartialEq, Eq)]
pub enum Level {
    /// Bit 0: one node that drives it decides the line.
    Dominant,
    /// Bit 1: the line if no node drives dominant.
    Recessive,
}

impl Default for Level {
    ghost use Rattle.wl_level.specs.declared.Level.TheVariants.{Recessive};

    ghost is_default = { λ l. l ≡ Recessive };

    /// Returns recessive, the level of a line that nobody drives.
    fn default() -> Self {
        Self::Recessive
    }
}

impl Level {
    /// True of the dominant level.
    pub fn is_dominant(self) -> bool
        ensures { result ≡ is_dominant self }
    {
        match self {
            Level::Dominant => true,
            Level::Recessive => false,
        }
    }

    /// Returns the other level, as a stuff bit has it.
    pub fn opposite(self) -> Level
        ensures { result ≡ opposite self }
    {
        match self {
            Level::Dominant => Level::Recessive,
            Level::Recessive => Level::Dominant,
        }
    }

    /// True if the two levels are the same.
    pub fn is(self, other: Level) -> bool
        ensures { result ≡ same self other }
    {
        self.is_dominant() == other.is_dominant()
    }
}
