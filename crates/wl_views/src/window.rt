//! A part of a run.
ghost use Rattle.std.specs.Prelude.{◌≡◌};
ghost use Rattle.wl_views.specs.Windows.{end_within, is_below, is_within, span_of};

/// The ticks from `from` on, and below `to` if there is one.
#[derive(Clone, Copy, Debug, PartialEq, Eq)]
pub struct Window {
    /// Its first tick.
    pub from: u64,
    /// The first tick after it.
    pub to: Option<u64>,
}

/// True if a tick is below `to`, or if there is no such tick.
fn is_below(to: Option<u64>, tick: u64) -> bool
    ensures { result ≡ is_below to tick }
{
    match to {
        None => true,
        Some(to) => tick < to,
    }
}

impl Window {
    /// True if the window has this tick.
    pub fn has(self, tick: u64) -> bool
        ensures { result ≡ is_within self tick }
    {
        self.from <= tick && is_below(self.to, tick)
    }

    /// Returns the ticks that a dump of the window has, of a run with this end.
    pub fn span(self, end: u64) -> Span
        ensures { result ≡ span_of self end }
    {
        let from = self.from.min(end.saturating_sub(1));
        Span {
            from,
            to: from.max(end_within(self.to, end)),
        }
    }
}

/// The ticks of a dump.
#[derive(Clone, Copy, Debug, PartialEq, Eq)]
pub struct Span {
    /// Its first one.
    pub from: u64,
    /// The tick at which it ends.
    pub to: u64,
}

/// Returns this tick, or the end of a run if that comes first or there is no such tick.
fn end_within(to: Option<u64>, end: u64) -> u64
    ensures { result ≡ end_within to end }
{
    match to {
        None => end,
        Some(to) => to.min(end),
    }
}
