//! Laws of lists of intervals.
ghost use Rattle.wl_intervals.specs.Pairs.{IntervalLaws};

/// Law: lists of intervals as sets of ticks; two that hold the same ticks are one list.
pub fn interval_laws()
    ensures { IntervalLaws }
{}
