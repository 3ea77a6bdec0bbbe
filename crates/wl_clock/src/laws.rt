//! Laws of clocks, as contracts of functions with an empty body.

ghost use Rattle.std.specs.Prelude.{◌≡◌, ℕ, ◌+◌, ◌*◌, ◌<◌, ◌≤◌};
ghost use Rattle.wl_clock.specs.Timing.{Timing, IsTiming, tick_of, slowest_rate};

/// Law: the quanta of every clock begin one after another, the first at the offset; `n` quanta take `n` ticks at
/// least and `n * 2^20` at most.
pub fn ticks_increase()
    ensures later { (t : Timing) → IsTiming t → (j k : ℕ) → j < k → tick_of t j < tick_of t k }
    ensures first { (t : Timing) → tick_of t 0 ≡ t.offset }
    ensures low { (t : Timing) → IsTiming t → (k n : ℕ) → tick_of t k + n ≤ tick_of t (k + n) }
    ensures high { (t : Timing) → IsTiming t → (k n : ℕ)
        → tick_of t (k + n) ≤ tick_of t k + n * slowest_rate }
{}
