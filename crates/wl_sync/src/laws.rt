//! Laws of the bit clock, each as the contract of a function that does nothing.

ghost use Rattle.std.specs.Prelude.{◌≡◌, List, [], ◌∷◌, ◌++◌};
ghost use Rattle.wl_segments.specs.Lengths.{Lengths};
ghost use Rattle.wl_sync.specs.Edges.{Seen};
ghost use Rattle.wl_sync.specs.Bits.{beat_of, sync_of};
ghost use Rattle.wl_sync.specs.Running.{clock_after, sample_after};
ghost use Rattle.wl_sync.specs.SampleLaws.{RecessiveLaws, SampleLaws};
ghost use Rattle.wl_sync.specs.Steps.{running_after, running_answer, running_beat, running_edge};

/// Law: after a bit's start the way to the sample is as long as in a bit that nothing moved. It is a quantum shorter if the edge that began
/// the bit lies within SYNC_SEG. A sample comes at the end of that way, and each other quantum takes one quantum off it at most.
pub fn the_sample_comes_near()
    ensures { SampleLaws }
{}

/// Law: on a recessive line the next sample comes no sooner than the running bit has it, and each further one a whole bit later at least.
/// Behind a sample no bit starts before PHASE_SEG2 is over: only edges from recessive to dominant synchronise (Bosch CAN 2.0 part B,
/// section 10).
pub fn recessive_samples_are_bits_apart()
    ensures { RecessiveLaws }
{
    wl_level::place_laws();
}

/// Law: what one more quantum does, by what the bit clock keeps.
///
/// It is a function of this level, the level before, the last sample, and of what the node does: whether the bus is idle to it, it awaits a
/// start of frame, or drives dominant. It also takes the bit's place, lengthening and shortening, and whether it has synchronised. The
/// level before is that of the last quantum. The last sample is that of the last quantum whose beat was a sample, in whatever bit.
pub fn clock_goes_on()
    ensures clock { (l : Lengths) (past : List Seen) (x : Seen)
        → clock_after l (past ++ x ∷ []) ≡ running_after (clock_after l past) x }
    ensures beat { (l : Lengths) (past : List Seen) (x : Seen)
        → beat_of l past x ≡ running_beat (running_edge (clock_after l past)) x }
    ensures sync { (l : Lengths) (past : List Seen) (x : Seen)
        → sync_of l past x ≡ running_answer (running_edge (clock_after l past)) x }
    ensures level { (l : Lengths) (past : List Seen) (x : Seen)
        → (clock_after l (past ++ x ∷ [])).level ≡ x.level }
    ensures sample { (l : Lengths) (past : List Seen) (x : Seen)
        → (clock_after l (past ++ x ∷ [])).sample ≡ sample_after (beat_of l past x) (clock_after l past).sample }
{}
