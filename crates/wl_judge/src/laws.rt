//! What the words of an answer promise.
ghost use Rattle.wl_judge.specs.Laws.{ProvedLaw};

/// Law: if the answer on a bus says `works, proved`, the first line of its margin says 'proved' for any senders. So the law
/// `proved_means_clean` of wl_proved holds of the bus. And the run of the plan works.
pub fn a_proved_bus_has_a_proved_margin()
    ensures { ProvedLaw }
{}
