//! The law of guesses, as the contract of a function with an empty body.

ghost use Rattle.wl_plan.specs.Guess.{GuessLaws};

/// Law: a consistent guess holds. Each node is run alone, beside a guess of what arrives at its place from the others. If up to some tick
/// the guess is what the others make who were run so, each node did below that tick what it does in the simulation.
pub fn a_consistent_guess_holds()
    ensures { GuessLaws }
{
    wl_topology::driven_laws();
    wl_record_core::table_laws();
}
