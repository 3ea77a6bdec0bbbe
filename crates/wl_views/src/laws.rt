//! Laws of what other tools read, as contracts of functions with an empty body.

ghost use Rattle.wl_views.specs.SentFrames.{SentInTime};

/// Law: each frame of the outcome of a plan that passed its check was completed at a quantum that its node's clock knows, and
/// below the end.
pub fn sent_in_time()
    ensures { SentInTime }
{
    wl_plan::checked_is_sound();
    wl_plan::simulation_laws();
}
