//! The law of the first frame of a plan, proved as the contract of a function that does nothing.

ghost use Rattle.std.specs.Prelude.{◌≡◌, ℕ, List, []};
ghost use Rattle.wl_frame.specs.Grammar.{Content};
ghost use Rattle.wl_plan.specs.declared.plan.Plan.{Plan};
ghost use Rattle.wl_bound.specs.Conditions.{IsSound};
ghost use Rattle.wl_bound.specs.Families.{Bus};
ghost use Rattle.wl_buses.specs.OneFrame.Answers.{HasRoomToAnswer};
ghost use Rattle.wl_buses.specs.OneFrame.Bounds.{HasStations};
ghost use Rattle.wl_buses.specs.OneFrame.Plans.{IsPlanOf};
ghost use Rattle.wl_buses.specs.OneFrame.Stations.{Stations};
ghost use Rattle.wl_buses.specs.FirstFrame.FirstFrames.{HasFirstFrames};
ghost use Rattle.wl_buses.specs.FrameEnd.First.{FirstGetsThrough};

use crate::frame_end::laws::a_plan_goes_to_the_end;

/// Law: the first frame on the bus of each such plan gets through, whoever begins it, from the power-up of all nodes on. The plan is checked,
/// with one rate a clock, by the book, without disturbances and nodes that only listen. Its bus meets the condition for margins and has room
/// for acknowledgements. Some nodes have frames, and each has sampled eleven bits before another one's start of frame reaches it. Then the
/// least of the frames that are begun is sent and received by all others, and nobody finds an error, up to the third bit of the intermission.
pub fn the_first_frame_gets_through()
    ensures { (plan : Plan) (queues : ℕ → List Content) (s : Stations) (bus : Bus) (chase : ℕ → ℕ) → IsPlanOf plan s
        → plan.disturbances ≡ [] → HasStations bus s → IsSound bus → HasRoomToAnswer bus chase
        → HasFirstFrames plan queues s → FirstGetsThrough plan queues s }
{
    wl_plan::checked_is_sound();
    crate::one_frame::laws::a_plan_is_on_a_line();
    crate::one_frame::laws::a_sound_bus_has_room();
    crate::one_frame::ending::the_stuffed_part_ends();
    crate::first_frame::laws::idle_stations_begin_a_first_frame();
    crate::first_frame::laws::nodes_rest_before_a_first_frame();
    crate::first_frame::laws::a_plan_has_a_first_frame();
    a_plan_goes_to_the_end();
}
