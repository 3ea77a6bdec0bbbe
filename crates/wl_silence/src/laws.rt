//! Laws of a bus after a silence, each proved as the contract of a function that does nothing.

ghost use Rattle.std.specs.Prelude.{◌≡◌, ◌+◌, ◌*◌, ◌<◌, ◌≤◌, ℕ, true, false, List, [], length, take};
ghost use Rattle.wl_level.specs.declared.Level.{Level};
ghost use Rattle.wl_segments.specs.Lengths.{bit_quanta};
ghost use Rattle.wl_phase.specs.Ways.{ByTheBook};
ghost use Rattle.wl_phase.specs.Clocks.{Steady};
ghost use Rattle.wl_plan.specs.declared.plan.Plan.{Plan};
ghost use Rattle.wl_plan.specs.Checked.{IsChecked};
ghost use Rattle.wl_plan.specs.Line.{Line};
ghost use Rattle.wl_plan.specs.Simulation.{level};
ghost use Rattle.wl_plan.specs.PlanLine.{line_of, setup_at};
ghost use Rattle.wl_bound.specs.Conditions.{IsSound};
ghost use Rattle.wl_bound.specs.Families.{Bus, Buses};
ghost use Rattle.wl_bound.specs.Rooms.{leaves_room, plain_bus};
ghost use Rattle.wl_bound.specs.Verdicts.{verdict_of};
ghost use Rattle.wl_bound.specs.declared.verdict.Verdict.TheVariants.{ForAny};
ghost use Rattle.wl_wire.specs.InStep.{AreSoundFrames};
ghost use Rattle.wl_buses.specs.BothProofs.Queues.{queued_contents};
ghost use Rattle.wl_buses.specs.BothProofs.Plans.{IsOfFamily, IsSteadyPlan};
ghost use Rattle.wl_buses.specs.OneFrame.Answers.{HasRoomToAnswer};
ghost use Rattle.wl_buses.specs.OneFrame.Bounds.{HasStations};
ghost use Rattle.wl_buses.specs.OneFrame.Nodes.{IsRun};
ghost use Rattle.wl_buses.specs.OneFrame.Plans.{IsPlanOf};
ghost use Rattle.wl_buses.specs.OneFrame.Stations.{AreStations, HaveRoom, Stations};
ghost use Rattle.wl_buses.specs.FrameEnd.Again.{LeavesRoomToRest};
ghost use Rattle.wl_buses.specs.FamilyPlans.FamilyStations.{AreContents, NoneListens, SendAsFamily, stations_of};
ghost use Rattle.wl_buses.specs.NextFrames.Frames.{HasRoomForAll};
ghost use Rattle.wl_node.specs.declared.setup.NodeSetup.{NodeSetup};
ghost use Rattle.wl_node.specs.History.{History};
ghost use Rattle.wl_silence.specs.Restarts.{GoesOnAs, IsUnharmed, history_on, setup_since};
ghost use Rattle.wl_silence.specs.Silences.{HasFramesLeft, HaveFramesLeft, HaveNoFramesLeft, IsAsFresh, IsCleanSince, IsLineOfSince, IsSilentFor, IsSilentNode, WaitsForFrames, eleventh_of, joins_at, silence_bits};
ghost use Rattle.wl_silence.specs.Shown.{ShowCleanSince};
ghost use Rattle.wl_silence.specs.SilentPlans.{NoneDisturbsSince, undisturbed_plan};

/// Law: a node goes on as one that powered up later with the frames that it hadn't sent then, if both are alike once. Both drive the same, and the
/// same frames pass them. It takes that the later one finds no error and counts nothing. Then the other one finds none, and its counters don't
/// rise, whatever they are and whatever it has done before. It has to be error active.
pub fn a_node_goes_on_as_a_later_one()
    ensures { (setup : NodeSetup) (p : ℕ) (before fresh now : History) (levels : List Level)
        → GoesOnAs setup p before fresh now
        → ((k : ℕ) → IsUnharmed (history_on (setup_since setup p before) fresh (take k levels)))
        → GoesOnAs setup p before (history_on (setup_since setup p before) fresh levels) (history_on setup now levels) }
{
    wl_sync::clock_goes_on();
}

/// Law: a silence brings a node there, whatever it did before. Let it see 36 recessive bits, drive nothing, and be on the bus and error active in
/// them. Then it is alike to a node that powers up at one of its bits, and has counted eleven of them.
pub fn a_silent_node_is_as_a_fresh_one()
    ensures { (setup : NodeSetup) (levels : ℕ → Level) (node : ℕ → History) (first : ℕ) → ByTheBook setup.segments
        → IsRun setup levels node → IsSilentNode setup levels node first
        → (first ≤ joins_at setup levels node first)
        × (joins_at setup levels node first + 12 * bit_quanta setup.segments
        ≤ first + silence_bits * bit_quanta setup.segments)
        × IsAsFresh setup node (joins_at setup levels node first)
        (joins_at setup levels node first + eleventh_of setup.segments) }
{
    wl_sync::clock_goes_on();
    wl_sync::the_sample_comes_near();
    wl_phase::laws::an_edge_moves_the_sample();
    wl_heal::laws::a_silence_leaves_all_idle();
    wl_buses::one_frame::laws::no_edge_counts_then();
    wl_buses::one_frame::laws::a_station_begins_its_bits();
}

/// Law: so a line is clean after a silence, whatever was on it before, and whatever its nodes did. Nothing disturbs it since then, and nobody
/// drives dominant for 36 bits of each node. All are on the bus and error active in them, and some frame is left. The stations have room for
/// acknowledgements and rest, whoever wins. Then the nodes go on as nodes that power up in the silence, each with the frames that it hasn't
/// sent, and all these get through: no node finds an error, and no counter rises.
pub fn a_line_is_clean_after_a_silence()
    ensures { (l : Line) (setups : ℕ → NodeSetup) (s : Stations) (from until : ℕ) (first chase : ℕ → ℕ)
        → IsLineOfSince l setups s from → IsSilentFor l setups from until first → AreStations s → HaveRoom s
        → HasRoomForAll s chase → HaveFramesLeft l setups s first → IsCleanSince l setups s from first }
{
    wl_sync::clock_goes_on();
    wl_sync::the_sample_comes_near();
    wl_topology::driven_laws();
    wl_phase::laws::an_edge_moves_the_sample();
    wl_heal::laws::a_silence_leaves_all_idle();
    wl_plan::simulation_laws();
    wl_buses::one_frame::laws::no_edge_counts_then();
    wl_buses::one_frame::laws::a_station_begins_its_bits();
    wl_buses::clean_lines::laws::all_frames_of_a_line_get_through();
}

/// Law: what that says of a node. One list of frames, each with its sender, is on the bus since then, and first frames of the list have passed each
/// node. Its own it has sent, all others it has received. It has found no error since, and no counter of it has risen. What it has sent since,
/// and what its queue still has, are the frames that were left in it, each once.
pub fn what_a_clean_line_shows()
    ensures { (l : Line) (setups : ℕ → NodeSetup) (s : Stations) (from : ℕ) (first : ℕ → ℕ) → s.count ≡ l.nodes
        → IsCleanSince l setups s from first → ShowCleanSince l setups first }
{}

/// Law: so it is with each plan on a bus that is proved for any senders, but with disturbances, and with power-ups at any time before the
/// silence. Let all disturbances have passed. Wherever within its tolerance each clock lies, the bus is clean since such a silence. What `margin`
/// tests of the plan without its disturbances is enough, if none of its nodes only listens.
pub fn a_bus_is_clean_after_a_silence()
    ensures plan { (plan : Plan) (s : Stations) (bus : Bus) (from until : ℕ) (first chase : ℕ → ℕ) → IsPlanOf plan s
        → HasStations bus s → IsSound bus → HasRoomToAnswer bus chase → LeavesRoomToRest bus chase
        → NoneDisturbsSince plan from → IsSilentFor (line_of plan) (setup_at plan) from until first
        → HaveFramesLeft (line_of plan) (setup_at plan) s first
        → IsCleanSince (line_of plan) (setup_at plan) s from first }
    ensures family { (f : Buses) (plan : Plan) (clocks : ℕ → Steady) (from until : ℕ) (first : ℕ → ℕ) → IsChecked plan
        → IsSteadyPlan (undisturbed_plan plan) clocks → IsOfFamily f (undisturbed_plan plan) clocks → NoneListens plan
        → leaves_room f ≡ true → IsSound (plain_bus f)
        → NoneDisturbsSince plan from → IsSilentFor (line_of plan) (setup_at plan) from until first
        → HaveFramesLeft (line_of plan) (setup_at plan) (stations_of f plan clocks) first
        → IsCleanSince (line_of plan) (setup_at plan) (stations_of f plan clocks) from first }
    ensures tested { (f : Buses) (plan : Plan) (clocks : ℕ → Steady) (from until i : ℕ) (first : ℕ → ℕ) → IsChecked plan
        → IsSteadyPlan (undisturbed_plan plan) clocks → IsOfFamily f (undisturbed_plan plan) clocks → NoneListens plan
        → AreContents plan → SendAsFamily f plan → verdict_of (undisturbed_plan plan) f ≡ ForAny → leaves_room f ≡ true
        → NoneDisturbsSince plan from → IsSilentFor (line_of plan) (setup_at plan) from until first
        → i < length plan.nodes → HasFramesLeft (line_of plan) (setup_at plan) first i
        → IsCleanSince (line_of plan) (setup_at plan) (stations_of f plan clocks) from first }
{
    wl_bound::condition_laws();
    wl_plan::checked_is_sound();
    wl_buses::one_frame::laws::a_plan_is_on_a_line();
    wl_buses::one_frame::laws::a_sound_bus_has_room();
    wl_buses::family_plans::laws::a_family_leaves_room();
    wl_buses::family_plans::laws::a_plan_has_stations();
    wl_buses::family_plans::laws::a_covered_plan_has_first_frames();
    wl_buses::next_frames::begun::a_bus_has_room_for_all();
    a_line_is_clean_after_a_silence();
}

/// Law: if no node has a frame left by its eleventh bit in the silence, the line stays silent: nobody drives dominant any more, no frame passes, and
/// no node finds an error.
pub fn a_line_without_frames_stays_silent()
    ensures silent { (l : Line) (setups : ℕ → NodeSetup) (s : Stations) (from until : ℕ) (first : ℕ → ℕ)
        → IsLineOfSince l setups s from → IsSilentFor l setups from until first → AreStations s
        → HaveNoFramesLeft l setups first
        → (i t : ℕ) → i < l.nodes → from ≤ t → t < l.stop → level l i t ≡ false }
    ensures shows { (l : Line) (setups : ℕ → NodeSetup) (s : Stations) (from until : ℕ) (first : ℕ → ℕ)
        → IsLineOfSince l setups s from → IsSilentFor l setups from until first → AreStations s
        → HaveNoFramesLeft l setups first → ShowCleanSince l setups first }
{
    wl_sync::clock_goes_on();
    wl_sync::the_sample_comes_near();
    wl_topology::driven_laws();
    wl_phase::laws::an_edge_moves_the_sample();
    wl_heal::laws::a_silence_leaves_all_idle();
    wl_plan::simulation_laws();
    wl_buses::both_proofs::laws::what_is_expected_is_driven();
    wl_buses::one_frame::laws::no_edge_counts_then();
    wl_buses::one_frame::laws::a_station_begins_its_bits();
}

/// Law: so each such bus shows that it is clean since a silence, whatever frames are left: what `margin` tests of the plan without its disturbances
/// is enough, if none of its nodes only listens.
pub fn a_bus_shows_clean_after_a_silence()
    ensures { (f : Buses) (plan : Plan) (clocks : ℕ → Steady) (from until : ℕ) (first : ℕ → ℕ) → IsChecked plan
        → IsSteadyPlan (undisturbed_plan plan) clocks → IsOfFamily f (undisturbed_plan plan) clocks → NoneListens plan
        → AreContents plan → SendAsFamily f plan → verdict_of (undisturbed_plan plan) f ≡ ForAny → leaves_room f ≡ true
        → NoneDisturbsSince plan from → IsSilentFor (line_of plan) (setup_at plan) from until first
        → ShowCleanSince (line_of plan) (setup_at plan) first }
{
    wl_plan::checked_is_sound();
    wl_buses::one_frame::laws::a_plan_is_on_a_line();
    wl_buses::one_frame::laws::a_sound_bus_has_room();
    wl_buses::family_plans::laws::a_plan_has_stations();
    a_bus_is_clean_after_a_silence();
    a_line_without_frames_stays_silent();
    what_a_clean_line_shows();
}

/// Law: what is asked of a silence can be met. Take a line on which all nodes power up after the tick `from`, and have no frame ready for 36 bits
/// and more. Nobody drives dominant in them, and no frame passes. What is asked of the frames that are left is met, if it is met by all frames.
pub fn what_a_silence_asks_can_be_met()
    ensures silence { (l : Line) (setups : ℕ → NodeSetup) (s : Stations) (from until : ℕ) (bits : ℕ → ℕ)
        → IsLineOfSince l setups s from → AreStations s → WaitsForFrames l setups from until bits
        → IsSilentFor l setups from until (λ i. 0) }
    ensures left { (l : Line) (setups : ℕ → NodeSetup) (s : Stations) (from until : ℕ) (bits : ℕ → ℕ)
        → IsLineOfSince l setups s from → AreStations s → WaitsForFrames l setups from until bits
        → AreSoundFrames s.count (λ i. queued_contents (setups i).queue)
        → ((i : ℕ) → s.count ≤ i → (setups i).queue ≡ [])
        → ((i : ℕ) → i < s.count → 0 < length (setups i).queue → s.may_send i ≡ true)
        → (i : ℕ) → i < s.count → 0 < length (setups i).queue → HaveFramesLeft l setups s (λ i. 0) }
{
    wl_sync::clock_goes_on();
    wl_sync::the_sample_comes_near();
    wl_topology::driven_laws();
    wl_phase::laws::an_edge_moves_the_sample();
    wl_heal::laws::a_silence_leaves_all_idle();
    wl_plan::simulation_laws();
    wl_buses::both_proofs::laws::what_is_expected_is_driven();
    wl_buses::one_frame::laws::no_edge_counts_then();
    wl_buses::one_frame::laws::a_station_begins_its_bits();
}
