//! Laws of the first frame with several senders, each proved as the contract of a function that does nothing.

ghost use Rattle.std.specs.Prelude.{◌≡◌, ◌+◌, ◌<◌, ◌≤◌, ℕ, suc, List, [], None};
ghost use Rattle.wl_level.specs.declared.Level.{Level};
ghost use Rattle.wl_level.specs.declared.Level.TheVariants.{Recessive};
ghost use Rattle.wl_level.specs.Levels.{level_of};
ghost use Rattle.wl_topology.specs.Driven.{driven};
ghost use Rattle.wl_phase.specs.Clocks.{steady_tick};
ghost use Rattle.wl_segments.specs.Lengths.{sample_at};
ghost use Rattle.wl_frame.specs.Grammar.{Content};
ghost use Rattle.wl_machine.specs.Frames.{stuffed_end};
ghost use Rattle.wl_node.specs.declared.setup.NodeSetup.{NodeSetup};
ghost use Rattle.wl_node.specs.History.{History, error_count};
ghost use Rattle.wl_plan.specs.Line.{Line};
ghost use Rattle.wl_plan.specs.PlanLine.{setup_at};
ghost use Rattle.wl_plan.specs.declared.plan.Plan.{Plan};
ghost use Rattle.wl_bound.specs.Conditions.{IsSound};
ghost use Rattle.wl_bound.specs.Families.{Bus};
ghost use Rattle.wl_buses.specs.OneFrame.Bounds.{HasStations};
ghost use Rattle.wl_buses.specs.OneFrame.Expected.{IsOutset, expected_bits, expected_drove};
ghost use Rattle.wl_buses.specs.OneFrame.Lines.{BeginsAfter, IsLineOf, RestsBefore, finds_expected, node_after};
ghost use Rattle.wl_buses.specs.OneFrame.Machines.{bus_levels};
ghost use Rattle.wl_buses.specs.OneFrame.Nodes.{IsRun};
ghost use Rattle.wl_buses.specs.OneFrame.Plans.{IsPlanOf};
ghost use Rattle.wl_buses.specs.OneFrame.Stations.{AreOnALine, AreStations, HaveRoom, HaveWays, Stations};
ghost use Rattle.wl_buses.specs.FirstFrame.Faults.{fault_count};
ghost use Rattle.wl_buses.specs.FirstFrame.FirstFrames.{AreIdleWhenReady, BeginAsQueues, GoesToItsCrc, HasFirstFrames, HasFrames, first_frames_of, queues_of, waiting_of};
ghost use Rattle.wl_buses.specs.FirstFrame.FirstStarts.{AreIdle, HandTheFirst, Waiting, first_outset, first_start, rest_first};

/// Law: idle stations begin a first frame together, if some have one. Whoever has decided to send before another one's start of frame
/// reaches it begins it: by itself when that is due, or earlier with the edge. All others follow the first edge that reaches them.
pub fn idle_stations_begin_a_first_frame()
    ensures outset { (w : Waiting) → AreOnALine w.stations → AreIdle w → IsOutset w.stations (first_outset w) }
    ensures after { (w : Waiting) → AreOnALine w.stations → AreIdle w → (i : ℕ) → i < w.stations.count
        → BeginsAfter w.stations (first_outset w) i (rest_first w i) }
{
    crate::one_frame::laws::idle_machines_may_begin_together();
}

/// Law: a node rests before that frame, if it finds up to its start what is expected: from its power-up on it has sampled a silent line, and
/// nothing has counted. What it drives later doesn't matter, nor who hears it.
pub fn a_node_rests_before_a_first_frame()
    ensures { (setups : ℕ → NodeSetup) (w : Waiting) (length i : ℕ) → AreStations w.stations → HaveRoom w.stations
        → AreIdle w → HandTheFirst w setups
        → ((n : ℕ) → n < length
        → stuffed_end (bus_levels w.stations (expected_bits w.stations (first_outset w)) n) ≡ None)
        → i < w.stations.count → (setups i).segments ≡ w.stations.lengths i
        → (levels : ℕ → Level) (node : ℕ → History) → IsRun (setups i) levels node
        → ((q : ℕ) → q < (first_outset w).start.from i
        → levels q ≡ level_of (driven w.stations.count w.stations.delay
        (expected_drove w.stations (first_outset w) length) i (steady_tick (w.stations.clocks i) q)))
        → RestsBefore w.stations (first_outset w) i levels node (rest_first w i) }
{
    wl_phase::laws::an_edge_moves_the_sample();
    crate::one_frame::laws::idle_machines_may_begin_together();
    crate::one_frame::laws::no_edge_counts_then();
    crate::one_frame::laws::a_station_begins_its_bits();
    crate::one_frame::before::nothing_is_found_before_a_frame();
    idle_stations_begin_a_first_frame();
}

/// Law: so each node of a line rests before that frame, if all drive what is expected.
pub fn nodes_rest_before_a_first_frame()
    ensures { (l : Line) (setups : ℕ → NodeSetup) (w : Waiting) (length i : ℕ) → IsLineOf l setups w.stations
        → AreStations w.stations → HaveRoom w.stations → AreIdle w → HandTheFirst w setups
        → ((n : ℕ) → n < length
        → stuffed_end (bus_levels w.stations (expected_bits w.stations (first_outset w)) n) ≡ None)
        → i < w.stations.count
        → RestsBefore w.stations (first_outset w) i (finds_expected l w.stations (first_outset w) length i)
        (node_after (setups i) (finds_expected l w.stations (first_outset w) length i)) (rest_first w i) }
{
    a_node_rests_before_a_first_frame();
}

/// Law: up to then no frame has passed it, and it has found no error, nor has anything else happened that isn't fine. So it is with any node whose line is silent up to the quantum from
/// which it drives its start of frame, or finds the edge of another one's.
pub fn nothing_passes_before_a_first_frame()
    ensures silent { (w : Waiting) (setups : ℕ → NodeSetup) → AreOnALine w.stations → AreIdle w → HandTheFirst w setups
        → (i : ℕ) → i < w.stations.count → (setups i).segments ≡ w.stations.lengths i
        → (levels : ℕ → Level) (node : ℕ → History)
        → IsRun (setups i) levels node → ((q : ℕ) → q < (first_start w).from i → levels q ≡ Recessive)
        → (q : ℕ) → q ≤ suc (rest_first w i + sample_at (w.stations.lengths i))
        → ((node q).frames ≡ []) × (error_count (node q) ≡ 0) × (fault_count (node q) ≡ 0) }
    ensures line { (l : Line) (setups : ℕ → NodeSetup) (w : Waiting) (length i : ℕ) → IsLineOf l setups w.stations
        → AreStations w.stations → HaveRoom w.stations → AreIdle w → HandTheFirst w setups
        → ((n : ℕ) → n < length
        → stuffed_end (bus_levels w.stations (expected_bits w.stations (first_outset w)) n) ≡ None)
        → i < w.stations.count → (q : ℕ) → q ≤ suc (rest_first w i + sample_at (w.stations.lengths i))
        → ((node_after (setups i) (finds_expected l w.stations (first_outset w) length i) q).frames ≡ [])
        × (error_count (node_after (setups i) (finds_expected l w.stations (first_outset w) length i) q) ≡ 0)
        × (fault_count (node_after (setups i) (finds_expected l w.stations (first_outset w) length i) q) ≡ 0) }
{
    wl_phase::laws::an_edge_moves_the_sample();
    crate::one_frame::laws::idle_machines_may_begin_together();
    crate::one_frame::laws::no_edge_counts_then();
    crate::one_frame::laws::a_station_begins_its_bits();
    crate::one_frame::before::nothing_is_found_before_a_frame();
    idle_stations_begin_a_first_frame();
}

/// Law: the nodes of a plan are such stations, if some have frames: from its power-up on each hands its machine the first frame of its queue.
/// So it is if each is idle when the first frame of any other becomes ready.
pub fn a_plan_has_a_first_frame()
    ensures ready { (plan : Plan) (queues : ℕ → List Content) (s : Stations) → IsPlanOf plan s → HasFrames plan queues s
        → AreIdleWhenReady plan s → HasFirstFrames plan queues s }
    ensures idle { (plan : Plan) (queues : ℕ → List Content) (s : Stations) → IsPlanOf plan s
        → HasFirstFrames plan queues s → AreIdle (waiting_of plan queues s) }
    ensures hands { (plan : Plan) (queues : ℕ → List Content) (s : Stations) → IsPlanOf plan s
        → BeginAsQueues plan queues → HandTheFirst (waiting_of plan queues s) (setup_at plan) }
{
    wl_plan::checked_is_sound();
    crate::one_frame::laws::a_plan_is_on_a_line();
}

/// Law: whole queues are such frames, and so are the first ones alone, if any lists that begin as the queues do are.
pub fn first_frames_are_enough()
    ensures whole { (plan : Plan) → BeginAsQueues plan (queues_of plan) }
    ensures first { (plan : Plan) → BeginAsQueues plan (first_frames_of plan) }
    ensures alone { (plan : Plan) (queues : ℕ → List Content) (s : Stations) → HasFirstFrames plan queues s
        → HasFirstFrames plan (first_frames_of plan) s }
{}

/// Law: the first frame on the bus of each such plan goes as expected, whoever sends, from the power-up of all nodes on. The plan is checked,
/// with one rate a clock, by the book, without disturbances and nodes that only listen. There is room for its nodes, as by the condition for
/// margins. Some have frames, and each is idle when another one's start of frame would reach it. Then up to the end of the CRC sequence
/// all sample each bit as it is on the bus, and none finds an error. The one that is left has the least arbitration field.
pub fn the_first_frame_goes_as_expected()
    ensures room { (plan : Plan) (queues : ℕ → List Content) (s : Stations) → IsPlanOf plan s → plan.disturbances ≡ []
        → HaveWays s → HaveRoom s → HasFirstFrames plan queues s → GoesToItsCrc plan queues s }
    ensures sound { (plan : Plan) (queues : ℕ → List Content) (s : Stations) (bus : Bus) → IsPlanOf plan s
        → plan.disturbances ≡ [] → HasStations bus s → IsSound bus → HasFirstFrames plan queues s
        → GoesToItsCrc plan queues s }
{
    wl_plan::checked_is_sound();
    crate::one_frame::laws::a_plan_is_on_a_line();
    crate::one_frame::laws::a_sound_bus_has_room();
    crate::one_frame::laws::a_plan_does_what_is_expected();
    crate::one_frame::ending::the_stuffed_part_ends();
    idle_stations_begin_a_first_frame();
    nodes_rest_before_a_first_frame();
    a_plan_has_a_first_frame();
}
