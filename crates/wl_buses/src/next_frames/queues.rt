//! The law of the queues of nodes between two frames, proved as the contract of a function that does nothing.

ghost use Rattle.std.specs.Prelude.{◌<◌, ℕ, List};
ghost use Rattle.wl_level.specs.declared.Level.{Level};
ghost use Rattle.wl_segments.specs.Lengths.{bit_quanta};
ghost use Rattle.wl_node.specs.declared.setup.NodeSetup.{NodeSetup};
ghost use Rattle.wl_node.specs.declared.setup.Queued.{Queued};
ghost use Rattle.wl_node.specs.History.{History};
ghost use Rattle.wl_buses.specs.BothProofs.Queues.{head_at};
ghost use Rattle.wl_buses.specs.OneFrame.Nodes.{IsRun};
ghost use Rattle.wl_buses.specs.OneFrame.Stations.{Stations};
ghost use Rattle.wl_buses.specs.NextFrames.Frames.{FollowOneAnother, Frame};
ghost use Rattle.wl_buses.specs.NextFrames.NextNodes.{HandsNext};
ghost use Rattle.wl_buses.specs.NextFrames.NextStarts.{Resting, rested};
ghost use Rattle.wl_buses.specs.NextFrames.Queues.{DecidesByQueue, SendsByQueue};
ghost use Rattle.wl_buses.specs.NextFrames.Runs.{HandsBetween};

/// Law: a queue hands a frame to a node that rests with the first sample by which it has one ready, and none before. So each queue hands
/// its frames between those on the bus.
pub fn a_queue_hands_its_next_frame()
    ensures next { (r : Resting) (i : ℕ) (setup : NodeSetup) (unsent : List Queued) → DecidesByQueue r i setup unsent
        → 0 < bit_quanta (r.stations.lengths i)
        → HandsNext r i (head_at setup unsent (rested r i)) (head_at setup unsent) }
    ensures between { (s : Stations) (frames : ℕ → Frame) (count : ℕ) (are : FollowOneAnother s frames count) (i : ℕ)
        (setup : NodeSetup) (levels : ℕ → Level) (node : ℕ → History) → IsRun setup levels node
        → 0 < bit_quanta (s.lengths i) → SendsByQueue s frames count are i setup node
        → HandsBetween s frames count are i setup node }
{}
