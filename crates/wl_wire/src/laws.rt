//! Laws of machines on one wire, each proved as the contract of a function that does nothing.

ghost use Rattle.std.specs.Prelude.{◌≡◌, ◌<◌, ℕ, List, [], ◌∷◌, length};
ghost use Rattle.wl_level.specs.declared.Level.{Level};
ghost use Rattle.wl_level.specs.declared.Level.TheVariants.{Dominant};
ghost use Rattle.wl_confine.specs.Counts.{no_counts};
ghost use Rattle.wl_frame.specs.Grammar.{Content};
ghost use Rattle.wl_machine.specs.States.{stretch_by};
ghost use Rattle.wl_machine.specs.Stretch.Sort.{Framing};
ghost use Rattle.wl_wire.specs.Begins.{frame_begun};
ghost use Rattle.wl_wire.specs.Heads.{OwnHeads};
ghost use Rattle.wl_wire.specs.InStep.{AreBetween, AreSoundFrames, AreInFrame, AreInStep, FindsNoError};
ghost use Rattle.wl_wire.specs.Outcome.{Passage, HaveGot, IsFree, counts_after_all};
ghost use Rattle.wl_wire.specs.Winner.{HasOneWinner};
ghost use Rattle.wl_wire.specs.Wire.{Bit, Event, Handed, Wire, bus, idle_wire, next_wire, sampled, stretch_at, wire_after};

/// Law: two or more machines on one wire that are handed frames of different format, identifier or RTR stay in step, and none finds an
/// error. So it is whatever they are handed, in whatever modes, and however many recessive bits each samples by itself between frames.
pub fn machines_stay_in_step()
    ensures step { (count : ℕ) (frames : ℕ → List Content) (events : List Event) → AreSoundFrames count frames
        → AreInStep (wire_after (idle_wire count frames) events) }
    ensures errors { (count : ℕ) (frames : ℕ → List Content) (events : List Event) → AreSoundFrames count frames
        → FindsNoError (wire_after (idle_wire count frames) events) }
{
    wl_machine::laws::a_sent_frame_is_the_head_that_began_its_stretch();
    wl_frame::laws::the_arbitration_decides();
}

/// Law: machines that are in step stay so, wherever they are and whatever brought them there, if each that is sending has a frame of its own.
/// What they are sending stays that, also if they are not in step.
pub fn machines_that_are_in_step_stay_so()
    ensures step { (w : Wire) (events : List Event) → AreSoundFrames w.count w.frames → OwnHeads w → AreInStep w
        → AreInStep (wire_after w events) }
    ensures errors { (w : Wire) (events : List Event) → AreSoundFrames w.count w.frames → OwnHeads w → AreInStep w
        → FindsNoError (wire_after w events) }
    ensures heads { (w : Wire) (events : List Event) → OwnHeads w → OwnHeads (wire_after w events) }
{
    wl_machine::laws::a_sent_frame_is_the_head_that_began_its_stretch();
    wl_frame::laws::the_arbitration_decides();
}

/// Law: a dominant bit begins a frame at all machines that are between frames. Each that is to begin a frame sends that frame. Each that has
/// two bits of an intermission sends the frame that it is handed with the bit, if it is handed one. It drives no start of frame then. Each
/// other one receives.
pub fn a_dominant_bit_begins_a_frame_at_all()
    ensures { (w : Wire) (handed : ℕ → Handed) → AreSoundFrames w.count w.frames → OwnHeads w → AreBetween w
        → bus w ≡ Dominant → (k : ℕ) → k < w.count
        → stretch_at (next_wire w (Bit handed)) k ≡ stretch_by
        (Framing (frame_begun (stretch_at w k).sort (sampled Dominant (w.frames k) (handed k)))) (Dominant ∷ []) }
{}

/// Law: the error counters of such machines stay 0.
pub fn counters_stay_zero()
    ensures { (count : ℕ) (frames : ℕ → List Content) (events : List Event) → AreSoundFrames count frames
        → (k : ℕ) → k < count → counts_after_all ((wire_after (idle_wire count frames) events).past k) ≡ no_counts }
{
    machines_stay_in_step();
}

/// Law: of such machines that begin frames together, one that still sends has a lesser arbitration field than each
/// that has lost, and after the stuffed part one sends alone.
pub fn the_least_field_wins()
    ensures { (count : ℕ) (frames : ℕ → List Content) (events : List Event) → AreSoundFrames count frames
        → HasOneWinner (wire_after (idle_wire count frames) events) }
{
    wl_machine::laws::a_sent_frame_is_the_head_that_began_its_stretch();
    wl_frame::laws::the_arbitration_decides();
}

/// Law: each frame that such machines begin gets through. As soon as none is under way, each that was begun is one that one machine has
/// sent, and one of its own. Every other machine has acknowledged and received it. The order is the same at all of them.
pub fn all_get_each_frame()
    ensures { (count : ℕ) (frames : ℕ → List Content) (events : List Event) → AreSoundFrames count frames
        → IsFree (wire_after (idle_wire count frames) events)
        → (passages : List Passage) × HaveGot (wire_after (idle_wire count frames) events) passages }
{
    wl_machine::laws::a_sent_frame_is_the_head_that_began_its_stretch();
    wl_frame::laws::the_arbitration_decides();
}

/// Law: a frame that such machines begin ends. While it is under way each has fewer than 157 bits of it, so it ends with the 157th at the
/// latest: 118 bits, 29 stuff bits, and the ten bits after them (Bosch CAN 2.0 part B, sections 3.2.1 and 6).
pub fn a_frame_ends()
    ensures { (count : ℕ) (frames : ℕ → List Content) (events : List Event) → AreSoundFrames count frames
        → (own : List Level) → AreInFrame (wire_after (idle_wire count frames) events) own → length own < 157 }
{
    wl_machine::laws::a_sent_frame_is_the_head_that_began_its_stretch();
    wl_frame::laws::the_arbitration_decides();
}
