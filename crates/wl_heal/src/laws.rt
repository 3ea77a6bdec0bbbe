//! Laws of a disturbed bus, each proved as the contract of a function that does nothing.

ghost use Rattle.std.specs.Prelude.{◌≡◌, ◌≢◌, ◌↔◌, ◌<◌, ◌≤◌, ◌+◌, ◌/◌, ℕ, true, false, List, length};
ghost use Rattle.wl_frame.specs.Grammar.{Content, IsFrame};
ghost use Rattle.wl_confine.specs.declared.Mode.TheVariants.{Off};
ghost use Rattle.wl_confine.specs.Counts.{Counts, mode_of};
ghost use Rattle.wl_machine.specs.Stretch.{Sampled, Input};
ghost use Rattle.wl_level.specs.declared.Level.{Level};
ghost use Rattle.wl_machine.specs.Stretch.Ended.{Received, Sent};
ghost use Rattle.wl_level.specs.declared.Level.TheVariants.{Recessive};
ghost use Rattle.wl_machine.specs.Stretch.Sort.{Idle};
ghost use Rattle.wl_machine.specs.Judged.{drive_of, stretch_of};
ghost use Rattle.wl_wire.specs.Heads.{OwnHeads};
ghost use Rattle.wl_wire.specs.InStep.{AreSoundFrames, AreInStep, FindsNoError};
ghost use Rattle.wl_wire.specs.Wire.{Event, Wire, Handed, is_between, stretch_at, wire_after};
ghost use Rattle.wl_heal.specs.Bursts.{DifferWithin, burst_bits};
ghost use Rattle.wl_heal.specs.Costs.{FindsItsDominant, counts_on};
ghost use Rattle.wl_heal.specs.Disturbed.{Course, TakesPart, IsSentFrom, IsClear, IsHitIn, wire_at, AreActiveIn, AreNearEnd, NobodyHit, judged_at};
ghost use Rattle.wl_heal.specs.Healing.{AreActive, AllTakePart, IsDominantFor, HealWithin};
ghost use Rattle.wl_heal.specs.Healing.{StayWithoutError, bits_after, healing_bits};
ghost use Rattle.wl_heal.specs.Joining.{Change, AreThosePresent, AreInStepBeside, FindNoFault, wire_with};
ghost use Rattle.wl_heal.specs.Silence.{stretch_on, is_off, is_in_frame, idle_bits, AreOnBus, silent_bits, silent_bits_after_a_frame, IsSilence, bus_bits, StaysRecessive};

/// Law: 23 recessive samples bring each machine between frames, whatever reached it before and whatever it is handed meanwhile, in whatever
/// modes. It has to drive recessive at each of them, and not to be off the bus before them. So if a bus stays recessive for 23 bits, all
/// its machines are between frames. 16 bits are enough for a machine that is in no frame, as in a passive flag.
pub fn a_silence_brings_all_between()
    ensures machine { (past : List Input) (xs : List Sampled) → is_off (stretch_of past) ≡ false
        → silent_bits ≤ length xs → IsSilence (stretch_of past) xs
        → is_between (stretch_on (stretch_of past) xs) ≡ true }
    ensures wire { (w : Wire) (events : List Event) → silent_bits ≤ bus_bits events
        → StaysRecessive w events → (k : ℕ) → k < w.count → is_off (stretch_at w k) ≡ false
        → is_between (stretch_at (wire_after w events) k) ≡ true }
    ensures flag { (w : Wire) (events : List Event) → silent_bits_after_a_frame ≤ bus_bits events
        → StaysRecessive w events → (k : ℕ) → k < w.count → is_off (stretch_at w k) ≡ false
        → is_in_frame (stretch_at w k) ≡ false → is_between (stretch_at (wire_after w events) k) ≡ true }
{}

/// Law: 32 recessive samples leave each machine on an idle bus, without a frame of its own. It has to drive recessive at each of them and then,
/// and not to be off the bus before them. So no frame was handed to it with the last one.
pub fn a_silence_leaves_all_idle()
    ensures { (past : List Input) (xs : List Sampled) → is_off (stretch_of past) ≡ false
        → idle_bits ≤ length xs → IsSilence (stretch_of past) xs
        → drive_of (stretch_on (stretch_of past) xs) ≡ Recessive → (stretch_on (stretch_of past) xs).sort ≡ Idle }
{}

/// Law: such a silence heals a bus, whatever its machines did before, if none is off the bus. From then on they are in step, and none finds
/// an error. Their frames have to differ in format, identifier or RTR bit.
pub fn a_silence_heals()
    ensures step { (w : Wire) (silence events : List Event) → AreSoundFrames w.count w.frames → OwnHeads w → AreOnBus w
        → silent_bits ≤ bus_bits silence → StaysRecessive w silence
        → AreInStep (wire_after (wire_after w silence) events) }
    ensures errors { (w : Wire) (silence events : List Event) → AreSoundFrames w.count w.frames → OwnHeads w
        → AreOnBus w → silent_bits ≤ bus_bits silence → StaysRecessive w silence
        → FindsNoError (wire_after (wire_after w silence) events) }
{
    a_silence_brings_all_between();
    wl_wire::laws::machines_that_are_in_step_stay_so();
}

/// Law: what a machine counts in n samples, whatever they are and in whatever modes, if it finds each dominant bit that it drives. Its TEC
/// rises by n + 13 at most, and its REC by n + (n + 120) / 16. So it isn't bus off within 242 samples after a TEC of 0.
pub fn what_a_disturbance_counts()
    ensures tec { (past : List Input) (xs : List Sampled) (c : Counts) → FindsItsDominant (stretch_of past) xs
        → (counts_on c (stretch_of past) xs).tec ≤ c.tec + (length xs + 13) }
    ensures rec { (past : List Input) (xs : List Sampled) (c : Counts) → FindsItsDominant (stretch_of past) xs
        → (counts_on c (stretch_of past) xs).rec ≤ c.rec + (length xs + (length xs + 120) / 16) }
    ensures on { (past : List Input) (xs : List Sampled) (c : Counts) → FindsItsDominant (stretch_of past) xs
        → c.tec + length xs < 243 → mode_of (counts_on c (stretch_of past) xs) ≢ Off }
{}

/// Law: a machine that joins disturbs nobody, nor does one that comes back from bus off. Let two or more machines be in step, and let each
/// of the others integrate or be off the bus. No such machine may have found more recessive bits in a row than the end of a frame has so
/// far. Then all stay so, whatever happens, whoever appears, and whatever is handed. No machine finds an error.
pub fn a_joining_machine_disturbs_nobody()
    ensures step { (w present : Wire) (most : ℕ) (changes : List Change) → AreSoundFrames most w.frames → OwnHeads w
        → AreThosePresent w present → 2 ≤ present.count → AreInStepBeside w present → (wire_with w changes).count ≤ most
        → (after : Wire) × AreThosePresent (wire_with w changes) after × AreInStepBeside (wire_with w changes) after }
    ensures errors { (w present : Wire) (most : ℕ) (changes : List Change) → AreSoundFrames most w.frames → OwnHeads w
        → AreThosePresent w present → 2 ≤ present.count → AreInStepBeside w present → (wire_with w changes).count ≤ most
        → FindNoFault (wire_with w changes) }
{
    wl_wire::laws::machines_that_are_in_step_stay_so();
}

/// Law: six dominant bits in a row bring all error active machines in step, 20 bits after the first of them at the latest, whatever they did
/// before. Each finds one error at most. None may integrate or be off the bus.
pub fn six_dominant_bits_bring_all_in_step()
    ensures { (w : Wire) (handed : ℕ → ℕ → Handed) → AreActive handed → AllTakePart w → IsDominantFor 6 w handed
        → HealWithin 20 w handed }
{}

/// Law: error active machines heal. Whatever they did before, and whatever they are handed, they are in step within 209 bits, with one error
/// each at most. From then on none finds an error, if their frames differ in format, identifier or RTR bit. None may integrate or be off the
/// bus.
pub fn active_machines_heal()
    ensures step { (w : Wire) (handed : ℕ → ℕ → Handed) → AreActive handed → AllTakePart w
        → HealWithin healing_bits w handed }
    ensures errors { (w : Wire) (handed : ℕ → ℕ → Handed) → AreSoundFrames w.count w.frames → OwnHeads w
        → AreActive handed → AllTakePart w → (n : ℕ) × (n ≤ healing_bits) × StayWithoutError (bits_after w handed n) }
{
    wl_wire::laws::machines_that_are_in_step_stay_so();
}

/// Law: a frame that is sent is received. Let one machine have sent a frame, and let both it and another one be error active. Let no
/// disturbance reach these two in the ten bits before the start of frame, or up to the end of the stuffed part. Then the other one has
/// received that frame with the bit before. So it is whatever all did before, and whatever is disturbed besides, before and after that part.
pub fn a_sent_frame_is_received()
    ensures { (w : Wire) (c : Course) (s j start n : ℕ) (frame : Content) → AreSoundFrames w.count w.frames → OwnHeads w
        → s ≢ j → TakesPart w c s → TakesPart w c j → IsSentFrom w c s start n frame → IsClear c s j start n
        → (judged_at w c n j).ended ≡ Received frame }
{
    wl_machine::laws::a_sent_frame_is_the_head_that_began_its_stretch();
}

/// Law: one disturbance of 6 to 51 bits hides no frame, if all are in step when it begins. What one error active machine has sent, another
/// one has received with the bit before. Each of the two has to be hit at all bits of the disturbance, or at none. The frame has to have ten
/// bits of the run before it. Whoever else is there may be disturbed otherwise.
pub fn a_long_disturbance_hides_no_frame()
    ensures { (w : Wire) (c : Course) (s j start n from many : ℕ) (frame : Content)
        → AreSoundFrames w.count w.frames → OwnHeads w → s ≢ j → TakesPart w c s → TakesPart w c j
        → IsSentFrom w c s start n frame → AreInStep (wire_at w c from)
        → 6 ≤ many → many ≤ 51 → IsHitIn c from many s → IsHitIn c from many j
        → (judged_at w c n j).ended ≡ Received frame }
{
    wl_machine::laws::a_sent_frame_is_the_head_that_began_its_stretch();
}

/// Law: a CRC sequence finds each burst of 15 bits. Two frames, without their stuff bits, that differ in 15 bits in a row at most are the same.
pub fn a_burst_is_found()
    ensures { (a b : List Level) (c d : Content) → IsFrame a c → IsFrame b d → DifferWithin burst_bits a b → a ≡ b }
{}

/// Law: who has a frame at its end. Let all be error active, in one frame and before the last but one bit of its end. A receiver has received
/// the frame with that bit exactly if it isn't hit. The sender has sent it with the last bit exactly if nobody was hit there, and it isn't
/// hit in the last one. So a receiver has a frame that its sender sends again exactly if it isn't hit there, and another one or the sender is.
pub fn who_has_a_frame_at_its_end()
    ensures received { (w : Wire) (c : Course) (own : List Level) (s k : ℕ) (frame : Content)
        → AreSoundFrames w.count w.frames → OwnHeads w → AreActiveIn c → AreNearEnd w own s frame → k < w.count → k ≢ s
        → ((judged_at w c 0 k).ended ≡ Received frame) ↔ (c.hit 0 k ≡ false) }
    ensures sent { (w : Wire) (c : Course) (own : List Level) (s : ℕ) (frame : Content)
        → AreSoundFrames w.count w.frames → OwnHeads w → AreActiveIn c → AreNearEnd w own s frame
        → ((judged_at w c 1 s).ended ≡ Sent frame) ↔ (NobodyHit w c 0 × (c.hit 1 s ≡ false)) }
{
    wl_machine::laws::a_sent_frame_is_the_head_that_began_its_stretch();
}
