//! Laws of the definitions, each proved as the contract of a function that does nothing.

ghost use Rattle.std.specs.Prelude.{◌≡◌, ◌++◌, [], ◌∷◌, ◌<◌, ◌⊎◌, ℕ, true, false, List, Option, Some, None, length, map, take};
ghost use Rattle.wl_level.specs.declared.Level.{Level};
ghost use Rattle.wl_level.specs.Places.{at};
ghost use Rattle.wl_frame.specs.Stuffing.{Stuffs, destuffed_bits, ends_six};
ghost use Rattle.wl_frame.specs.Grammar.{Content, IsContent, IsFrame, bits_of, content_of, is_crc_right};
ghost use Rattle.wl_machine.specs.declared.state.Role.{Role};
ghost use Rattle.wl_machine.specs.Stretch.{Stretch, Sampled, Input};
ghost use Rattle.wl_machine.specs.Stretch.Input.{Sample, SwitchedOff};
ghost use Rattle.wl_machine.specs.Stretch.Sort.{Framing, Intermission, OffBus};
ghost use Rattle.wl_machine.specs.Stretch.Ended.{Sent as SentFrame};
ghost use Rattle.wl_machine.specs.Frames.{stuffed_end};
ghost use Rattle.wl_machine.specs.Judged.{judged, stretch_of, stretch_after, head_of};
ghost use Rattle.wl_machine.specs.Laws.{HeadLaws, NoneEnds, FoundSent, longer_stretch};
ghost use Rattle.wl_machine.specs.RecessiveStay.{RestLaws};
ghost use Rattle.wl_machine.specs.Roles.{RoleLaws};
ghost use Rattle.wl_machine.specs.Silence.{SilenceLaws};
ghost use Rattle.wl_machine.specs.States.{stretch_by};

/// Law: the cut of a list into stretches is what it says. If no sample of a list ends the running stretch, the stretch goes on with them;
/// if one ends it, the stretch that it names begins; and an order to go off the bus begins bus off.
pub fn stretches_go_on_until_they_end()
    ensures on { (past : List Input) (during : List Sampled) → NoneEnds (stretch_of past) during
        → stretch_of (past ++ map Sample during) ≡ longer_stretch (stretch_of past) during }
    ensures end { (past : List Input) (x : Sampled) (next : Stretch) → (judged (stretch_of past) x).next ≡ Some next
        → stretch_of (past ++ Sample x ∷ []) ≡ next }
    ensures off { (past : List Input) → stretch_of (past ++ SwitchedOff ∷ []) ≡ stretch_by OffBus [] }
{}

/// Law: a transmitter that finds what it sends, up to the end of the stuffed part, has sent the one list that stuffs the bits of its head.
/// One that finds that list finds what it sends, and the stuffed part ends with it.
pub fn a_transmitter_sends_its_head_stuffed()
    ensures sent { (head : Content) (own : List Level) (end : ℕ) → IsContent head → stuffed_end own ≡ Some end
        → FoundSent head own end
        → Stuffs (take end own) (bits_of head) }
    ensures found { (head : Content) (own : List Level) → IsContent head → Stuffs own (bits_of head)
        → FoundSent head own (length own) }
    ensures end { (head : Content) (own : List Level) → IsContent head → Stuffs own (bits_of head)
        → stuffed_end own ≡ Some (length own) }
{}

/// Law: what a receiver samples up to the end of the stuffed part, without six equal bits, stuffs the list that it reads. If that begins
/// with a start of frame and has the right CRC sequence, it is a frame of what is received.
pub fn a_receiver_reads_what_is_stuffed()
    ensures stuffs { (own : List Level) (end : ℕ) → stuffed_end own ≡ Some end
        → ((k : ℕ) → k < end → ends_six own k ≡ false)
        → Stuffs (take end own) (destuffed_bits own end) }
    ensures frame { (own : List Level) (end : ℕ) → stuffed_end own ≡ Some end
        → at (destuffed_bits own end) 0 ≡ Level.Dominant → is_crc_right (destuffed_bits own end) ≡ true
        → IsFrame (destuffed_bits own end) (content_of (destuffed_bits own end)) }
{}

/// Law: a frame that is sent is the head with which its stretch began. Only the stretch of that head completes it, and ends with it. A
/// stretch's head is the one at the sample that began it, or none, and stays that.
pub fn a_sent_frame_is_the_head_that_began_its_stretch()
    ensures { HeadLaws }
{}

/// Law: a machine that is silent for some samples drives recessive up to then, whatever it samples and whatever it is to send, and also if
/// it goes off the bus.
pub fn a_silence_is_kept()
    ensures { SilenceLaws }
{}

/// Law: a machine at rest wants recessive with each recessive sample: for the number of samples that its rest says, whatever frames it is
/// handed; for ever if it is handed none. So it does if it goes off the bus.
pub fn a_rest_is_kept()
    ensures { RestLaws }
{}

/// Law: a node's role goes by its definition. What a sample counts as a transmitter's happens in the role of one, and so with a receiver's.
/// Whatever is sampled, a node is a transmitter from the sample that begins the frame which it sends. It stays one until it loses the
/// arbitration, samples the third bit of an intermission, or goes off the bus (Bosch CAN 2.0 part B, section 3.4).
pub fn a_role_lasts_to_the_end_of_the_intermission()
    ensures { RoleLaws }
{}
