//! Machines on one wire: if all sample the same bits, none makes an error (Bosch CAN 2.0 part B, sections 3.1 and 3.2).
#![tactic(auto)]

pub mod laws;

ghost use Rattle.std.specs.Prelude.{◌≡◌, ◌<◌, ◌++◌, [], ◌∷◌, ℕ, true, List};
ghost use Rattle.std.specs.Option.{option_copied};
ghost use Rattle.wl_confine.specs.declared.Happened.{Happened};
ghost use Rattle.wl_frame.specs.Grammar.{Content};
ghost use Rattle.wl_machine.specs.Stretch.{Input};
ghost use Rattle.wl_machine.specs.Stretch.Input.{Sample};
ghost use Rattle.wl_machine.specs.Judged.{judged, stretch_of, drive_of};
ghost use Rattle.wl_machine.specs.Reached.{IsMachine};
ghost use Rattle.wl_machine.specs.States.{sample_of, done_of};
ghost use Rattle.wl_wire.specs.InStep.{AreSoundFrames, is_fine};
ghost use Rattle.wl_wire.specs.Wire.{Event, Wire, Handed, Bit, added, idle_wire, wire_after};

use wl_confine::{Happened, Mode};
use wl_frame::frame::Frame;
use wl_level::Level;
use wl_machine::{Machine, Turn};

/// True if nothing happened but that a frame was sent to its end, or acknowledged: no error, no flag (Bosch CAN 2.0
/// part B, section 8).
pub fn is_without_error(happened: Happened) -> bool
    ensures { result ≡ is_fine happened }
{
    match happened {
        Happened::Nothing | Happened::Sent | Happened::Acked => true,
        _ => false,
    }
}

/// Takes one sample of a machine on a wire, as [`Machine::bit`].
///
/// The machine finds no error if it is one of two or more on a wire that are idle at first. Their frames differ in format, identifier or
/// RTR bit. It has to sample the level of the wire, or a recessive bit by itself between frames.
pub fn sample(machine: &mut Machine, level: Level, head: Option<&Frame>, mode: Mode) -> Turn
    ensures machine { (past : List Input) → IsMachine machine.old past
        → IsMachine machine.new (past ++ Sample (sample_of level (option_copied head.entry) mode) ∷ []) }
    ensures drive { (past : List Input) → IsMachine machine.old past
        → result.drive ≡ drive_of (stretch_of (past ++ Sample (sample_of level (option_copied head.entry) mode) ∷ [])) }
    ensures happened { (past : List Input) → IsMachine machine.old past
        → result.happened ≡ (judged (stretch_of past) (sample_of level (option_copied head.entry) mode)).happened }
    ensures done { (past : List Input) → IsMachine machine.old past
        → result.done ≡ done_of (judged (stretch_of past) (sample_of level (option_copied head.entry) mode)).ended }
    ensures in_step { (count : ℕ) (frames : ℕ → List Content) (events : List Event) → AreSoundFrames count frames
        → (event : Event) (k : ℕ) → k < count
        → IsMachine machine.old ((wire_after (idle_wire count frames) events).past k)
        → added (wire_after (idle_wire count frames) events) event k
        ≡ Sample (sample_of level (option_copied head.entry) mode) ∷ []
        → is_fine result.happened ≡ true }
{
    laws::machines_stay_in_step();
    machine.bit(level, head, mode)
}
