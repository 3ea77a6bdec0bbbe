//! Laws of machines on an idle bus, each proved as the contract of a function that does nothing.

ghost use Rattle.std.specs.Prelude.{◌<◌, ℕ, List};
ghost use Rattle.wl_frame.specs.Grammar.{Content};
ghost use Rattle.wl_machine.specs.Stretch.{Input};
ghost use Rattle.wl_buses.specs.OneFrame.Machines.{MayBeginTogether};
ghost use Rattle.wl_buses.specs.OneFrame.Waits.{HasWaited};

/// Law: machines that may begin a frame together may do so after more recessive bits that each samples by itself, if the bus is idle to
/// it. With the last of these bits it may be handed a frame.
pub fn idle_machines_may_wait()
    ensures { (count : ℕ) (frames : ℕ → List Content) (old new : ℕ → List Input) → MayBeginTogether count frames old
        → ((k : ℕ) → k < count → HasWaited (frames k) (old k) (new k)) → MayBeginTogether count frames new }
{}
