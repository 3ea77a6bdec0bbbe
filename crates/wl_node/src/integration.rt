//! Whether a node integrates, and whether it may begin a frame.

ghost use Rattle.std.specs.Prelude.{◌≡◌, List};
ghost use Rattle.wl_machine.specs.Stretch.{Input};
ghost use Rattle.wl_machine.specs.Judged.{stretch_of};
ghost use Rattle.wl_machine.specs.Reached.{IsMachine};
ghost use Rattle.wl_node.specs.Deciding.{looks_at_head};
ghost use Rattle.wl_node.specs.History.{is_integration};

use wl_machine::{Doing, Machine};

/// True if the node of this machine integrates: it takes no part in the traffic until it has sampled eleven recessive bits in a row (ISO
/// 11898-1, bus integration).
#[inline(always)]
pub fn integrates(machine: &Machine) -> bool
    ensures { (past : List Input) → IsMachine machine.now past → result ≡ is_integration (stretch_of past).sort }
{
    match machine.doing() {
        Doing::Integrating => true,
        _ => false,
    }
}

/// True if a machine that does this looks at the head that it is handed: between frames, as it may begin one then (Bosch CAN 2.0 part B,
/// section 3.2.5).
pub fn looks_at_head(doing: Doing) -> bool
    ensures { result ≡ looks_at_head doing }
{
    match doing {
        Doing::Integrating | Doing::Idle | Doing::Intermission | Doing::Suspended | Doing::OffBus =>
            true,
        _ => false,
    }
}
