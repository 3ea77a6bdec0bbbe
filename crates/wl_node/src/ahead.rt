//! What an engine that runs a transmitter ahead of all others asks of a node.

ghost use Rattle.std.specs.Prelude.{◌≡◌};
ghost use Rattle.wl_node.specs.Ahead.{is_hearing};

use crate::node::Node;
use wl_machine::Doing;

impl Node {
    ghost use Rattle.std.specs.Prelude.{◌≡◌};
    ghost use Rattle.std.specs.Prelude.{List};
    ghost use Rattle.wl_level.specs.declared.Level.{Level};
    ghost use Rattle.wl_node.specs.Ahead.{to_send_of, listens_of};
    ghost use Rattle.wl_node.specs.Reached.{IsNode, node_setup};

    /// Returns how many bits of its frame a transmitter still has, without stuff bits, up to the end of the CRC sequence: at most 117. It
    /// is 0 for a node that doesn't transmit, before the start of frame is sampled, and after the CRC sequence (Bosch CAN 2.0 part B,
    /// sections 3.2.1 and 5). One that has left transmits nothing.
    pub fn to_send(&self) -> usize
        ensures { (levels : List Level) → IsNode levels self.now → result ≡ to_send_of (node_setup self.now) levels }
    {
        let machine = &self.staying.progress.traffic.machine;
        if 0 < self.away || machine.awaits_start() {
            return 0;
        }
        machine.to_send()
    }

    /// True if the node drives recessive and doesn't take part in what is sent, other than by its acknowledgement or an error: it
    /// integrates, is idle, receives, is bus off, or has left.
    pub fn listens(&self) -> bool
        ensures { (levels : List Level) → IsNode levels self.now → result ≡ listens_of (node_setup self.now) levels }
    {
        let progress = &self.staying.progress;
        0 < self.away || !progress.drive.is_dominant() && hears(progress.traffic.machine.doing())
    }
}

/// True if a node that does this only listens.
fn hears(doing: Doing) -> bool
    ensures { result ≡ is_hearing doing }
{
    match doing {
        Doing::Integrating | Doing::Idle | Doing::Receiving | Doing::OffBus => true,
        _ => false,
    }
}
