//! Laws of the cable and of the line.
ghost use Rattle.wl_topology.specs.Delays.{AcceptedWhereKept};
ghost use Rattle.wl_topology.specs.Driven.{DrivenLaws};

/// Law: without disturbances a node finds dominant exactly if some node drove dominant a delay earlier (Bosch CAN 2.0 part A, section 2).
pub fn driven_laws()
    ensures { DrivenLaws }
{}

/// Law: places make a topology exactly if there are some, no more than the limits allow, and each delay is 1 to 1,048,576 ticks.
pub fn topology_law()
    ensures { AcceptedWhereKept }
{}
