//! Laws of devices of the system.
ghost use Rattle.wl_device.specs.HostLaws.{HostLaws};

/// Law: if a device's bytes are known, a reader gives all that it had up to its end, and a writer holds what was written.
#[tactic(auto, using(crate::proofs::HostProofs::host_laws))]
pub fn host_laws()
    ensures { HostLaws }
{}
