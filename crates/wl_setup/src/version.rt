//! What goes by the version of a plan's text.
ghost use Rattle.std.specs.Prelude.{◌≡◌, ◌≤◌};
ghost use Rattle.wl_limits.specs.Limits.{queue_limit};
ghost use Rattle.wl_setup.specs.Version.{has_controllers, has_traffic, is_known_version, limits_in, queued_in};

use crate::limits::{FIRST_VERSION, VERSION_OF_CONTROLLERS, VERSION_OF_RATES, VERSION_OF_TRAFFIC};
use wl_limits::Limits;
use wl_plan::FEW_QUEUED;

/// True if nodes may have the segments of controllers in this version.
pub(crate) fn has_controllers(version: u64) -> bool
    ensures { result ≡ has_controllers version }
{
    version == VERSION_OF_CONTROLLERS
}

/// True if frames come again, nodes only listen and disturbances are at one node, in this version.
pub(crate) fn has_traffic(version: u64) -> bool
    ensures { result ≡ has_traffic version }
{
    version == VERSION_OF_TRAFFIC || has_controllers(version)
}

/// True if a version is known.
pub(crate) fn is_known_version(version: u64) -> bool
    ensures { result ≡ is_known_version version }
{
    version == FIRST_VERSION || version == VERSION_OF_RATES || has_traffic(version)
}

/// Returns the limits of a plan whose text is of this version.
pub fn limits_in(version: u64) -> Limits
    ensures { result ≡ limits_in version }
{
    if has_controllers(version) {
        Limits::Wide
    } else {
        Limits::Narrow
    }
}

/// Returns how many frames may wait at a node.
pub(crate) fn queued_in(version: u64) -> usize
    ensures most { result ≡ queued_in version }
    ensures few { result ≤ queue_limit (limits_in version) }
{
    if has_traffic(version) {
        limits_in(version).queue_limit()
    } else {
        FEW_QUEUED
    }
}
