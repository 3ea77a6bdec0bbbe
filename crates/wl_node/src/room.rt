//! How the lists of a node grow.

ghost use Rattle.std.specs.Prelude.{◌<◌};

/// Returns for how many more there is room once a full list of this length has grown.
pub(crate) fn more_room(len: usize) -> usize
    ensures { 0 < result }
{
    len.saturating_mul(3).saturating_add(1)
}
