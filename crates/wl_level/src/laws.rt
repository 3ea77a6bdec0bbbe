//! Laws of places in lists of levels.
ghost use Rattle.wl_level.specs.Places.{PlaceLaws};

/// Law: the first place that passes a test, counts of places, and runs of equal levels, when a list grows.
pub fn place_laws()
    ensures { PlaceLaws }
{}
