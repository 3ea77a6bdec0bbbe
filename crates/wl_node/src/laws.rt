//! Laws of nodes, as the contract of a function that does nothing.

ghost use Rattle.wl_node.specs.Extremes.{ExtremesAreExtreme};
ghost use Rattle.wl_node.specs.Laws.{DriveLaws, NodeLaws, StayingLaws};

/// Law: each node is where some levels put it, one for each quantum that it has run.
pub fn node_laws()
    ensures { NodeLaws }
{}

/// Law: the least and the greatest of some phase errors are among them, none is less and none is greater. They are there whenever there is an
/// error.
pub fn extremes_are_extreme()
    ensures { ExtremesAreExtreme }
{}

/// Law: a node that stays on the bus keeps what it promises of its drive, whatever it sees, and what it says of it for recessive levels. Between
/// the start of a bit and its sample it drives what its machine wants.
pub fn staying_laws()
    ensures { StayingLaws }
{
    wl_level::place_laws();
    wl_machine::laws::a_silence_is_kept();
    wl_machine::laws::a_rest_is_kept();
    wl_machine::laws::a_sent_frame_is_the_head_that_began_its_stretch();
    wl_sync::the_sample_comes_near();
    wl_sync::recessive_samples_are_bits_apart();
}

/// Law: a node keeps what it promises of its drive, whatever it sees, and what it says of it for recessive levels, also if it leaves the bus.
/// In `n` quanta its drive changes `n / (least_way + 1) + 1` times at most, rounded down (`Segments::least_way`).
pub fn drive_laws()
    ensures { DriveLaws }
{
    staying_laws();
    wl_level::place_laws();
    wl_sync::the_sample_comes_near();
}
