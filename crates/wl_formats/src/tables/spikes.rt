//! The lines of `sweep --spike`.
ghost use Rattle.std.specs.Prelude.{◌≡◌};
ghost use Rattle.wl_formats.specs.Shapes.{layout_of};
ghost use Rattle.wl_formats.specs.SpikeLines.{spikes_layout};

use crate::shape::Class::{Number, Word};
use crate::shape::Piece::{Field, Fixed, Given};
use crate::shape::{Shape, Table};

#[rattlefmt::skip]
static SPIKES: Table = Table {
    command: "sweep",
    columns: &[
        "spike", "length", "step", "clean", "runs", "healed", "late", "unhealed", "twice", "missed", "bus_off", "refused",
        "longest_bits", "tec", "rec", "class", "member", "from",
    ],
    shapes: &[
        Shape { kind: "all", pieces: &[
            Fixed("spike "), Field("spike", Word), Fixed(" length "), Field("length", Number), Fixed(" step "),
            Field("step", Number), Fixed(" clean in "), Field("clean", Number), Fixed(" of "), Field("runs", Number),
            Fixed(", healed in "), Field("healed", Number), Fixed(", late in "), Field("late", Number),
            Fixed(", unhealed in "), Field("unhealed", Number), Fixed(", twice in "), Field("twice", Number),
            Fixed(", missed in "), Field("missed", Number), Fixed(", bus off in "), Field("bus_off", Number),
            Fixed(", refused in "), Field("refused", Number), Fixed("; longest "), Field("longest_bits", Number),
            Fixed(" bits; tec "), Field("tec", Number), Fixed(", rec "), Field("rec", Number),
        ] },
        Shape { kind: "first", pieces: &[
            Given("class", Word, "refused"), Fixed("first refused: member "), Field("member", Number), Fixed(", from = "),
            Field("from", Number),
        ] },
        Shape { kind: "first", pieces: &[
            Given("class", Word, "bus_off"), Fixed("first bus off: member "), Field("member", Number), Fixed(", from = "),
            Field("from", Number),
        ] },
        Shape { kind: "first", pieces: &[
            Given("class", Word, "missed"), Fixed("first missed: member "), Field("member", Number), Fixed(", from = "),
            Field("from", Number),
        ] },
        Shape { kind: "first", pieces: &[
            Given("class", Word, "twice"), Fixed("first twice: member "), Field("member", Number), Fixed(", from = "),
            Field("from", Number),
        ] },
        Shape { kind: "first", pieces: &[
            Given("class", Word, "unhealed"), Fixed("first unhealed: member "), Field("member", Number), Fixed(", from = "),
            Field("from", Number),
        ] },
        Shape { kind: "first", pieces: &[
            Given("class", Word, "late"), Fixed("first late: member "), Field("member", Number), Fixed(", from = "),
            Field("from", Number),
        ] },
        Shape { kind: "first", pieces: &[
            Given("class", Word, "healed"), Fixed("first healed: member "), Field("member", Number), Fixed(", from = "),
            Field("from", Number),
        ] },
    ],
    more: &[],
};

/// Returns the shapes of the lines of `sweep --spike`.
#[tactic(none)]
pub(crate) fn spikes_table() -> &'static Table
    ensures { layout_of result.now ≡ spikes_layout }
{
    &SPIKES
}
