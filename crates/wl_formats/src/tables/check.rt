//! The lines of `check`.
ghost use Rattle.std.specs.Prelude.{◌≡◌};
ghost use Rattle.wl_formats.specs.Shapes.{layout_of};
ghost use Rattle.wl_formats.specs.CheckLines.{check_layout};

use crate::shape::Class::{Number, Word};
use crate::shape::Piece::{Field, Fixed};
use crate::shape::{Shape, Table};

#[rattlefmt::skip]
static CHECK: Table = Table {
    command: "check",
    columns: &[
        "node", "name", "bit_quanta", "sample_quanta", "jump_quanta", "tolerance_ppm", "other_node", "delay_ticks",
        "back_ticks",
    ],
    shapes: &[
        Shape { kind: "node", pieces: &[
            Fixed("node "), Field("node", Number), Fixed(" "), Field("name", Word), Fixed(" quanta "),
            Field("bit_quanta", Number), Fixed(" sample "), Field("sample_quanta", Number), Fixed(" jump "),
            Field("jump_quanta", Number), Fixed(" ppm "), Field("tolerance_ppm", Number),
        ] },
        Shape { kind: "pair", pieces: &[
            Fixed("pair "), Field("node", Number), Fixed(" "), Field("other_node", Number), Fixed(" delay "),
            Field("delay_ticks", Number), Fixed(" back "), Field("back_ticks", Number),
        ] },
    ],
    more: &[],
};

/// Returns the shapes of the lines of `check`.
#[tactic(none)]
pub(crate) fn check_table() -> &'static Table
    ensures { layout_of result.now ≡ check_layout }
{
    &CHECK
}
