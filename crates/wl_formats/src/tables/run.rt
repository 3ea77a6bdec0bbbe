//! The lines of `run`.
ghost use Rattle.std.specs.Prelude.{◌≡◌};
ghost use Rattle.wl_formats.specs.Shapes.{layout_of};
ghost use Rattle.wl_formats.specs.RunLines.{run_layout};

use crate::shape::Class::{Hexadecimal, Measure, Number, Word};
use crate::shape::Piece::{Field, Fixed, Given};
use crate::shape::{Shape, Table};

#[rattlefmt::skip]
static RUN: Table = Table {
    command: "run",
    columns: &[
        "node", "tec", "rec", "mode", "errors", "samples", "hard_synchronisations", "resynchronisations",
        "least_phase_error_quanta", "greatest_phase_error_quanta", "way", "quantum", "id", "type", "dlc", "bytes", "verdict",
        "unsent",
    ],
    shapes: &[
        Shape { kind: "node", pieces: &[
            Fixed("node "), Field("node", Number), Fixed(" tec "), Field("tec", Number), Fixed(" rec "), Field("rec", Number),
            Fixed(" mode "), Field("mode", Word), Fixed(" errors "), Field("errors", Number), Fixed(" samples "),
            Field("samples", Number), Fixed(" hard "), Field("hard_synchronisations", Number), Fixed(" sync "),
            Field("resynchronisations", Number), Fixed(" least "), Field("least_phase_error_quanta", Measure),
            Fixed(" greatest "), Field("greatest_phase_error_quanta", Measure),
        ] },
        Shape { kind: "frame", pieces: &[
            Fixed("frame "), Field("node", Number), Fixed(" "), Field("way", Word), Fixed(" "), Field("quantum", Number),
            Fixed(" "), Field("id", Hexadecimal), Fixed(" "), Field("type", Word), Fixed(" "), Field("dlc", Number), Fixed(" "),
            Field("bytes", Hexadecimal),
        ] },
        Shape { kind: "verdict", pieces: &[
            Fixed("verdict "), Field("verdict", Word), Given("errors", Number, "0"), Given("unsent", Number, "0"),
        ] },
        Shape { kind: "verdict", pieces: &[
            Fixed("verdict "), Field("verdict", Word), Fixed(" errors "), Field("errors", Number), Fixed(" unsent "),
            Field("unsent", Number),
        ] },
    ],
    more: &[],
};

/// Returns the shapes of the lines of `run`.
#[tactic(none)]
pub(crate) fn run_table() -> &'static Table
    ensures { layout_of result.now ≡ run_layout }
{
    &RUN
}
