//! The lines of `trace`.
ghost use Rattle.std.specs.Prelude.{◌≡◌};
ghost use Rattle.wl_formats.specs.Shapes.{layout_of};
ghost use Rattle.wl_formats.specs.TraceLines.{trace_layout};

use crate::shape::Class::{Hexadecimal, Number, Word};
use crate::shape::Piece::{Field, Fixed};
use crate::shape::{Shape, Table};

#[rattlefmt::skip]
static TRACE: Table = Table {
    command: "trace",
    columns: &[
        "tick", "node", "name", "quantum", "bit", "phase_error_quanta", "field", "field_bit", "error", "role", "place", "flag",
        "id", "type", "dlc", "bytes", "mode", "tec", "rec",
    ],
    shapes: &[
        Shape { kind: "hard_synchronisation", pieces: &[
            Field("tick", Number), Fixed(" "), Field("node", Number), Fixed(" "), Field("name", Word), Fixed(" q "),
            Field("quantum", Number), Fixed(" b "), Field("bit", Number), Fixed(" sync hard"),
        ] },
        Shape { kind: "resynchronisation", pieces: &[
            Field("tick", Number), Fixed(" "), Field("node", Number), Fixed(" "), Field("name", Word), Fixed(" q "),
            Field("quantum", Number), Fixed(" b "), Field("bit", Number), Fixed(" sync "), Field("phase_error_quanta", Number),
        ] },
        Shape { kind: "lost", pieces: &[
            Field("tick", Number), Fixed(" "), Field("node", Number), Fixed(" "), Field("name", Word), Fixed(" q "),
            Field("quantum", Number), Fixed(" b "), Field("bit", Number), Fixed(" lost in "), Field("field", Word), Fixed(" "),
            Field("field_bit", Number),
        ] },
        Shape { kind: "error", pieces: &[
            Field("tick", Number), Fixed(" "), Field("node", Number), Fixed(" "), Field("name", Word), Fixed(" q "),
            Field("quantum", Number), Fixed(" b "), Field("bit", Number), Fixed(" error "), Field("error", Word), Fixed(" "),
            Field("role", Word), Fixed(" "), Field("place", Word), Fixed(" "), Field("field", Word), Fixed(" "),
            Field("field_bit", Number),
        ] },
        Shape { kind: "flag", pieces: &[
            Field("tick", Number), Fixed(" "), Field("node", Number), Fixed(" "), Field("name", Word), Fixed(" q "),
            Field("quantum", Number), Fixed(" b "), Field("bit", Number), Fixed(" flag "), Field("flag", Word),
        ] },
        Shape { kind: "sent", pieces: &[
            Field("tick", Number), Fixed(" "), Field("node", Number), Fixed(" "), Field("name", Word), Fixed(" q "),
            Field("quantum", Number), Fixed(" b "), Field("bit", Number), Fixed(" sent "), Field("id", Hexadecimal), Fixed(" "),
            Field("type", Word), Fixed(" "), Field("dlc", Number), Fixed(" "), Field("bytes", Hexadecimal),
        ] },
        Shape { kind: "received", pieces: &[
            Field("tick", Number), Fixed(" "), Field("node", Number), Fixed(" "), Field("name", Word), Fixed(" q "),
            Field("quantum", Number), Fixed(" b "), Field("bit", Number), Fixed(" received "), Field("id", Hexadecimal),
            Fixed(" "), Field("type", Word), Fixed(" "), Field("dlc", Number), Fixed(" "), Field("bytes", Hexadecimal),
        ] },
        Shape { kind: "mode", pieces: &[
            Field("tick", Number), Fixed(" "), Field("node", Number), Fixed(" "), Field("name", Word), Fixed(" q "),
            Field("quantum", Number), Fixed(" b "), Field("bit", Number), Fixed(" mode "), Field("mode", Word), Fixed(" tec "),
            Field("tec", Number), Fixed(" rec "), Field("rec", Number),
        ] },
    ],
    more: &[],
};

/// Returns the shapes of the lines of `trace`.
#[tactic(none)]
pub(crate) fn trace_table() -> &'static Table
    ensures { layout_of result.now ≡ trace_layout }
{
    &TRACE
}
