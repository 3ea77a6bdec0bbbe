//! The lines of `sweep`.
ghost use Rattle.std.specs.Prelude.{◌≡◌};
ghost use Rattle.wl_formats.specs.Shapes.{layout_of};
ghost use Rattle.wl_formats.specs.SweepLines.{sweep_layout};

use crate::shape::Class::{Number, Rest, Series, Word};
use crate::shape::Piece::{Field, Fixed, Given};
use crate::shape::{Shape, Table};

#[rattlefmt::skip]
static SWEEP: Table = Table {
    command: "sweep",
    columns: &[
        "clean", "runs", "too_early", "refused", "range_1", "value_1", "range_2", "value_2", "others", "members", "run", "seed",
        "least_members", "member", "changes", "finding", "note",
    ],
    shapes: &[
        Shape { kind: "all", pieces: &[
            Fixed("clean in "), Field("clean", Number), Fixed(" of "), Field("runs", Number), Given("too_early", Number, "0"),
            Given("refused", Number, "0"),
        ] },
        Shape { kind: "all", pieces: &[
            Fixed("clean in "), Field("clean", Number), Fixed(" of "), Field("runs", Number), Given("too_early", Number, "0"),
            Fixed(", refused in "), Field("refused", Number),
        ] },
        Shape { kind: "all", pieces: &[
            Fixed("clean in "), Field("clean", Number), Fixed(" of "), Field("runs", Number), Fixed(", too early in "),
            Field("too_early", Number), Given("refused", Number, "0"),
        ] },
        Shape { kind: "all", pieces: &[
            Fixed("clean in "), Field("clean", Number), Fixed(" of "), Field("runs", Number), Fixed(", too early in "),
            Field("too_early", Number), Fixed(", refused in "), Field("refused", Number),
        ] },
        Shape { kind: "row", pieces: &[
            Field("range_1", Word), Fixed(" "), Field("value_1", Number), Fixed(" clean in "), Field("clean", Number),
            Fixed(" of "), Field("runs", Number), Given("too_early", Number, "0"), Given("refused", Number, "0"),
        ] },
        Shape { kind: "row", pieces: &[
            Field("range_1", Word), Fixed(" "), Field("value_1", Number), Fixed(" clean in "), Field("clean", Number),
            Fixed(" of "), Field("runs", Number), Given("too_early", Number, "0"), Fixed(", refused in "),
            Field("refused", Number),
        ] },
        Shape { kind: "row", pieces: &[
            Field("range_1", Word), Fixed(" "), Field("value_1", Number), Fixed(" clean in "), Field("clean", Number),
            Fixed(" of "), Field("runs", Number), Fixed(", too early in "), Field("too_early", Number),
            Given("refused", Number, "0"),
        ] },
        Shape { kind: "row", pieces: &[
            Field("range_1", Word), Fixed(" "), Field("value_1", Number), Fixed(" clean in "), Field("clean", Number),
            Fixed(" of "), Field("runs", Number), Fixed(", too early in "), Field("too_early", Number), Fixed(", refused in "),
            Field("refused", Number),
        ] },
        Shape { kind: "row", pieces: &[
            Field("range_1", Word), Fixed(" "), Field("value_1", Number), Fixed(" "), Field("range_2", Word), Fixed(" "),
            Field("value_2", Number), Fixed(" clean in "), Field("clean", Number), Fixed(" of "), Field("runs", Number),
            Given("too_early", Number, "0"), Given("refused", Number, "0"),
        ] },
        Shape { kind: "row", pieces: &[
            Field("range_1", Word), Fixed(" "), Field("value_1", Number), Fixed(" "), Field("range_2", Word), Fixed(" "),
            Field("value_2", Number), Fixed(" clean in "), Field("clean", Number), Fixed(" of "), Field("runs", Number),
            Given("too_early", Number, "0"), Fixed(", refused in "), Field("refused", Number),
        ] },
        Shape { kind: "row", pieces: &[
            Field("range_1", Word), Fixed(" "), Field("value_1", Number), Fixed(" "), Field("range_2", Word), Fixed(" "),
            Field("value_2", Number), Fixed(" clean in "), Field("clean", Number), Fixed(" of "), Field("runs", Number),
            Fixed(", too early in "), Field("too_early", Number), Given("refused", Number, "0"),
        ] },
        Shape { kind: "row", pieces: &[
            Field("range_1", Word), Fixed(" "), Field("value_1", Number), Fixed(" "), Field("range_2", Word), Fixed(" "),
            Field("value_2", Number), Fixed(" clean in "), Field("clean", Number), Fixed(" of "), Field("runs", Number),
            Fixed(", too early in "), Field("too_early", Number), Fixed(", refused in "), Field("refused", Number),
        ] },
        Shape { kind: "row", pieces: &[
            Field("range_1", Word), Fixed(" "), Field("value_1", Number), Fixed(" "), Field("range_2", Word), Fixed(" "),
            Field("value_2", Number), Fixed(" "), Field("others", Rest),
        ] },
        Shape { kind: "members", pieces: &[
            Fixed("all "), Field("members", Word), Fixed(" members were run"),
        ] },
        Shape { kind: "members", pieces: &[
            Field("run", Number), Fixed(" of "), Field("members", Word), Fixed(" members were run, drawn by seed "),
            Field("seed", Number),
        ] },
        Shape { kind: "members", pieces: &[
            Field("run", Number), Fixed(" of at least "), Field("least_members", Word),
            Fixed(" members were run, drawn by seed "), Field("seed", Number),
        ] },
        Shape { kind: "first_unclean", pieces: &[
            Fixed("first that isn't: member "), Field("member", Number), Fixed(", "), Field("changes", Series), Fixed(": "),
            Field("finding", Rest),
        ] },
        Shape { kind: "first_unclean", pieces: &[
            Fixed("first that isn't: member "), Field("member", Number), Fixed(": "), Field("finding", Rest),
        ] },
        Shape { kind: "first_refused", pieces: &[
            Fixed("first refused: member "), Field("member", Number), Fixed(", "), Field("changes", Series), Fixed(": "),
            Field("finding", Rest),
        ] },
        Shape { kind: "first_refused", pieces: &[
            Fixed("first refused: member "), Field("member", Number), Fixed(": "), Field("finding", Rest),
        ] },
        Shape { kind: "note", pieces: &[
            Given("note", Word, "frames_added"), Fixed("each sender has one frame more, with edges ten bits apart"),
        ] },
        Shape { kind: "note", pieces: &[
            Given("note", Word, "clocks_untested"),
            Fixed("no frame has edges ten bits apart, so none tests the clocks; --worst adds some that do"),
        ] },
    ],
    more: &[],
};

/// Returns the shapes of the lines of `sweep`.
#[tactic(none)]
pub(crate) fn sweep_table() -> &'static Table
    ensures { layout_of result.now ≡ sweep_layout }
{
    &SWEEP
}
