//! The lines of `traffic`.
ghost use Rattle.std.specs.Prelude.{◌≡◌};
ghost use Rattle.wl_formats.specs.Shapes.{layout_of};
ghost use Rattle.wl_formats.specs.TrafficLines.{traffic_layout};

use crate::shape::Class::{Hexadecimal, Measure, Number, Phrase, Rest, Word};
use crate::shape::Piece::{Field, Fixed};
use crate::shape::{Shape, Table};

#[rattlefmt::skip]
static TRAFFIC: Table = Table {
    command: "traffic",
    columns: &[
        "load_percent", "gap_us", "node", "name", "id", "sent", "left", "waiting", "lost", "broken", "least_quanta",
        "mean_quanta", "greatest_quanta", "least_us", "mean_us", "greatest_us", "verdict", "full_us", "waits_us",
        "allowed_us", "passed", "most_passed", "bound_quanta", "bound_us", "receiver", "frames", "healed_us",
        "tick", "silent_tick", "law", "reason",
    ],
    shapes: &[
        Shape { kind: "bus", pieces: &[
            Fixed("bus load "), Field("load_percent", Number), Fixed(" % gap "), Field("gap_us", Number), Fixed(" us"),
        ] },
        Shape { kind: "message", pieces: &[
            Fixed("message "), Field("node", Number), Fixed(" "), Field("name", Word), Fixed(" "), Field("id", Hexadecimal),
            Fixed(" sent "), Field("sent", Number), Fixed(" left "), Field("left", Number), Fixed(" waiting "),
            Field("waiting", Number), Fixed(" lost "), Field("lost", Number), Fixed(" broken "), Field("broken", Number),
            Fixed(" quanta least "), Field("least_quanta", Measure), Fixed(" mean "), Field("mean_quanta", Measure),
            Fixed(" greatest "), Field("greatest_quanta", Measure), Fixed(" us least "), Field("least_us", Measure),
            Fixed(" mean "), Field("mean_us", Measure), Fixed(" greatest "), Field("greatest_us", Measure),
        ] },
        Shape { kind: "bound", pieces: &[
            Fixed("bound "), Field("node", Number), Fixed(" "), Field("name", Word), Fixed(" "), Field("id", Hexadecimal),
            Fixed(" at most "), Field("bound_quanta", Number), Fixed(" quanta "), Field("bound_us", Number), Fixed(" us, proved"),
        ] },
        Shape { kind: "full", pieces: &[
            Fixed("full for the last "), Field("full_us", Number), Fixed(" us"),
        ] },
        Shape { kind: "overloads", pieces: &[
            Fixed("overloads "), Field("name", Word), Fixed(" "), Field("id", Hexadecimal), Fixed(" waits "),
            Field("waits_us", Number), Fixed(" us allowed "), Field("allowed_us", Number), Fixed(" us"),
        ] },
        Shape { kind: "starved", pieces: &[
            Fixed("starved "), Field("name", Word), Fixed(" "), Field("id", Hexadecimal), Fixed(" waits "),
            Field("waits_us", Number), Fixed(" us allowed "), Field("allowed_us", Number), Fixed(" us"),
        ] },
        Shape { kind: "deaf", pieces: &[
            Fixed("deaf "), Field("name", Word), Fixed(" "), Field("passed", Number), Fixed(" of "), Field("most_passed", Number),
            Fixed(" frames"),
        ] },
        Shape { kind: "missed", pieces: &[
            Fixed("missed "), Field("receiver", Word), Fixed(" "), Field("frames", Number), Fixed(" of "), Field("sent", Number),
            Fixed(" frames of "), Field("name", Word), Fixed(" "), Field("id", Hexadecimal),
        ] },
        Shape { kind: "twice", pieces: &[
            Fixed("twice "), Field("receiver", Word), Fixed(" "), Field("frames", Number), Fixed(" of "), Field("sent", Number),
            Fixed(" frames of "), Field("name", Word), Fixed(" "), Field("id", Hexadecimal),
        ] },
        Shape { kind: "healed", pieces: &[
            Fixed("healed "), Field("healed_us", Number), Fixed(" us after the last disturbance, clean from tick "),
            Field("tick", Number), Fixed(" on"),
        ] },
        Shape { kind: "clean", pieces: &[
            Fixed("clean from tick "), Field("tick", Number), Fixed(" on, after a silence from tick "),
            Field("silent_tick", Number), Fixed(" on, proved: "), Field("law", Word),
        ] },
        Shape { kind: "unproved", pieces: &[
            Fixed("not proved clean; margin: "), Field("reason", Rest),
        ] },
        Shape { kind: "unproved", pieces: &[
            Fixed("not proved clean: "), Field("reason", Rest),
        ] },
        Shape { kind: "verdict", pieces: &[
            Fixed("verdict "), Field("verdict", Phrase),
        ] },
    ],
    more: &[],
};

/// Returns the shapes of the lines of `traffic`.
#[tactic(none)]
pub(crate) fn traffic_table() -> &'static Table
    ensures { layout_of result.now ≡ traffic_layout }
{
    &TRAFFIC
}
