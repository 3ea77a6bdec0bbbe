//! The lines of `explain`.
ghost use Rattle.std.specs.Prelude.{◌≡◌, map};
ghost use Rattle.wl_formats.specs.Shapes.{form_of, layout_of};
ghost use Rattle.wl_formats.specs.ExplainLines.{doubt_forms, explain_columns, explain_layout, figure_forms};

use crate::shape::Class::{Hexadecimal, Measure, Number, Rest, Word};
use crate::shape::Piece::{Field, Fixed, Given, Passed};
use crate::shape::{Shape, Table};

#[rattlefmt::skip]
static COLUMNS: &[&str] = &[
    "doubt", "senders", "name", "other_name", "taken_ns", "taken_quanta", "available_ns", "available_quanta", "reason",
    "rate_kbit_s", "other_rate_kbit_s", "taken_ppm", "available_ppm", "taken_ticks", "available_ticks", "tolerance_ppm",
    "jump_quanta", "phase_seg2_quanta", "frame", "idle_tick", "needed_bits", "sample_point_percent", "quantum_ns",
    "left_ppm", "cable_ns", "cable_m", "one_sender_units", "any_senders_units", "one_sender_ppm", "any_senders_ppm",
    "wrong", "change", "id", "taken_us", "available_us", "load_percent",
];

#[rattlefmt::skip]
static DOUBTS: &[Shape] = &[
    Shape { kind: "doubt", pieces: &[
        Given("doubt", Word, "drift_fits_jump"), Given("senders", Word, "one"), Fixed("doubt: in ten bits "),
        Field("name", Word), Fixed(" falls behind "), Field("other_name", Word), Fixed(" by up to "),
        Field("taken_ns", Number), Fixed(" ns ("), Field("taken_quanta", Number),
        Fixed(" quanta), and an edge puts right "), Field("available_ns", Number), Fixed(" ns ("),
        Field("available_quanta", Number), Fixed(" quanta)"),
    ] },
    Shape { kind: "doubt", pieces: &[
        Given("doubt", Word, "bit_is_there_at_sample"), Given("senders", Word, "one"), Fixed("doubt: a bit of "),
        Field("other_name", Word), Fixed(" comes to "), Field("name", Word), Fixed(" up to "), Field("taken_ns", Number),
        Fixed(" ns ("), Field("taken_quanta", Number), Fixed(" quanta) after its own began, and "), Passed(Word),
        Fixed(" samples after "), Field("available_ns", Number), Fixed(" ns ("), Field("available_quanta", Number),
        Fixed(" quanta)"),
    ] },
    Shape { kind: "doubt", pieces: &[
        Given("doubt", Word, "bit_is_there_at_sample"), Given("senders", Word, "one"), Fixed("doubt: a bit of "),
        Field("name", Word), Fixed(" comes back to it "), Field("taken_ns", Number), Fixed(" ns ("),
        Field("taken_quanta", Number), Fixed(" quanta) after it began, and it samples after "),
        Field("available_ns", Number), Fixed(" ns ("), Field("available_quanta", Number), Fixed(" quanta)"),
    ] },
    Shape { kind: "doubt", pieces: &[
        Given("doubt", Word, "no_bit_too_early"), Given("senders", Word, "one"), Fixed("doubt: the next bit of "),
        Field("other_name", Word), Fixed(" comes to "), Field("name", Word), Fixed(" up to "), Field("taken_ns", Number),
        Fixed(" ns ("), Field("taken_quanta", Number), Fixed(" quanta) too early, and its PHASE_SEG2 has "),
        Field("available_ns", Number), Fixed(" ns ("), Field("available_quanta", Number), Fixed(" quanta)"),
    ] },
    Shape { kind: "doubt", pieces: &[
        Given("doubt", Word, "drift_fits_jump"), Given("senders", Word, "any"),
        Fixed("doubt: if several nodes send at once, in ten bits "), Field("name", Word), Fixed(" falls behind "),
        Field("other_name", Word), Fixed(" by up to "), Field("taken_ns", Number), Fixed(" ns ("),
        Field("taken_quanta", Number), Fixed(" quanta), and an edge puts right "), Field("available_ns", Number),
        Fixed(" ns ("), Field("available_quanta", Number), Fixed(" quanta)"),
    ] },
    Shape { kind: "doubt", pieces: &[
        Given("doubt", Word, "bit_is_there_at_sample"), Given("senders", Word, "any"),
        Fixed("doubt: if several nodes send at once, a bit of "), Field("other_name", Word), Fixed(" comes to "),
        Field("name", Word), Fixed(" up to "), Field("taken_ns", Number), Fixed(" ns ("), Field("taken_quanta", Number),
        Fixed(" quanta) after its own began, and "), Passed(Word), Fixed(" samples after "), Field("available_ns", Number),
        Fixed(" ns ("), Field("available_quanta", Number), Fixed(" quanta)"),
    ] },
    Shape { kind: "doubt", pieces: &[
        Given("doubt", Word, "bit_is_there_at_sample"), Given("senders", Word, "any"),
        Fixed("doubt: if several nodes send at once, a bit of "), Field("name", Word), Fixed(" comes back to it "),
        Field("taken_ns", Number), Fixed(" ns ("), Field("taken_quanta", Number),
        Fixed(" quanta) after it began, and it samples after "), Field("available_ns", Number), Fixed(" ns ("),
        Field("available_quanta", Number), Fixed(" quanta)"),
    ] },
    Shape { kind: "doubt", pieces: &[
        Given("doubt", Word, "no_bit_too_early"), Given("senders", Word, "any"),
        Fixed("doubt: if several nodes send at once, the next bit of "), Field("other_name", Word), Fixed(" comes to "),
        Field("name", Word), Fixed(" up to "), Field("taken_ns", Number), Fixed(" ns ("), Field("taken_quanta", Number),
        Fixed(" quanta) too early, and its PHASE_SEG2 has "), Field("available_ns", Number), Fixed(" ns ("),
        Field("available_quanta", Number), Fixed(" quanta)"),
    ] },
    Shape { kind: "doubt", pieces: &[
        Given("doubt", Word, "no_bound"), Fixed("doubt: no bound is known: "), Field("reason", Rest),
    ] },
    Shape { kind: "doubt", pieces: &[
        Given("doubt", Word, "unlike_rates"), Fixed("doubt: "), Field("name", Word), Fixed(" and "),
        Field("other_name", Word), Fixed(" have unlike bit rates, "), Field("rate_kbit_s", Number), Fixed(" and "),
        Field("other_rate_kbit_s", Number), Fixed(" kbit/s"),
    ] },
    Shape { kind: "doubt", pieces: &[
        Given("doubt", Word, "clocks_apart"), Fixed("doubt: the clocks of "), Field("name", Word), Fixed(" and "),
        Field("other_name", Word), Fixed(" are "), Field("taken_ppm", Number),
        Fixed(" ppm apart, and their segments bear "), Field("available_ppm", Number),
    ] },
    Shape { kind: "doubt", pieces: &[
        Given("doubt", Word, "round_trip"), Fixed("doubt: "), Field("name", Word), Fixed(" to "), Field("other_name", Word),
        Fixed(" and back takes "), Field("taken_ticks", Number), Fixed(" ticks, and the earlier sample leaves "),
        Field("available_ticks", Number),
    ] },
    Shape { kind: "doubt", pieces: &[
        Given("doubt", Word, "clock_beyond_tolerance"), Fixed("doubt: the clock of "), Field("name", Word),
        Fixed(" deviates by more than its tolerance of "), Field("tolerance_ppm", Number), Fixed(" ppm"),
    ] },
    Shape { kind: "doubt", pieces: &[
        Given("doubt", Word, "jump_above_phase_seg2"), Fixed("doubt: "), Field("name", Word),
        Fixed(" has a jump width of "), Field("jump_quanta", Number), Fixed(" quanta, above its PHASE_SEG2 of "),
        Field("phase_seg2_quanta", Number),
    ] },
    Shape { kind: "doubt", pieces: &[
        Given("doubt", Word, "ready_too_late"), Fixed("doubt: frame "), Field("frame", Number), Fixed(" of "),
        Field("name", Word), Fixed(" becomes ready at the end or later"),
    ] },
    Shape { kind: "doubt", pieces: &[
        Given("doubt", Word, "ready_too_early"), Fixed("doubt: frame "), Field("frame", Number), Fixed(" of "),
        Field("name", Word), Fixed(" becomes ready before tick "), Field("idle_tick", Number),
        Fixed(", from which on all nodes can be idle"),
    ] },
    Shape { kind: "doubt", pieces: &[
        Given("doubt", Word, "no_room"), Fixed("doubt: 11 bits and the frames of "), Field("name", Word),
        Fixed(" take at least "), Field("needed_bits", Number), Fixed(" bits, beyond the end"),
    ] },
    Shape { kind: "doubt", pieces: &[
        Given("doubt", Word, "beyond_deadline"), Fixed("doubt: "), Field("id", Hexadecimal), Fixed(" of "),
        Field("name", Word), Fixed(" may take "), Field("taken_us", Number), Fixed(" us, and its deadline is "),
        Field("available_us", Number), Fixed(" us"),
    ] },
    Shape { kind: "doubt", pieces: &[
        Given("doubt", Word, "jitter_beyond_period"), Fixed("doubt: the jitter of "), Field("id", Hexadecimal),
        Fixed(" of "), Field("name", Word), Fixed(" isn't less than its period"),
    ] },
    Shape { kind: "doubt", pieces: &[
        Given("doubt", Word, "bus_full"), Fixed("doubt: the bus load is up to "), Field("load_percent", Number),
        Fixed(" %, so no wait is bounded"),
    ] },
    Shape { kind: "doubt", pieces: &[
        Given("doubt", Word, "other"), Fixed("doubt: "), Field("reason", Rest),
    ] },
];

#[rattlefmt::skip]
static FIGURES: &[Shape] = &[
    Shape { kind: "node", pieces: &[
        Fixed("node "), Field("name", Word), Fixed(": "), Field("rate_kbit_s", Number), Fixed(" kbit/s, sample point "),
        Field("sample_point_percent", Number), Fixed(" %, quantum "), Field("quantum_ns", Number), Fixed(" ns"),
    ] },
    Shape { kind: "node", pieces: &[
        Fixed("node "), Field("name", Word), Fixed(": "), Field("rate_kbit_s", Number), Fixed(" kbit/s, sample point "),
        Field("sample_point_percent", Number), Fixed(" %, quantum "), Field("quantum_ns", Number), Fixed(" ns, tolerance "),
        Field("tolerance_ppm", Number), Fixed(" ppm, left "), Field("left_ppm", Number), Fixed(" ppm, cable "),
        Given("cable_ns", Measure, "-"), Given("cable_m", Measure, "-"), Fixed("none"),
    ] },
    Shape { kind: "node", pieces: &[
        Fixed("node "), Field("name", Word), Fixed(": "), Field("rate_kbit_s", Number), Fixed(" kbit/s, sample point "),
        Field("sample_point_percent", Number), Fixed(" %, quantum "), Field("quantum_ns", Number), Fixed(" ns, tolerance "),
        Field("tolerance_ppm", Number), Fixed(" ppm, left "), Field("left_ppm", Number), Fixed(" ppm, cable "),
        Field("cable_ns", Number), Fixed(" ns, "), Field("cable_m", Number), Fixed(" m at 5 ns a metre"),
    ] },
    Shape { kind: "cable", pieces: &[
        Fixed("cable: one sender at a time "), Field("one_sender_units", Number), Fixed(" units longer, any senders "),
        Field("any_senders_units", Number), Fixed(" units longer"),
    ] },
    Shape { kind: "cable", pieces: &[
        Fixed("cable: one sender at a time "), Field("one_sender_units", Number), Fixed(" units longer, any senders "),
        Given("any_senders_units", Measure, "-"), Fixed("none"),
    ] },
    Shape { kind: "cable", pieces: &[
        Fixed("cable: one sender at a time "), Given("one_sender_units", Measure, "-"), Fixed("none, any senders "),
        Field("any_senders_units", Number), Fixed(" units longer"),
    ] },
    Shape { kind: "cable", pieces: &[
        Fixed("cable: one sender at a time "), Given("one_sender_units", Measure, "-"), Fixed("none, any senders "),
        Given("any_senders_units", Measure, "-"), Fixed("none"),
    ] },
    Shape { kind: "tolerance", pieces: &[
        Fixed("tolerance: one sender at a time "), Field("one_sender_ppm", Number), Fixed(" ppm wider, any senders "),
        Field("any_senders_ppm", Number), Fixed(" ppm wider"),
    ] },
    Shape { kind: "tolerance", pieces: &[
        Fixed("tolerance: one sender at a time "), Field("one_sender_ppm", Number), Fixed(" ppm wider, any senders "),
        Given("any_senders_ppm", Measure, "-"), Fixed("none"),
    ] },
    Shape { kind: "tolerance", pieces: &[
        Fixed("tolerance: one sender at a time "), Given("one_sender_ppm", Measure, "-"), Fixed("none, any senders "),
        Field("any_senders_ppm", Number), Fixed(" ppm wider"),
    ] },
    Shape { kind: "tolerance", pieces: &[
        Fixed("tolerance: one sender at a time "), Given("one_sender_ppm", Measure, "-"), Fixed("none, any senders "),
        Given("any_senders_ppm", Measure, "-"), Fixed("none"),
    ] },
    Shape { kind: "wrong", pieces: &[
        Fixed("wrong: "), Field("wrong", Rest),
    ] },
    Shape { kind: "change", pieces: &[
        Fixed("change: "), Field("change", Rest),
    ] },
];

/// Returns the fields of the lines of `explain`.
#[tactic(none)]
fn explain_columns() -> &'static [&'static str]
    ensures { map (λ c. c.now) result.now ≡ explain_columns }
{
    COLUMNS
}

/// Returns the shapes of doubts.
#[tactic(none)]
fn doubt_shapes() -> &'static [Shape]
    ensures { map form_of result.now ≡ doubt_forms }
{
    DOUBTS
}

/// Returns the shapes of the other lines of `explain`.
#[tactic(none)]
fn figure_shapes() -> &'static [Shape]
    ensures { map form_of result.now ≡ figure_forms }
{
    FIGURES
}

/// Returns the shapes of the lines of `explain`.
pub(crate) fn explain_table() -> Table
    ensures { layout_of result ≡ explain_layout }
{
    Table {
        command: "explain",
        columns: explain_columns(),
        shapes: doubt_shapes(),
        more: figure_shapes(),
    }
}
