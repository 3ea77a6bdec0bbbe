//! The lines of `margin`.
ghost use Rattle.std.specs.Prelude.{◌≡◌, map};
ghost use Rattle.wl_formats.specs.Shapes.{form_of, layout_of};
ghost use Rattle.wl_formats.specs.MarginLines.{figure_forms, margin_columns, margin_layout, verdict_forms};

use crate::shape::Class::{Measure, Number, Phrase, Rest, Word};
use crate::shape::Piece::{Field, Fixed, Given, Passed};
use crate::shape::{Shape, Table};

#[rattlefmt::skip]
static COLUMNS: &[&str] = &[
    "verdict", "senders", "proved_for", "inequality", "room", "name", "other_name", "taken_ns", "taken_quanta",
    "available_ns", "available_quanta", "reason", "late_ns", "late_quanta", "early_ns", "early_quanta", "drift_ns",
    "drift_quanta", "one_sender_units", "any_senders_units", "proved_units", "one_sender_ppm", "any_senders_ppm",
    "proved_ppm", "one_sender_change", "any_senders_change", "noise", "jumps_ns", "jumps_quanta",
];

#[rattlefmt::skip]
static VERDICTS: &[Shape] = &[
    Shape { kind: "verdict", pieces: &[
        Given("verdict", Word, "holds for any senders"), Fixed("holds for any senders of "), Field("senders", Phrase),
        Given("proved_for", Word, "any"), Fixed(", proved: any_senders_are_clean"),
    ] },
    Shape { kind: "verdict", pieces: &[
        Given("verdict", Word, "holds for any senders"), Fixed("holds for any senders of "), Field("senders", Phrase),
        Given("proved_for", Word, "one"), Fixed(", as far as searched; for one sender at a time, proved: one_sender_is_clean"),
    ] },
    Shape { kind: "verdict", pieces: &[
        Given("verdict", Word, "holds for any senders"), Fixed("holds for any senders of "), Field("senders", Phrase),
        Given("proved_for", Measure, "-"), Fixed(", as far as searched, not proved"),
    ] },
    Shape { kind: "verdict", pieces: &[
        Given("verdict", Word, "holds for one sender at a time"), Fixed("holds for one sender at a time of "), Field("senders", Phrase),
        Given("proved_for", Word, "one"), Fixed(", proved: one_sender_is_clean"),
    ] },
    Shape { kind: "verdict", pieces: &[
        Given("verdict", Word, "holds for one sender at a time"), Fixed("holds for one sender at a time of "), Field("senders", Phrase),
        Given("proved_for", Measure, "-"), Fixed(", as far as searched, not proved"),
    ] },
    Shape { kind: "verdict", pieces: &[
        Given("verdict", Word, "does not hold"), Given("proved_for", Measure, "-"), Given("inequality", Word, "drift_fits_jump"),
        Fixed("does not hold: in ten bits "), Field("name", Word), Fixed(" falls behind "), Field("other_name", Word),
        Fixed(" by up to "), Field("taken_ns", Number), Fixed(" ns ("), Field("taken_quanta", Number),
        Fixed(" quanta), and an edge puts right "), Field("available_ns", Number), Fixed(" ns ("),
        Field("available_quanta", Number), Fixed(" quanta)"),
    ] },
    Shape { kind: "verdict", pieces: &[
        Given("verdict", Word, "does not hold"), Given("proved_for", Measure, "-"), Given("inequality", Word, "bit_is_there_at_sample"),
        Fixed("does not hold: a bit of "), Field("other_name", Word), Fixed(" comes to "), Field("name", Word),
        Fixed(" up to "), Field("taken_ns", Number), Fixed(" ns ("), Field("taken_quanta", Number),
        Fixed(" quanta) after its own began, and "), Passed(Word), Fixed(" samples after "), Field("available_ns", Number),
        Fixed(" ns ("), Field("available_quanta", Number), Fixed(" quanta)"),
    ] },
    Shape { kind: "verdict", pieces: &[
        Given("verdict", Word, "does not hold"), Given("proved_for", Measure, "-"), Given("inequality", Word, "bit_is_there_at_sample"),
        Fixed("does not hold: a bit of "), Field("name", Word), Fixed(" comes back to it "), Field("taken_ns", Number),
        Fixed(" ns ("), Field("taken_quanta", Number), Fixed(" quanta) after it began, and it samples after "),
        Field("available_ns", Number), Fixed(" ns ("), Field("available_quanta", Number), Fixed(" quanta)"),
    ] },
    Shape { kind: "verdict", pieces: &[
        Given("verdict", Word, "does not hold"), Given("proved_for", Measure, "-"), Given("inequality", Word, "no_bit_too_early"),
        Fixed("does not hold: the next bit of "), Field("other_name", Word), Fixed(" comes to "), Field("name", Word),
        Fixed(" up to "), Field("taken_ns", Number), Fixed(" ns ("), Field("taken_quanta", Number),
        Fixed(" quanta) too early, and its PHASE_SEG2 has "), Field("available_ns", Number), Fixed(" ns ("),
        Field("available_quanta", Number), Fixed(" quanta)"),
    ] },
    Shape { kind: "any_senders", pieces: &[
        Given("inequality", Word, "drift_fits_jump"), Fixed("any senders: in ten bits "), Field("name", Word),
        Fixed(" falls behind "), Field("other_name", Word), Fixed(" by up to "), Field("taken_ns", Number),
        Fixed(" ns ("), Field("taken_quanta", Number), Fixed(" quanta), and an edge puts right "),
        Field("available_ns", Number), Fixed(" ns ("), Field("available_quanta", Number), Fixed(" quanta)"),
    ] },
    Shape { kind: "any_senders", pieces: &[
        Given("inequality", Word, "bit_is_there_at_sample"), Fixed("any senders: a bit of "), Field("other_name", Word),
        Fixed(" comes to "), Field("name", Word), Fixed(" up to "), Field("taken_ns", Number), Fixed(" ns ("),
        Field("taken_quanta", Number), Fixed(" quanta) after its own began, and "), Passed(Word), Fixed(" samples after "),
        Field("available_ns", Number), Fixed(" ns ("), Field("available_quanta", Number), Fixed(" quanta)"),
    ] },
    Shape { kind: "any_senders", pieces: &[
        Given("inequality", Word, "no_bit_too_early"), Fixed("any senders: the next bit of "), Field("other_name", Word),
        Fixed(" comes to "), Field("name", Word), Fixed(" up to "), Field("taken_ns", Number), Fixed(" ns ("),
        Field("taken_quanta", Number), Fixed(" quanta) too early, and its PHASE_SEG2 has "), Field("available_ns", Number),
        Fixed(" ns ("), Field("available_quanta", Number), Fixed(" quanta)"),
    ] },
    Shape { kind: "any_senders", pieces: &[
        Fixed("any senders: "), Field("reason", Rest),
    ] },
    Shape { kind: "not_proved", pieces: &[
        Given("room", Word, "own_bit"), Fixed("not proved: a bit of "), Field("name", Word), Fixed(" comes back to it "),
        Field("taken_ns", Number), Fixed(" ns ("), Field("taken_quanta", Number),
        Fixed(" quanta) after it began, and it samples after "), Field("available_ns", Number), Fixed(" ns ("),
        Field("available_quanta", Number), Fixed(" quanta)"),
    ] },
    Shape { kind: "not_proved", pieces: &[
        Given("room", Word, "catching_up"), Fixed("not proved: "), Field("name", Word), Fixed(" can be "), Field("taken_ns", Number), Fixed(" ns ("), Field("taken_quanta", Number),
        Fixed(" quanta) off the bits of "), Field("other_name", Word),
        Fixed(", and its edges put right "), Field("available_ns", Number), Fixed(" ns ("),
        Field("available_quanta", Number), Fixed(" quanta)"),
    ] },
    Shape { kind: "not_proved", pieces: &[
        Given("room", Word, "drift_in_jump"), Fixed("not proved: in ten bits "), Field("other_name", Word), Fixed(" falls behind "), Field("name", Word),
        Fixed(" by up to "), Field("taken_ns", Number), Fixed(" ns ("), Field("taken_quanta", Number),
        Fixed(" quanta), and an edge puts right "), Field("available_ns", Number), Fixed(" ns ("),
        Field("available_quanta", Number), Fixed(" quanta)"),
    ] },
    Shape { kind: "not_proved", pieces: &[
        Given("room", Word, "way_to_sample"), Fixed("not proved: a bit of "), Field("other_name", Word), Fixed(" comes to "), Field("name", Word),
        Fixed(" up to "), Field("taken_ns", Number), Fixed(" ns ("), Field("taken_quanta", Number),
        Fixed(" quanta) after its own began, and "), Passed(Word), Fixed(" samples after "),
        Field("available_ns", Number), Fixed(" ns ("),
        Field("available_quanta", Number), Fixed(" quanta)"),
    ] },
    Shape { kind: "not_proved", pieces: &[
        Given("room", Word, "rest"), Fixed("not proved: twelve bits after an edge a bit of "), Field("other_name", Word), Fixed(" comes to "), Field("name", Word),
        Fixed(" up to "), Field("taken_ns", Number), Fixed(" ns ("), Field("taken_quanta", Number),
        Fixed(" quanta) too early, and its PHASE_SEG2 has "), Field("available_ns", Number), Fixed(" ns ("),
        Field("available_quanta", Number), Fixed(" quanta)"),
    ] },
    Shape { kind: "not_proved", pieces: &[
        Fixed("not proved: "), Field("reason", Rest),
    ] },
];

#[rattlefmt::skip]
static FIGURES: &[Shape] = &[
    Shape { kind: "pair", pieces: &[
        Fixed("pair "), Field("name", Word), Fixed(" "), Field("other_name", Word), Fixed(": late "),
        Field("late_ns", Number), Fixed(" ns ("), Field("late_quanta", Number), Fixed(" quanta), early "),
        Field("early_ns", Number), Fixed(" ns ("), Field("early_quanta", Number), Fixed(" quanta), drift "),
        Field("drift_ns", Number), Fixed(" ns ("), Field("drift_quanta", Number), Fixed(" quanta)"),
    ] },
    Shape { kind: "pair", pieces: &[
        Fixed("pair "), Field("name", Word), Fixed(" "), Field("other_name", Word), Fixed(": late "),
        Field("late_ns", Number), Fixed(" ns ("), Field("late_quanta", Number), Fixed(" quanta), early "),
        Field("early_ns", Number), Fixed(" ns ("), Field("early_quanta", Number), Fixed(" quanta), drift "),
        Given("drift_ns", Measure, "-"), Given("drift_quanta", Measure, "-"), Fixed("none"),
    ] },
    Shape { kind: "pair", pieces: &[
        Fixed("pair "), Field("name", Word), Fixed(" "), Field("other_name", Word), Fixed(": late "),
        Field("late_ns", Number), Fixed(" ns ("), Field("late_quanta", Number), Fixed(" quanta), early "),
        Given("early_ns", Measure, "-"), Given("early_quanta", Measure, "-"), Fixed("none, drift "),
        Field("drift_ns", Number), Fixed(" ns ("), Field("drift_quanta", Number), Fixed(" quanta)"),
    ] },
    Shape { kind: "pair", pieces: &[
        Fixed("pair "), Field("name", Word), Fixed(" "), Field("other_name", Word), Fixed(": late "),
        Field("late_ns", Number), Fixed(" ns ("), Field("late_quanta", Number), Fixed(" quanta), early "),
        Given("early_ns", Measure, "-"), Given("early_quanta", Measure, "-"), Fixed("none, drift "),
        Given("drift_ns", Measure, "-"), Given("drift_quanta", Measure, "-"), Fixed("none"),
    ] },
    Shape { kind: "pair", pieces: &[
        Fixed("pair "), Field("name", Word), Fixed(" "), Field("other_name", Word), Fixed(": late "),
        Given("late_ns", Measure, "-"), Given("late_quanta", Measure, "-"), Fixed("none, early "),
        Field("early_ns", Number), Fixed(" ns ("), Field("early_quanta", Number), Fixed(" quanta), drift "),
        Field("drift_ns", Number), Fixed(" ns ("), Field("drift_quanta", Number), Fixed(" quanta)"),
    ] },
    Shape { kind: "pair", pieces: &[
        Fixed("pair "), Field("name", Word), Fixed(" "), Field("other_name", Word), Fixed(": late "),
        Given("late_ns", Measure, "-"), Given("late_quanta", Measure, "-"), Fixed("none, early "),
        Field("early_ns", Number), Fixed(" ns ("), Field("early_quanta", Number), Fixed(" quanta), drift "),
        Given("drift_ns", Measure, "-"), Given("drift_quanta", Measure, "-"), Fixed("none"),
    ] },
    Shape { kind: "pair", pieces: &[
        Fixed("pair "), Field("name", Word), Fixed(" "), Field("other_name", Word), Fixed(": late "),
        Given("late_ns", Measure, "-"), Given("late_quanta", Measure, "-"), Fixed("none, early "),
        Given("early_ns", Measure, "-"), Given("early_quanta", Measure, "-"), Fixed("none, drift "),
        Field("drift_ns", Number), Fixed(" ns ("), Field("drift_quanta", Number), Fixed(" quanta)"),
    ] },
    Shape { kind: "pair", pieces: &[
        Fixed("pair "), Field("name", Word), Fixed(" "), Field("other_name", Word), Fixed(": late "),
        Given("late_ns", Measure, "-"), Given("late_quanta", Measure, "-"), Fixed("none, early "),
        Given("early_ns", Measure, "-"), Given("early_quanta", Measure, "-"), Fixed("none, drift "),
        Given("drift_ns", Measure, "-"), Given("drift_quanta", Measure, "-"), Fixed("none"),
    ] },
    Shape { kind: "cable", pieces: &[
        Fixed("cable: one sender at a time "), Field("one_sender_units", Number), Fixed(" units longer, any senders "),
        Field("any_senders_units", Number), Fixed(" units longer, proved "), Field("proved_units", Number),
    ] },
    Shape { kind: "cable", pieces: &[
        Fixed("cable: one sender at a time "), Field("one_sender_units", Number), Fixed(" units longer, any senders "),
        Field("any_senders_units", Number), Fixed(" units longer"), Given("proved_units", Measure, "-"),
    ] },
    Shape { kind: "cable", pieces: &[
        Fixed("cable: one sender at a time "), Field("one_sender_units", Number), Fixed(" units longer, any senders "),
        Given("any_senders_units", Measure, "-"), Fixed("none"), Given("proved_units", Measure, "-"),
    ] },
    Shape { kind: "cable", pieces: &[
        Fixed("cable: one sender at a time "), Given("one_sender_units", Measure, "-"), Fixed("none, any senders "),
        Field("any_senders_units", Number), Fixed(" units longer, proved "), Field("proved_units", Number),
    ] },
    Shape { kind: "cable", pieces: &[
        Fixed("cable: one sender at a time "), Given("one_sender_units", Measure, "-"), Fixed("none, any senders "),
        Field("any_senders_units", Number), Fixed(" units longer"), Given("proved_units", Measure, "-"),
    ] },
    Shape { kind: "cable", pieces: &[
        Fixed("cable: one sender at a time "), Given("one_sender_units", Measure, "-"), Fixed("none, any senders "),
        Given("any_senders_units", Measure, "-"), Fixed("none"), Given("proved_units", Measure, "-"),
    ] },
    Shape { kind: "tolerance", pieces: &[
        Fixed("tolerance: one sender at a time "), Field("one_sender_ppm", Number), Fixed(" ppm wider, any senders "),
        Field("any_senders_ppm", Number), Fixed(" ppm wider, proved "), Field("proved_ppm", Number),
    ] },
    Shape { kind: "tolerance", pieces: &[
        Fixed("tolerance: one sender at a time "), Field("one_sender_ppm", Number), Fixed(" ppm wider, any senders "),
        Field("any_senders_ppm", Number), Fixed(" ppm wider"), Given("proved_ppm", Measure, "-"),
    ] },
    Shape { kind: "tolerance", pieces: &[
        Fixed("tolerance: one sender at a time "), Field("one_sender_ppm", Number), Fixed(" ppm wider, any senders "),
        Given("any_senders_ppm", Measure, "-"), Fixed("none"), Given("proved_ppm", Measure, "-"),
    ] },
    Shape { kind: "tolerance", pieces: &[
        Fixed("tolerance: one sender at a time "), Given("one_sender_ppm", Measure, "-"), Fixed("none, any senders "),
        Field("any_senders_ppm", Number), Fixed(" ppm wider, proved "), Field("proved_ppm", Number),
    ] },
    Shape { kind: "tolerance", pieces: &[
        Fixed("tolerance: one sender at a time "), Given("one_sender_ppm", Measure, "-"), Fixed("none, any senders "),
        Field("any_senders_ppm", Number), Fixed(" ppm wider"), Given("proved_ppm", Measure, "-"),
    ] },
    Shape { kind: "tolerance", pieces: &[
        Fixed("tolerance: one sender at a time "), Given("one_sender_ppm", Measure, "-"), Fixed("none, any senders "),
        Given("any_senders_ppm", Measure, "-"), Fixed("none"), Given("proved_ppm", Measure, "-"),
    ] },
    Shape { kind: "help", pieces: &[
        Fixed("help: one sender at a time "), Field("one_sender_change", Phrase), Fixed(", any senders "),
        Field("any_senders_change", Phrase),
    ] },
    Shape { kind: "noise", pieces: &[
        Given("noise", Word, "one spike may hide a frame"), Fixed("noise: one spike may hide a frame of "), Field("name", Word),
        Fixed(" from "), Field("other_name", Word), Fixed(", as far as searched: late "), Field("late_ns", Number),
        Fixed(" ns ("), Field("late_quanta", Number), Fixed(" quanta), and their jumps take "), Field("jumps_ns", Number),
        Fixed(" ns ("), Field("jumps_quanta", Number), Fixed(" quanta)"),
    ] },
    Shape { kind: "noise", pieces: &[ Fixed("noise: "), Field("noise", Rest) ] },
    Shape { kind: "verdict", pieces: &[
        Field("verdict", Phrase), Given("proved_for", Measure, "-"), Fixed(": "), Field("reason", Rest),
    ] },
];

/// Returns the fields of the lines of `margin`.
#[tactic(none)]
fn margin_columns() -> &'static [&'static str]
    ensures { map (λ c. c.now) result.now ≡ margin_columns }
{
    COLUMNS
}

/// Returns the shapes of what holds, of what fails, and of what isn't proved.
#[tactic(none)]
fn verdict_shapes() -> &'static [Shape]
    ensures { map form_of result.now ≡ verdict_forms }
{
    VERDICTS
}

/// Returns the shapes of the other lines of `margin`.
#[tactic(none)]
fn figure_shapes() -> &'static [Shape]
    ensures { map form_of result.now ≡ figure_forms }
{
    FIGURES
}

/// Returns the shapes of the lines of `margin`.
pub(crate) fn margin_table() -> Table
    ensures { layout_of result ≡ margin_layout }
{
    Table {
        command: "margin",
        columns: margin_columns(),
        shapes: verdict_shapes(),
        more: figure_shapes(),
    }
}
