//! The lines of `judge`.
ghost use Rattle.std.specs.Prelude.{◌≡◌};
ghost use Rattle.wl_formats.specs.Shapes.{layout_of};
ghost use Rattle.wl_formats.specs.JudgeLines.{judge_layout};

use crate::shape::Class::{Hexadecimal, Measure, Number, Phrase, Rest, Series, Word};
use crate::shape::Piece::{Field, Fixed, Given};
use crate::shape::{Shape, Table};

#[rattlefmt::skip]
static JUDGE: Table = Table {
    command: "judge",
    columns: &[
        "judgement", "proved_for", "reason", "run", "says", "spare", "name", "other_name", "spare_ns", "spare_quanta",
        "change", "metres", "ppm", "sure", "proved", "longest_us", "id", "verdict", "missed", "messages",
        "missed_messages", "noise", "commands",
    ],
    shapes: &[
        Shape { kind: "from", pieces: &[ Fixed("from "), Field("commands", Rest) ] },
        Shape { kind: "judgement", pieces: &[
            Given("judgement", Word, "works"), Given("proved_for", Word, "any"), Fixed("works, proved: any_senders_are_clean"),
        ] },
        Shape { kind: "judgement", pieces: &[
            Given("judgement", Word, "works"), Given("proved_for", Word, "one"),
            Fixed("works, as far as searched; for one sender at a time, proved: one_sender_is_clean"),
        ] },
        Shape { kind: "judgement", pieces: &[
            Given("judgement", Word, "works"), Given("proved_for", Measure, "-"), Fixed("works, as far as searched, not proved"),
        ] },
        Shape { kind: "judgement", pieces: &[
            Given("judgement", Word, "does not work"), Given("proved_for", Measure, "-"), Fixed("does not work, in this run: "),
            Field("reason", Phrase),
        ] },
        Shape { kind: "judgement", pieces: &[
            Given("judgement", Word, "does not work"), Given("proved_for", Measure, "-"), Given("reason", Word, "condition"),
            Fixed("does not work, by the condition"),
        ] },
        Shape { kind: "judgement", pieces: &[
            Given("judgement", Word, "not known"), Given("proved_for", Measure, "-"), Fixed("not known"),
        ] },
        Shape { kind: "run", pieces: &[ Fixed("run: "), Field("run", Phrase) ] },
        Shape { kind: "reason", pieces: &[ Given("says", Word, "not proved"), Fixed("not proved: "), Field("reason", Rest) ] },
        Shape { kind: "reason", pieces: &[ Given("says", Word, "any senders"), Fixed("any senders: "), Field("reason", Rest) ] },
        Shape { kind: "reason", pieces: &[ Given("says", Word, "does not hold"), Fixed("does not hold: "), Field("reason", Rest) ] },
        Shape { kind: "reason", pieces: &[ Given("says", Word, "no bound is known"), Fixed("no bound is known: "), Field("reason", Rest) ] },
        Shape { kind: "weakest", pieces: &[
            Fixed("weakest "), Field("spare", Word), Fixed(": "), Field("name", Word), Fixed(" "), Field("other_name", Word),
            Fixed(" "), Field("spare_ns", Number), Fixed(" ns ("), Field("spare_quanta", Number), Fixed(" quanta)"),
        ] },
        Shape { kind: "reserve", pieces: &[
            Fixed("reserve: "), Field("metres", Number), Fixed(" m and "), Field("ppm", Number), Fixed(" ppm to spare, "),
            Field("sure", Phrase),
        ] },
        Shape { kind: "reserve", pieces: &[
            Fixed("reserve: "), Given("metres", Measure, "-"), Field("ppm", Number), Fixed(" ppm to spare, "), Field("sure", Phrase),
        ] },
        Shape { kind: "help", pieces: &[ Given("change", Measure, "-"), Fixed("help: no change that was tried") ] },
        Shape { kind: "help", pieces: &[
            Fixed("help: "), Field("change", Series), Fixed(": "), Field("metres", Number), Fixed(" m and "), Field("ppm", Number),
            Fixed(" ppm to spare, "), Field("sure", Phrase),
        ] },
        Shape { kind: "help", pieces: &[
            Fixed("help: "), Field("change", Series), Fixed(": "), Given("metres", Measure, "-"), Field("ppm", Number),
            Fixed(" ppm to spare, "), Field("sure", Phrase),
        ] },
        Shape { kind: "waits", pieces: &[ Fixed("waits: proved: "), Field("proved", Word) ] },
        Shape { kind: "waits", pieces: &[
            Fixed("waits: not proved: "), Given("proved", Measure, "-"), Field("reason", Rest),
        ] },
        Shape { kind: "longest", pieces: &[
            Fixed("waits: longest "), Field("longest_us", Number), Fixed(" us, "), Field("id", Hexadecimal), Fixed(" of "),
            Field("name", Word),
        ] },
        Shape { kind: "deadlines", pieces: &[
            Fixed("waits: verdict no bound: "), Given("verdict", Word, "no bound"), Field("reason", Rest),
        ] },
        Shape { kind: "deadlines", pieces: &[
            Fixed("waits: verdict "), Field("missed", Number), Fixed(" of "), Field("messages", Number), Fixed(" missed: "),
            Given("verdict", Word, "deadlines missed"), Field("missed_messages", Rest),
        ] },
        Shape { kind: "deadlines", pieces: &[ Fixed("waits: verdict "), Field("verdict", Phrase) ] },
        Shape { kind: "noise", pieces: &[ Fixed("noise: "), Field("noise", Rest) ] },
    ],
    more: &[],
};

/// Returns the shapes of the lines of `judge`.
#[tactic(none)]
pub(crate) fn judge_table() -> &'static Table
    ensures { layout_of result.now ≡ judge_layout }
{
    &JUDGE
}
