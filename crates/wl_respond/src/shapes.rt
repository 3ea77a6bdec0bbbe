//! The shapes of the lines of `respond`.
ghost use Rattle.std.specs.Prelude.{◌≡◌};
ghost use Rattle.wl_lines.specs.Shapes.{form_of, sheet_of};
ghost use Rattle.wl_respond.specs.Forms.{alone_form, not_proved_form, missed_form, load_form, message_form, open_form, proof_form, respond_sheet, unknown_form, verdict_form};

use wl_lines::Class::{Hexadecimal, Measure, Nothing, Number, Phrase, Rest, Word};
use wl_lines::Piece::{Field, Fixed, Given};
use wl_lines::{Outline, Shape, Worst};

#[rattlefmt::skip]
static PROOF: Shape = Shape { kind: "proof", pieces: &[Fixed("proved: "), Field("proved", Word)] };

#[rattlefmt::skip]
static LACK: Shape = Shape { kind: "not_proved", pieces: &[Fixed("not proved: "), Field("reason", Rest)] };

#[rattlefmt::skip]
static LOAD: Shape = Shape { kind: "bus", pieces: &[
    Fixed("bus load at most "), Field("load_percent", Number), Fixed(" %"),
] };

#[rattlefmt::skip]
static MESSAGE: Shape = Shape { kind: "message", pieces: &[
    Fixed("message "), Field("node", Number), Fixed(" "), Field("name", Word), Fixed(" "), Field("id", Hexadecimal),
    Fixed(" bits "), Field("bits", Number), Fixed(" every "), Field("every_quanta", Measure), Fixed(" jitter "),
    Field("jitter_us", Number), Fixed(" quanta "), Field("bound_quanta", Measure), Fixed(" us "),
    Field("bound_us", Measure), Fixed(" deadline "), Field("deadline_us", Measure), Fixed(" "),
    Field("deadline", Word), Fixed(" start "), Field("start_us", Measure), Fixed(" blocked "),
    Field("blocked_us", Measure), Fixed(" queue "), Field("queue_us", Measure), Fixed(" others "),
    Field("others_us", Measure), Fixed(" frame "), Field("frame_us", Measure), Fixed(" by "), Field("by_name", Word),
    Fixed(" "), Field("by_id", Hexadecimal),
] };

#[rattlefmt::skip]
static ALONE: Shape = Shape { kind: "message", pieces: &[
    Fixed("message "), Field("node", Number), Fixed(" "), Field("name", Word), Fixed(" "), Field("id", Hexadecimal),
    Fixed(" bits "), Field("bits", Number), Fixed(" every "), Field("every_quanta", Measure), Fixed(" jitter "),
    Field("jitter_us", Number), Fixed(" quanta "), Field("bound_quanta", Measure), Fixed(" us "),
    Field("bound_us", Measure), Fixed(" deadline "), Field("deadline_us", Measure), Fixed(" "),
    Field("deadline", Word), Fixed(" start "), Field("start_us", Measure), Fixed(" blocked "),
    Field("blocked_us", Measure), Fixed(" queue "), Field("queue_us", Measure), Fixed(" others "),
    Field("others_us", Measure), Fixed(" frame "), Field("frame_us", Measure), Fixed(" by "),
    Field("by_name", Nothing), Fixed(" "), Field("by_id", Measure),
] };

#[rattlefmt::skip]
static VERDICT: Shape = Shape { kind: "verdict", pieces: &[Fixed("verdict "), Field("verdict", Phrase)] };

#[rattlefmt::skip]
static LATE: Shape = Shape { kind: "verdict", pieces: &[
    Fixed("verdict "), Field("missed", Number), Fixed(" of "), Field("messages", Number), Fixed(" missed: "),
    Given("verdict", Word, "deadlines missed"), Field("missed_messages", Rest),
] };

#[rattlefmt::skip]
static OPEN: Shape = Shape { kind: "verdict", pieces: &[
    Fixed("verdict no bound: "), Given("verdict", Word, "no bound"), Field("reason", Rest),
] };

#[rattlefmt::skip]
static UNKNOWN: Shape = Shape { kind: "verdict", pieces: &[
    Fixed("no bound is known: "), Given("verdict", Word, "no bound"), Field("reason", Rest),
] };

#[rattlefmt::skip]
static RESPOND: Outline = Outline {
    command: "respond",
    columns: &[
        "proved", "reason", "load_percent", "node", "name", "id", "bits", "every_quanta", "jitter_us", "bound_quanta",
        "bound_us", "deadline_us", "deadline", "start_us", "blocked_us", "queue_us", "others_us", "frame_us",
        "by_name", "by_id", "verdict", "missed", "messages", "missed_messages",
    ],
    worst: Worst::Greatest,
    judged: &["bound_us"],
};

/// Returns the shape of the line of waits that are proved.
#[tactic(none)]
pub(crate) fn proof_shape() -> &'static Shape
    ensures { form_of result.now ≡ proof_form }
{
    &PROOF
}

/// Returns the shape of the line of a premise that lacks.
#[tactic(none)]
pub(crate) fn lack_shape() -> &'static Shape
    ensures { form_of result.now ≡ not_proved_form }
{
    &LACK
}

/// Returns the shape of the line of how busy the bus is.
#[tactic(none)]
pub(crate) fn load_shape() -> &'static Shape
    ensures { form_of result.now ≡ load_form }
{
    &LOAD
}

/// Returns the shape of the line of a message that another blocks.
#[tactic(none)]
pub(crate) fn message_shape() -> &'static Shape
    ensures { form_of result.now ≡ message_form }
{
    &MESSAGE
}

/// Returns the shape of the line of a message that none blocks.
#[tactic(none)]
pub(crate) fn alone_shape() -> &'static Shape
    ensures { form_of result.now ≡ alone_form }
{
    &ALONE
}

/// Returns the shape of the verdict that all deadlines are met.
#[tactic(none)]
pub(crate) fn verdict_shape() -> &'static Shape
    ensures { form_of result.now ≡ verdict_form }
{
    &VERDICT
}

/// Returns the shape of the verdict that some are not.
#[tactic(none)]
pub(crate) fn late_shape() -> &'static Shape
    ensures { form_of result.now ≡ missed_form }
{
    &LATE
}

/// Returns the shape of the verdict of a bus without a bound.
#[tactic(none)]
pub(crate) fn open_shape() -> &'static Shape
    ensures { form_of result.now ≡ open_form }
{
    &OPEN
}

/// Returns the shape of the line of a bus with a clock that is none.
#[tactic(none)]
pub(crate) fn unknown_shape() -> &'static Shape
    ensures { form_of result.now ≡ unknown_form }
{
    &UNKNOWN
}

/// Returns the columns of `respond`.
#[tactic(none)]
pub fn respond_outline() -> &'static Outline
    ensures { sheet_of result.now ≡ respond_sheet }
{
    &RESPOND
}
