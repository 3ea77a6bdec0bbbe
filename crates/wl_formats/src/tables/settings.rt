//! The lines of `settings`.
ghost use Rattle.std.specs.Prelude.{◌≡◌, map};
ghost use Rattle.wl_formats.specs.SettingsLines.{row_forms, settings_columns, settings_layout, why_forms};
ghost use Rattle.wl_formats.specs.Shapes.{form_of, layout_of};

use crate::shape::Class::{Measure, Number, Word};
use crate::shape::Piece::{Field, Fixed, Given};
use crate::shape::{Shape, Table};

#[rattlefmt::skip]
static COLUMNS: &[&str] = &[
    "name", "clock_hz", "settings", "number", "prescaler", "prop_quanta", "ps1_quanta", "ps2_quanta", "tseg1_quanta",
    "tseg2_quanta", "sjw_quanta", "bit_quanta", "sample_point_percent", "error_ppm", "one_sender_ppm", "any_senders_ppm",
    "one_sender_units", "any_senders_units", "margin", "inequality", "taken_ns", "available_ns", "bitrate", "refused",
];

#[rattlefmt::skip]
static ROWS: &[Shape] = &[
    Shape { kind: "setting", pieces: &[
        Fixed("setting "), Field("number", Number), Fixed(" prescaler "),
        Field("prescaler", Number), Fixed(" prop "), Field("prop_quanta", Number), Fixed(" ps1 "), Field("ps1_quanta", Number), Fixed(" ps2 "), Field("ps2_quanta", Number), Fixed(" sjw "), Field("sjw_quanta", Number),
        Fixed(" quanta "), Field("bit_quanta", Number), Fixed(" sample "), Field("sample_point_percent", Number),
        Fixed(" % error "), Field("error_ppm", Number),
        Fixed(" ppm tolerance "), Field("one_sender_ppm", Number), Fixed(" one "), Field("any_senders_ppm", Number),
        Fixed(" any cable "), Field("one_sender_units", Number), Fixed(" one "), Field("any_senders_units", Number),
        Fixed(" any margin "), Field("margin", Number),
    ] },
    Shape { kind: "setting", pieces: &[
        Fixed("setting "), Field("number", Number), Fixed(" prescaler "),
        Field("prescaler", Number), Fixed(" prop "), Field("prop_quanta", Number), Fixed(" ps1 "), Field("ps1_quanta", Number), Fixed(" ps2 "), Field("ps2_quanta", Number), Fixed(" sjw "), Field("sjw_quanta", Number),
        Fixed(" quanta "), Field("bit_quanta", Number), Fixed(" sample "), Field("sample_point_percent", Number),
        Fixed(" % error "), Field("error_ppm", Number),
        Fixed(" ppm tolerance "), Field("one_sender_ppm", Number), Fixed(" one "), Field("any_senders_ppm", Number),
        Fixed(" any cable "), Field("one_sender_units", Number), Fixed(" one "), Fixed("none"), Given("any_senders_units", Measure, "-"),
        Fixed(" any margin "), Field("margin", Number),
    ] },
    Shape { kind: "setting", pieces: &[
        Fixed("setting "), Field("number", Number), Fixed(" prescaler "),
        Field("prescaler", Number), Fixed(" prop "), Field("prop_quanta", Number), Fixed(" ps1 "), Field("ps1_quanta", Number), Fixed(" ps2 "), Field("ps2_quanta", Number), Fixed(" sjw "), Field("sjw_quanta", Number),
        Fixed(" quanta "), Field("bit_quanta", Number), Fixed(" sample "), Field("sample_point_percent", Number),
        Fixed(" % error "), Field("error_ppm", Number),
        Fixed(" ppm tolerance "), Field("one_sender_ppm", Number), Fixed(" one "), Field("any_senders_ppm", Number),
        Fixed(" any cable "), Fixed("none"), Given("one_sender_units", Measure, "-"), Fixed(" one "), Fixed("none"), Given("any_senders_units", Measure, "-"),
        Fixed(" any margin "), Field("margin", Number),
    ] },
    Shape { kind: "setting", pieces: &[
        Fixed("setting "), Field("number", Number), Fixed(" prescaler "),
        Field("prescaler", Number), Fixed(" prop "), Field("prop_quanta", Number), Fixed(" ps1 "), Field("ps1_quanta", Number), Fixed(" ps2 "), Field("ps2_quanta", Number), Fixed(" sjw "), Field("sjw_quanta", Number),
        Fixed(" quanta "), Field("bit_quanta", Number), Fixed(" sample "), Field("sample_point_percent", Number),
        Fixed(" % error "), Field("error_ppm", Number),
        Fixed(" ppm tolerance "), Field("one_sender_ppm", Number), Fixed(" one "), Fixed("none"), Given("any_senders_ppm", Measure, "-"),
        Fixed(" any cable "), Field("one_sender_units", Number), Fixed(" one "), Field("any_senders_units", Number),
        Fixed(" any margin "), Field("margin", Number),
    ] },
    Shape { kind: "setting", pieces: &[
        Fixed("setting "), Field("number", Number), Fixed(" prescaler "),
        Field("prescaler", Number), Fixed(" prop "), Field("prop_quanta", Number), Fixed(" ps1 "), Field("ps1_quanta", Number), Fixed(" ps2 "), Field("ps2_quanta", Number), Fixed(" sjw "), Field("sjw_quanta", Number),
        Fixed(" quanta "), Field("bit_quanta", Number), Fixed(" sample "), Field("sample_point_percent", Number),
        Fixed(" % error "), Field("error_ppm", Number),
        Fixed(" ppm tolerance "), Field("one_sender_ppm", Number), Fixed(" one "), Fixed("none"), Given("any_senders_ppm", Measure, "-"),
        Fixed(" any cable "), Field("one_sender_units", Number), Fixed(" one "), Fixed("none"), Given("any_senders_units", Measure, "-"),
        Fixed(" any margin "), Field("margin", Number),
    ] },
    Shape { kind: "setting", pieces: &[
        Fixed("setting "), Field("number", Number), Fixed(" prescaler "),
        Field("prescaler", Number), Fixed(" prop "), Field("prop_quanta", Number), Fixed(" ps1 "), Field("ps1_quanta", Number), Fixed(" ps2 "), Field("ps2_quanta", Number), Fixed(" sjw "), Field("sjw_quanta", Number),
        Fixed(" quanta "), Field("bit_quanta", Number), Fixed(" sample "), Field("sample_point_percent", Number),
        Fixed(" % error "), Field("error_ppm", Number),
        Fixed(" ppm tolerance "), Field("one_sender_ppm", Number), Fixed(" one "), Fixed("none"), Given("any_senders_ppm", Measure, "-"),
        Fixed(" any cable "), Fixed("none"), Given("one_sender_units", Measure, "-"), Fixed(" one "), Fixed("none"), Given("any_senders_units", Measure, "-"),
        Fixed(" any margin "), Field("margin", Number),
    ] },
    Shape { kind: "setting", pieces: &[
        Fixed("setting "), Field("number", Number), Fixed(" prescaler "),
        Field("prescaler", Number), Fixed(" tseg1 "), Field("tseg1_quanta", Number), Fixed(" tseg2 "), Field("tseg2_quanta", Number), Fixed(" sjw "), Field("sjw_quanta", Number),
        Fixed(" quanta "), Field("bit_quanta", Number), Fixed(" sample "), Field("sample_point_percent", Number),
        Fixed(" % error "), Field("error_ppm", Number),
        Fixed(" ppm tolerance "), Field("one_sender_ppm", Number), Fixed(" one "), Field("any_senders_ppm", Number),
        Fixed(" any cable "), Field("one_sender_units", Number), Fixed(" one "), Field("any_senders_units", Number),
        Fixed(" any margin "), Field("margin", Number),
    ] },
    Shape { kind: "setting", pieces: &[
        Fixed("setting "), Field("number", Number), Fixed(" prescaler "),
        Field("prescaler", Number), Fixed(" tseg1 "), Field("tseg1_quanta", Number), Fixed(" tseg2 "), Field("tseg2_quanta", Number), Fixed(" sjw "), Field("sjw_quanta", Number),
        Fixed(" quanta "), Field("bit_quanta", Number), Fixed(" sample "), Field("sample_point_percent", Number),
        Fixed(" % error "), Field("error_ppm", Number),
        Fixed(" ppm tolerance "), Field("one_sender_ppm", Number), Fixed(" one "), Field("any_senders_ppm", Number),
        Fixed(" any cable "), Field("one_sender_units", Number), Fixed(" one "), Fixed("none"), Given("any_senders_units", Measure, "-"),
        Fixed(" any margin "), Field("margin", Number),
    ] },
    Shape { kind: "setting", pieces: &[
        Fixed("setting "), Field("number", Number), Fixed(" prescaler "),
        Field("prescaler", Number), Fixed(" tseg1 "), Field("tseg1_quanta", Number), Fixed(" tseg2 "), Field("tseg2_quanta", Number), Fixed(" sjw "), Field("sjw_quanta", Number),
        Fixed(" quanta "), Field("bit_quanta", Number), Fixed(" sample "), Field("sample_point_percent", Number),
        Fixed(" % error "), Field("error_ppm", Number),
        Fixed(" ppm tolerance "), Field("one_sender_ppm", Number), Fixed(" one "), Field("any_senders_ppm", Number),
        Fixed(" any cable "), Fixed("none"), Given("one_sender_units", Measure, "-"), Fixed(" one "), Fixed("none"), Given("any_senders_units", Measure, "-"),
        Fixed(" any margin "), Field("margin", Number),
    ] },
    Shape { kind: "setting", pieces: &[
        Fixed("setting "), Field("number", Number), Fixed(" prescaler "),
        Field("prescaler", Number), Fixed(" tseg1 "), Field("tseg1_quanta", Number), Fixed(" tseg2 "), Field("tseg2_quanta", Number), Fixed(" sjw "), Field("sjw_quanta", Number),
        Fixed(" quanta "), Field("bit_quanta", Number), Fixed(" sample "), Field("sample_point_percent", Number),
        Fixed(" % error "), Field("error_ppm", Number),
        Fixed(" ppm tolerance "), Field("one_sender_ppm", Number), Fixed(" one "), Fixed("none"), Given("any_senders_ppm", Measure, "-"),
        Fixed(" any cable "), Field("one_sender_units", Number), Fixed(" one "), Field("any_senders_units", Number),
        Fixed(" any margin "), Field("margin", Number),
    ] },
    Shape { kind: "setting", pieces: &[
        Fixed("setting "), Field("number", Number), Fixed(" prescaler "),
        Field("prescaler", Number), Fixed(" tseg1 "), Field("tseg1_quanta", Number), Fixed(" tseg2 "), Field("tseg2_quanta", Number), Fixed(" sjw "), Field("sjw_quanta", Number),
        Fixed(" quanta "), Field("bit_quanta", Number), Fixed(" sample "), Field("sample_point_percent", Number),
        Fixed(" % error "), Field("error_ppm", Number),
        Fixed(" ppm tolerance "), Field("one_sender_ppm", Number), Fixed(" one "), Fixed("none"), Given("any_senders_ppm", Measure, "-"),
        Fixed(" any cable "), Field("one_sender_units", Number), Fixed(" one "), Fixed("none"), Given("any_senders_units", Measure, "-"),
        Fixed(" any margin "), Field("margin", Number),
    ] },
    Shape { kind: "setting", pieces: &[
        Fixed("setting "), Field("number", Number), Fixed(" prescaler "),
        Field("prescaler", Number), Fixed(" tseg1 "), Field("tseg1_quanta", Number), Fixed(" tseg2 "), Field("tseg2_quanta", Number), Fixed(" sjw "), Field("sjw_quanta", Number),
        Fixed(" quanta "), Field("bit_quanta", Number), Fixed(" sample "), Field("sample_point_percent", Number),
        Fixed(" % error "), Field("error_ppm", Number),
        Fixed(" ppm tolerance "), Field("one_sender_ppm", Number), Fixed(" one "), Fixed("none"), Given("any_senders_ppm", Measure, "-"),
        Fixed(" any cable "), Fixed("none"), Given("one_sender_units", Measure, "-"), Fixed(" one "), Fixed("none"), Given("any_senders_units", Measure, "-"),
        Fixed(" any margin "), Field("margin", Number),
    ] },
];

#[rattlefmt::skip]
static WHY: &[Shape] = &[
    Shape { kind: "controller", pieces: &[
        Fixed("controller "), Field("name", Word), Fixed(" clock "), Field("clock_hz", Number), Fixed(" Hz: "),
        Field("settings", Number), Fixed(" settings"),
    ] },
    Shape { kind: "nearest", pieces: &[
        Fixed("nearest prescaler "), Field("prescaler", Number), Fixed(" prop "), Field("prop_quanta", Number), Fixed(" ps1 "), Field("ps1_quanta", Number), Fixed(" ps2 "), Field("ps2_quanta", Number), Fixed(" sjw "), Field("sjw_quanta", Number),
        Fixed(": "), Field("inequality", Word), Fixed(" takes "), Field("taken_ns", Number), Fixed(" ns and has "),
        Field("available_ns", Number), Fixed(" ns"),
    ] },
    Shape { kind: "nearest", pieces: &[
        Fixed("nearest prescaler "), Field("prescaler", Number), Fixed(" tseg1 "), Field("tseg1_quanta", Number), Fixed(" tseg2 "), Field("tseg2_quanta", Number), Fixed(" sjw "), Field("sjw_quanta", Number),
        Fixed(": "), Field("inequality", Word), Fixed(" takes "), Field("taken_ns", Number), Fixed(" ns and has "),
        Field("available_ns", Number), Fixed(" ns"),
    ] },
    Shape { kind: "none", pieces: &[
        Fixed("no setting has "), Field("bitrate", Number), Fixed(" bit/s within "), Field("error_ppm", Number), Fixed(" ppm"),
    ] },
    Shape { kind: "rate", pieces: &[
        Fixed("nearest rate "), Field("bitrate", Number), Fixed(" bit/s error "), Field("error_ppm", Number), Fixed(" ppm: prescaler "),
        Field("prescaler", Number), Fixed(" prop "), Field("prop_quanta", Number), Fixed(" ps1 "), Field("ps1_quanta", Number), Fixed(" ps2 "), Field("ps2_quanta", Number), Fixed(" sjw "), Field("sjw_quanta", Number),
    ] },
    Shape { kind: "rate", pieces: &[
        Fixed("nearest rate "), Field("bitrate", Number), Fixed(" bit/s error "), Field("error_ppm", Number), Fixed(" ppm: prescaler "),
        Field("prescaler", Number), Fixed(" tseg1 "), Field("tseg1_quanta", Number), Fixed(" tseg2 "), Field("tseg2_quanta", Number), Fixed(" sjw "), Field("sjw_quanta", Number),
    ] },
    Shape { kind: "none", pieces: &[
        Field("refused", Number), Fixed(" settings have the bit rate, and the plan of none can be run"),
    ] },
];

/// Returns the fields of the lines of `settings`.
#[tactic(none)]
fn settings_columns() -> &'static [&'static str]
    ensures { map (λ c. c.now) result.now ≡ settings_columns }
{
    COLUMNS
}

/// Returns the shapes of the lines of a setting.
#[tactic(none)]
fn row_shapes() -> &'static [Shape]
    ensures { map form_of result.now ≡ row_forms }
{
    ROWS
}

/// Returns the shapes of the other lines of `settings`.
#[tactic(none)]
fn why_shapes() -> &'static [Shape]
    ensures { map form_of result.now ≡ why_forms }
{
    WHY
}

/// Returns the shapes of the lines of `settings`.
pub(crate) fn settings_table() -> Table
    ensures { layout_of result ≡ settings_layout }
{
    Table {
        command: "settings",
        columns: settings_columns(),
        shapes: row_shapes(),
        more: why_shapes(),
    }
}
