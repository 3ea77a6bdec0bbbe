//! The keys of each table, and what their values have to be.
ghost use Rattle.std.specs.Prelude.{◌≡◌, true, false, if◌then◌else◌};
ghost use Rattle.toml.specs.View.{table_view};
ghost use Rattle.wl_setup.specs.Keys.{controller_keys, key_text, kind_of, required_by_clock, required_by_rate, required_by_ppm, required_by_rates, node_optional, top_optional, top_required, wide_node_optional, wide_frame_optional, frame_required, frame_optional, disturbance_required};
ghost use Rattle.wl_setup.specs.Version.{has_controllers, has_traffic};
ghost use Rattle.wl_setup.specs.Faults.{asks_tick_in, has_clock, has_rates, has_tseg, is_by_bit_rate, is_fraction, names_none, node_required, node_keys, optional_in, rate_keys, frame_keys, disturbance_keys, top_keys};

use crate::limits::VERSION_OF_RATES;
use crate::tables::TableKey;
use crate::values::{has_kind, value_at};
use crate::version::{has_controllers, has_traffic};
use toml::{Table, Value};
use wl_plain::asks_tick;

/// What the value of a key has to be.
#[derive(Clone, Copy)]
pub enum Kind {
    /// A whole number from 0 to 2^48 - 1.
    Number,
    /// A whole number from 0 to 2^31 - 1.
    Small,
    /// A whole number from -10^9 to 10^9.
    Ppm,
    /// `true` or `false`.
    Truth,
    /// 1 to 32 ASCII letters, digits, `_` or `-`.
    Name,
    /// An array of whole numbers from 0 to 255.
    Bytes,
    /// An array of tables.
    Tables,
    /// `"after"` or `"book"`.
    Sync,
    /// A whole number from 0 to 100,000.
    Tolerance,
    /// A whole number from 1 to 2^48 - 1.
    Positive,
    /// `"fifo"` or `"priority"`.
    Queue,
    /// The length of a tick, as a text.
    Tick,
    /// The length of a unit of length, as a text.
    Unit,
    /// A text that isn't empty.
    Filled,
    /// A table of tables.
    Named,
}

/// A key of one of the tables of a plan.
#[derive(Clone, Copy)]
pub enum Key {
    Version,
    End,
    Per,
    Node,
    Disturbance,
    Sync,
    Name,
    Offset,
    Num,
    Den,
    Quantum,
    Ppm,
    Rates,
    Prop,
    Ps1,
    Ps2,
    Tseg1,
    Tseg2,
    Sjw,
    X,
    Out,
    In,
    Frame,
    Id,
    Dlc,
    Remote,
    Bytes,
    Ready,
    Extended,
    From,
    To,
    Tolerance,
    Every,
    Count,
    Listen,
    /// The key `node` of a disturbance.
    AtNode,
    Tick,
    Unit,
    /// The key `controller` of the top table.
    Controllers,
    /// The key `controller` of a node.
    Controller,
    /// The key `kind`.
    OfKind,
    Clock,
    Prescaler,
    BitRate,
    Queue,
    Until,
    Cycle,
    At,
    Deadline,
    Jitter,
    /// The key `noise`, which the plain form of a document has only if its value is wrong.
    Noise,
}

impl Key {
    /// Returns the key as it is written.
    pub fn text(self) -> &'static str
        ensures { result.now ≡ key_text self }
    {
        match self {
            Key::Version => "version",
            Key::End => "end",
            Key::Per => "per",
            Key::Node => "node",
            Key::Disturbance => "disturbance",
            Key::Sync => "sync",
            Key::Name => "name",
            Key::Offset => "offset",
            Key::Num => "num",
            Key::Den => "den",
            Key::Quantum => "quantum",
            Key::Ppm => "ppm",
            Key::Rates => "rates",
            Key::Prop => "prop",
            Key::Ps1 => "ps1",
            Key::Ps2 => "ps2",
            Key::Tseg1 => "tseg1",
            Key::Tseg2 => "tseg2",
            Key::Sjw => "sjw",
            Key::X => "x",
            Key::Out => "out",
            Key::In => "in",
            Key::Frame => "frame",
            Key::Id => "id",
            Key::Dlc => "dlc",
            Key::Remote => "remote",
            Key::Bytes => "bytes",
            Key::Ready => "ready",
            Key::Extended => "extended",
            Key::From => "from",
            Key::To => "to",
            Key::Tolerance => "tolerance",
            Key::Every => "every",
            Key::Count => "count",
            Key::Listen => "listen",
            Key::AtNode => "node",
            Key::Tick => "tick",
            Key::Unit => "unit",
            Key::Controllers => "controller",
            Key::Controller => "controller",
            Key::OfKind => "kind",
            Key::Clock => "clock",
            Key::Prescaler => "prescaler",
            Key::BitRate => "bitrate",
            Key::Queue => "queue",
            Key::Until => "until",
            Key::Cycle => "cycle",
            Key::At => "at",
            Key::Deadline => "deadline",
            Key::Jitter => "jitter",
            Key::Noise => "noise",
        }
    }

    /// Returns what its value has to be.
    pub(crate) fn kind(self) -> Kind
        ensures { result ≡ kind_of self }
    {
        match self {
            Key::Node | Key::Rates | Key::Frame | Key::Disturbance => Kind::Tables,
            Key::X | Key::Id | Key::Dlc => Kind::Small,
            Key::Name | Key::AtNode => Kind::Name,
            Key::Ppm => Kind::Ppm,
            Key::Remote | Key::Extended | Key::Listen => Kind::Truth,
            Key::Bytes => Kind::Bytes,
            Key::Sync => Kind::Sync,
            Key::Tolerance => Kind::Tolerance,
            Key::Every | Key::Count | Key::Prescaler => Kind::Positive,
            Key::Tick => Kind::Tick,
            Key::Unit => Kind::Unit,
            Key::Queue => Kind::Queue,
            Key::Controllers => Kind::Named,
            Key::Controller
            | Key::OfKind
            | Key::Clock
            | Key::BitRate
            | Key::Cycle
            | Key::At
            | Key::Noise => Kind::Filled,
            _ => Kind::Number,
        }
    }
}

impl TableKey for Key {
    ghost use Rattle.wl_setup.specs.Faults.{is_value_of};
    ghost use Rattle.wl_setup.specs.Keys.{key_text};

    ghost word = { key_text };

    ghost takes = { is_value_of };

    fn word(self) -> &'static str {
        self.text()
    }

    fn takes(self, value: &Value) -> bool {
        has_kind(self.kind(), value)
    }
}

/// The keys of a table, in the order in which they are tested.
#[derive(Clone, Copy)]
pub(crate) struct Keys {
    pub(crate) required: &'static [Key],
    pub(crate) optional: &'static [Key],
}

/// True if the length of a tick has to be there: a text with a unit is left in a plain document of this version.
fn asks_tick_in(version: u64, top: &Table) -> bool
    ensures { result ≡ asks_tick_in version (table_view top.now) }
{
    has_controllers(version) && asks_tick(top)
}

/// Returns the required keys of the top table, with the length of a tick or not.
fn top_required(asks: bool) -> &'static [Key]
    ensures { result.now ≡ top_required asks }
{
    if asks {
        &[Key::Version, Key::Tick, Key::End, Key::Per, Key::Node]
    } else {
        &[Key::Version, Key::End, Key::Per, Key::Node]
    }
}

/// Returns its optional keys, by whether the version has controllers.
fn top_optional(wide: bool) -> &'static [Key]
    ensures { result.now ≡ top_optional wide }
{
    if wide {
        &[
            Key::Disturbance,
            Key::Sync,
            Key::Tick,
            Key::Unit,
            Key::Controllers,
            Key::Noise,
        ]
    } else {
        &[Key::Disturbance, Key::Sync]
    }
}

/// Returns the keys of the top table.
pub(crate) fn top_keys(version: u64, top: &Table) -> Keys
    ensures required { result.required.now ≡ (top_keys version (table_view top.now)).required }
    ensures optional { result.optional.now ≡ (top_keys version (table_view top.now)).optional }
{
    Keys {
        required: top_required(asks_tick_in(version, top)),
        optional: top_optional(has_controllers(version)),
    }
}

/// Returns the keys of a controller's table.
pub(crate) fn controller_keys() -> Keys
    ensures required { result.required.now ≡ controller_keys.required }
    ensures optional { result.optional.now ≡ controller_keys.optional }
{
    Keys {
        required: &[],
        optional: &[
            Key::OfKind,
            Key::Clock,
            Key::Prescaler,
            Key::BitRate,
            Key::Ppm,
            Key::Prop,
            Key::Ps1,
            Key::Ps2,
            Key::Tseg1,
            Key::Tseg2,
            Key::Sjw,
            Key::Out,
            Key::In,
            Key::Tolerance,
            Key::Queue,
        ],
    }
}

/// True if a node's rates are tables of their own.
pub(crate) fn has_rates(version: u64, table: &Table) -> bool
    ensures { result ≡ has_rates version (table_view table.now) }
{
    version == VERSION_OF_RATES || has_traffic(version) && value_at(table, Key::Rates).is_some()
}

/// True if a node's segments are a controller's: one of their keys is there, in a version that has them.
pub(crate) fn has_tseg(version: u64, table: &Table) -> bool
    ensures { result ≡ has_tseg version (table_view table.now) }
{
    has_controllers(version)
        && (value_at(table, Key::Tseg1).is_some() || value_at(table, Key::Tseg2).is_some())
}

/// True if a node's clock is written by its frequency: one of the keys of such a clock is there.
pub(crate) fn has_clock(version: u64, table: &Table) -> bool
    ensures { result ≡ has_clock version (table_view table.now) }
{
    has_controllers(version)
        && (value_at(table, Key::Clock).is_some()
            || value_at(table, Key::Prescaler).is_some()
            || value_at(table, Key::BitRate).is_some())
}

/// True if it has a bit rate and no prescaler.
fn is_by_bit_rate(table: &Table) -> bool
    ensures { result ≡ is_by_bit_rate (table_view table.now) }
{
    value_at(table, Key::BitRate).is_some() && value_at(table, Key::Prescaler).is_none()
}

/// Returns the required keys of a node whose clock has a prescaler, and whose segments are a controller's or not.
fn required_by_prescaler(tseg: bool) -> &'static [Key]
    ensures { result.now ≡ required_by_clock false tseg }
{
    if tseg {
        &[
            Key::Name,
            Key::Offset,
            Key::Clock,
            Key::Prescaler,
            Key::Tseg1,
            Key::Tseg2,
            Key::Sjw,
            Key::X,
            Key::Out,
            Key::In,
        ]
    } else {
        &[
            Key::Name,
            Key::Offset,
            Key::Clock,
            Key::Prescaler,
            Key::Prop,
            Key::Ps1,
            Key::Ps2,
            Key::Sjw,
            Key::X,
            Key::Out,
            Key::In,
        ]
    }
}

/// Returns the required keys of a node whose clock has a bit rate, and whose segments are a controller's or not.
fn required_by_bit_rate(tseg: bool) -> &'static [Key]
    ensures { result.now ≡ required_by_clock true tseg }
{
    if tseg {
        &[
            Key::Name,
            Key::Offset,
            Key::Clock,
            Key::BitRate,
            Key::Tseg1,
            Key::Tseg2,
            Key::Sjw,
            Key::X,
            Key::Out,
            Key::In,
        ]
    } else {
        &[
            Key::Name,
            Key::Offset,
            Key::Clock,
            Key::BitRate,
            Key::Prop,
            Key::Ps1,
            Key::Ps2,
            Key::Sjw,
            Key::X,
            Key::Out,
            Key::In,
        ]
    }
}

/// Returns the required keys of a node whose clock is written by its frequency.
fn required_by_clock(by_rate: bool, tseg: bool) -> &'static [Key]
    ensures { result.now ≡ required_by_clock by_rate tseg }
{
    if by_rate {
        required_by_bit_rate(tseg)
    } else {
        required_by_prescaler(tseg)
    }
}

/// Returns the required keys of a node whose rate is written as a fraction, and whose segments are a controller's or not.
fn required_by_rate(tseg: bool) -> &'static [Key]
    ensures { result.now ≡ required_by_rate tseg }
{
    if tseg {
        &[
            Key::Name,
            Key::Offset,
            Key::Num,
            Key::Den,
            Key::Tseg1,
            Key::Tseg2,
            Key::Sjw,
            Key::X,
            Key::Out,
            Key::In,
        ]
    } else {
        &[
            Key::Name,
            Key::Offset,
            Key::Num,
            Key::Den,
            Key::Prop,
            Key::Ps1,
            Key::Ps2,
            Key::Sjw,
            Key::X,
            Key::Out,
            Key::In,
        ]
    }
}

/// Returns the required keys of a node whose rate is written as a whole number of ticks and an
/// error in ppm, and whose segments are a controller's or not.
fn required_by_ppm(tseg: bool) -> &'static [Key]
    ensures { result.now ≡ required_by_ppm tseg }
{
    if tseg {
        &[
            Key::Name,
            Key::Offset,
            Key::Quantum,
            Key::Ppm,
            Key::Tseg1,
            Key::Tseg2,
            Key::Sjw,
            Key::X,
            Key::Out,
            Key::In,
        ]
    } else {
        &[
            Key::Name,
            Key::Offset,
            Key::Quantum,
            Key::Ppm,
            Key::Prop,
            Key::Ps1,
            Key::Ps2,
            Key::Sjw,
            Key::X,
            Key::Out,
            Key::In,
        ]
    }
}

/// Returns the required keys of a node whose rates are tables of their own, and whose segments are a controller's or not.
fn required_by_rates(tseg: bool) -> &'static [Key]
    ensures { result.now ≡ required_by_rates tseg }
{
    if tseg {
        &[
            Key::Name,
            Key::Offset,
            Key::Rates,
            Key::Tseg1,
            Key::Tseg2,
            Key::Sjw,
            Key::X,
            Key::Out,
            Key::In,
        ]
    } else {
        &[
            Key::Name,
            Key::Offset,
            Key::Rates,
            Key::Prop,
            Key::Ps1,
            Key::Ps2,
            Key::Sjw,
            Key::X,
            Key::Out,
            Key::In,
        ]
    }
}

/// True if a node of a plain document still names a controller, which is none that is there.
fn names_none(version: u64, table: &Table) -> bool
    ensures { result ≡ names_none version (table_view table.now) }
{
    has_controllers(version) && value_at(table, Key::Controller).is_some()
}

/// Returns the required keys of a node: they go by the version, by whether the keys of a clock, `rates` or `quantum` are there, and by
/// whether `tseg1` or `tseg2` is.
fn node_required(version: u64, table: &Table) -> &'static [Key]
    ensures { result.now ≡ node_required version (table_view table.now) }
{
    let tseg = has_tseg(version, table);
    if names_none(version, table) {
        &[Key::Controller]
    } else if has_clock(version, table) {
        required_by_clock(is_by_bit_rate(table), tseg)
    } else if has_rates(version, table) {
        required_by_rates(tseg)
    } else if value_at(table, Key::Quantum).is_some() {
        required_by_ppm(tseg)
    } else {
        required_by_rate(tseg)
    }
}

/// Returns the optional keys of a node, which may only listen or not.
fn node_optional(traffic: bool) -> &'static [Key]
    ensures { result.now ≡ node_optional traffic }
{
    if traffic {
        &[Key::Frame, Key::Tolerance, Key::Listen]
    } else {
        &[Key::Frame, Key::Tolerance]
    }
}

/// Returns the optional keys of a node in the version of controllers, where a deviation may be beside a fraction.
fn wide_node_optional(fraction: bool) -> &'static [Key]
    ensures { result.now ≡ wide_node_optional fraction }
{
    if fraction {
        &[
            Key::Frame,
            Key::Tolerance,
            Key::Listen,
            Key::Ppm,
            Key::Queue,
            Key::Until,
            Key::Controller,
            Key::OfKind,
            Key::BitRate,
        ]
    } else {
        &[
            Key::Frame,
            Key::Tolerance,
            Key::Listen,
            Key::Queue,
            Key::Until,
            Key::Controller,
            Key::OfKind,
        ]
    }
}

/// True if a node's rate is written as a fraction: neither as a whole number of ticks nor by tables of its own.
fn is_fraction(version: u64, table: &Table) -> bool
    ensures { result ≡ is_fraction version (table_view table.now) }
{
    has_clock(version, table)
        || !(has_rates(version, table) || value_at(table, Key::Quantum).is_some())
}

/// Returns the optional keys of a node.
fn optional_in(version: u64, table: &Table) -> &'static [Key]
    ensures { result.now ≡ optional_in version (table_view table.now) }
{
    if has_controllers(version) {
        wide_node_optional(is_fraction(version, table))
    } else {
        node_optional(has_traffic(version))
    }
}

/// Returns the keys of a node's table.
pub(crate) fn node_keys(version: u64, table: &Table) -> Keys
    ensures required { result.required.now ≡ (node_keys version (table_view table.now)).required }
    ensures optional { result.optional.now ≡ (node_keys version (table_view table.now)).optional }
{
    Keys {
        required: node_required(version, table),
        optional: optional_in(version, table),
    }
}

/// Returns the keys of a rate's table, by whether it has `quantum`.
pub(crate) fn rate_keys(table: &Table) -> Keys
    ensures required { result.required.now ≡ (rate_keys (table_view table.now)).required }
    ensures optional { result.optional.now ≡ (rate_keys (table_view table.now)).optional }
{
    if value_at(table, Key::Quantum).is_some() {
        Keys {
            required: &[Key::From, Key::Quantum, Key::Ppm],
            optional: &[],
        }
    } else {
        Keys {
            required: &[Key::From, Key::Num, Key::Den],
            optional: &[],
        }
    }
}

/// Returns the required keys of a frame, which has a count or not.
fn frame_required(counted: bool) -> &'static [Key]
    ensures { result.now ≡ frame_required counted }
{
    if counted {
        &[Key::Id, Key::Dlc, Key::Every]
    } else {
        &[Key::Id, Key::Dlc]
    }
}

/// Returns the optional keys of a frame, which may come again or not.
fn frame_optional(traffic: bool) -> &'static [Key]
    ensures { result.now ≡ frame_optional traffic }
{
    if traffic {
        &[
            Key::Remote,
            Key::Bytes,
            Key::Ready,
            Key::Extended,
            Key::Every,
            Key::Count,
        ]
    } else {
        &[Key::Remote, Key::Bytes, Key::Ready, Key::Extended]
    }
}

/// Returns its optional keys by the version.
fn frame_optional_in(version: u64) -> &'static [Key]
    ensures { result.now ≡ (if has_controllers version then wide_frame_optional else frame_optional (has_traffic version)) }
{
    if has_controllers(version) {
        &[
            Key::Remote,
            Key::Bytes,
            Key::Ready,
            Key::Extended,
            Key::Every,
            Key::Count,
            Key::Cycle,
            Key::At,
            Key::Deadline,
            Key::Jitter,
        ]
    } else {
        frame_optional(has_traffic(version))
    }
}

/// Returns the keys of a frame's table.
pub(crate) fn frame_keys(version: u64, table: &Table) -> Keys
    ensures required { result.required.now ≡ (frame_keys version (table_view table.now)).required }
    ensures optional { result.optional.now ≡ (frame_keys version (table_view table.now)).optional }
{
    let traffic = has_traffic(version);
    Keys {
        required: frame_required(traffic && value_at(table, Key::Count).is_some()),
        optional: frame_optional_in(version),
    }
}

/// Returns the required keys of a disturbance, at a node or at a place on the cable.
fn disturbance_required(at_node: bool) -> &'static [Key]
    ensures { result.now ≡ disturbance_required at_node }
{
    if at_node {
        &[Key::AtNode, Key::From, Key::To]
    } else {
        &[Key::X, Key::From, Key::To]
    }
}

/// Returns the keys of a disturbance's table.
pub(crate) fn disturbance_keys(version: u64, table: &Table) -> Keys
    ensures required { result.required.now ≡ (disturbance_keys version (table_view table.now)).required }
    ensures optional { result.optional.now ≡ (disturbance_keys version (table_view table.now)).optional }
{
    let at_node = has_traffic(version) && value_at(table, Key::AtNode).is_some();
    Keys {
        required: disturbance_required(at_node),
        optional: &[],
    }
}
