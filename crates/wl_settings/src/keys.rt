//! The keys of each table, and what their values have to be.
ghost use Rattle.std.specs.Prelude.{◌≡◌};
ghost use Rattle.wl_settings.specs.Keys.{value_kind};

use crate::values::is_of_kind;
use toml::Value;
use wl_setup::{Kind, TableKey};

/// The version of a text whose controllers have PROP_SEG and PHASE_SEG1 as one length.
pub(crate) const VERSION_OF_CONTROLLERS: u32 = 4;

/// What the value of a key has to be.
#[derive(Clone, Copy)]
pub enum ValueKind {
    /// A whole number from the first one to the second.
    Within(u32, u32),
    /// `"one"` or `"any"`.
    Senders,
    /// The word of a known kind of controllers.
    Named,
    /// A sample point, as `"87.5%"`.
    Sample,
    /// A kind that plans have too.
    OfPlan(Kind),
}

/// A key of one of the tables.
#[derive(Clone, Copy)]
pub enum Key {
    Version,
    Bitrate,
    Cable,
    Per,
    Out,
    In,
    Tolerance,
    Senders,
    Controller,
    RateError,
    SamplePoint,
    /// How many nodes the bus has.
    Nodes,
    Name,
    Clock,
    Kind,
    Prescaler,
    Prop,
    Ps1,
    Ps2,
    Sjw,
    Tseg1,
    Tseg2,
    /// The key `sjw` beside `tseg1` and `tseg2`.
    WideSjw,
    /// Whether the jump width may be above PHASE_SEG2.
    SjwFree,
}

impl Key {
    /// Returns what its value has to be.
    pub(crate) fn kind(self) -> ValueKind
        ensures { result ≡ value_kind self }
    {
        match self {
            Key::Version => ValueKind::Within(VERSION_OF_CONTROLLERS, VERSION_OF_CONTROLLERS),
            Key::Bitrate => ValueKind::Within(1, 1_000_000),
            Key::Cable | Key::Per => ValueKind::Within(1, 1_048_576),
            Key::Out | Key::In => ValueKind::Within(0, 1_048_576),
            Key::Tolerance | Key::RateError => ValueKind::Within(0, 100_000),
            Key::Nodes => ValueKind::Within(2, 64),
            Key::Senders => ValueKind::Senders,
            Key::SamplePoint => ValueKind::Sample,
            Key::Controller => ValueKind::OfPlan(Kind::Tables),
            Key::Name => ValueKind::OfPlan(Kind::Name),
            Key::Clock => ValueKind::Within(1, 1_000_000_000),
            Key::Kind => ValueKind::Named,
            Key::Prescaler => ValueKind::Within(1, 1024),
            Key::Prop | Key::Ps1 | Key::Ps2 => ValueKind::Within(1, 8),
            Key::Sjw => ValueKind::Within(1, 4),
            Key::Tseg1 => ValueKind::Within(2, 256),
            Key::Tseg2 => ValueKind::Within(2, 128),
            Key::WideSjw => ValueKind::Within(1, 128),
            Key::SjwFree => ValueKind::OfPlan(Kind::Truth),
        }
    }
}

impl TableKey for Key {
    ghost use Rattle.wl_settings.specs.Keys.{key_word};
    ghost use Rattle.wl_settings.specs.Kinds.{takes_value};

    ghost word = { key_word };

    ghost takes = { takes_value };

    fn word(self) -> &'static str {
        match self {
            Key::Version => "version",
            Key::Bitrate => "bitrate",
            Key::Cable => "cable",
            Key::Per => "per",
            Key::Out => "out",
            Key::In => "in",
            Key::Tolerance => "tolerance",
            Key::Senders => "senders",
            Key::Controller => "controller",
            Key::RateError => "rate_error",
            Key::SamplePoint => "sample_point",
            Key::Nodes => "nodes",
            Key::Name => "name",
            Key::Clock => "clock",
            Key::Kind => "kind",
            Key::Prescaler => "prescaler",
            Key::Prop => "prop",
            Key::Ps1 => "ps1",
            Key::Ps2 => "ps2",
            Key::Sjw | Key::WideSjw => "sjw",
            Key::Tseg1 => "tseg1",
            Key::Tseg2 => "tseg2",
            Key::SjwFree => "sjw_above_ps2",
        }
    }

    fn takes(self, value: &Value) -> bool {
        is_of_kind(self.kind(), value)
    }
}
