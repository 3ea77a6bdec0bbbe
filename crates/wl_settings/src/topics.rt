//! What words of the command line ask for, in the place of a text.
ghost use Rattle.std.specs.Prelude.{◌≡◌, option_map};
ghost use Rattle.wl_settings.specs.Topics.{is_about, topic_default, topic_key, topic_measure, topic_option};

use crate::keys::Key;
use wl_setup::Text;
use wl_units::Measure;

/// What an option is about.
#[derive(Clone, Copy, Debug, PartialEq, Eq)]
pub enum Topic {
    /// The kind of a controller, by its word.
    Kind,
    /// The frequency of its clock.
    Clock,
    /// The bit rate.
    Bitrate,
    /// The length of the cable.
    Cable,
    /// How long a level takes along a metre of it.
    Per,
    /// How long a level takes from a node to the cable.
    Out,
    /// How long it takes from the cable to a node.
    In,
    /// By how many parts per million a clock may deviate either way.
    Tolerance,
    /// Whether one node sends at a time, or any.
    Senders,
    /// By how many parts per million the bit rate of a setting may deviate from the one asked for.
    RateError,
    /// The usual sample point.
    SamplePoint,
    /// How many nodes the bus has.
    Nodes,
    /// The greatest jump width of each controller.
    Sjw,
}

/// The topics, in the order in which a help has them.
pub const TOPICS: [Topic; 13] = [
    Topic::Kind,
    Topic::Clock,
    Topic::Bitrate,
    Topic::Cable,
    Topic::Per,
    Topic::Out,
    Topic::In,
    Topic::Tolerance,
    Topic::Senders,
    Topic::RateError,
    Topic::SamplePoint,
    Topic::Nodes,
    Topic::Sjw,
];

/// What an option says, as it was written.
#[derive(Drop)]
pub struct AskedWord {
    /// What the option is about.
    pub topic: Topic,
    /// Its text.
    pub text: Text,
}

impl Topic {
    /// Returns the option that is about it, without dashes.
    pub fn option(self) -> &'static str
        ensures { result.now ≡ topic_option self }
    {
        match self {
            Topic::Kind => "kind",
            Topic::Clock => "clock",
            Topic::Bitrate => "bitrate",
            Topic::Cable => "cable",
            Topic::Per => "per",
            Topic::Out => "out",
            Topic::In => "in",
            Topic::Tolerance => "tolerance",
            Topic::Senders => "senders",
            Topic::RateError => "rate-error",
            Topic::SamplePoint => "sample-point",
            Topic::Nodes => "nodes",
            Topic::Sjw => "sjw",
        }
    }

    /// Returns what a help calls the option's text.
    pub fn value_name(self) -> &'static str {
        match self {
            Topic::Kind => "KIND",
            Topic::Clock => "FREQUENCY",
            Topic::Bitrate => "RATE",
            Topic::Cable => "LENGTH",
            Topic::Per | Topic::Out | Topic::In => "TIME",
            Topic::Tolerance | Topic::RateError => "PPM",
            Topic::Senders => "WHO",
            Topic::SamplePoint => "PERCENT",
            Topic::Nodes => "N",
            Topic::Sjw => "QUANTA",
        }
    }

    /// Returns what a help says of the option.
    pub fn help(self) -> &'static str {
        match self {
            Topic::Kind =>
                "The kind of a controller, as mcp2515; several go with a --clock each, in order",
            Topic::Clock => "The frequency of its clock, as 16MHz",
            Topic::Bitrate => "The bit rate, as 500k",
            Topic::Cable => "The length of the cable in whole metres, as 40m",
            Topic::Per => "How long a level takes along the cable, as 5ns/m",
            Topic::Out => "How long a level takes from a node to the cable, as 70ns",
            Topic::In => "How long a level takes from the cable to a node, as 80ns",
            Topic::Tolerance => "By how many ppm a clock may be slow or fast, as 100",
            Topic::Senders => "Whether one node sends at a time, or any: one or any",
            Topic::RateError => "By how many ppm the bit rate may be off, as 0",
            Topic::Nodes => "How many nodes the bus has: 2 to 64",
            Topic::Sjw => "The greatest jump width of each controller, in quanta: 1 to 128",
            Topic::SamplePoint =>
                "The sample point to which rows are near that come first, as 87.5%",
        }
    }

    /// True if a command line may have the option several times.
    pub fn is_repeated(self) -> bool {
        match self {
            Topic::Kind | Topic::Clock => true,
            _ => false,
        }
    }

    /// Returns the key of a text that is about the same.
    pub(crate) fn key(self) -> Key
        ensures { result ≡ topic_key self }
    {
        match self {
            Topic::Kind => Key::Kind,
            Topic::Clock => Key::Clock,
            Topic::Bitrate => Key::Bitrate,
            Topic::Cable => Key::Cable,
            Topic::Per => Key::Per,
            Topic::Out => Key::Out,
            Topic::In => Key::In,
            Topic::Tolerance => Key::Tolerance,
            Topic::Senders => Key::Senders,
            Topic::RateError => Key::RateError,
            Topic::SamplePoint => Key::SamplePoint,
            Topic::Nodes => Key::Nodes,
            Topic::Sjw => Key::WideSjw,
        }
    }

    /// Returns what its text measures; `None` if that is a word or a plain number.
    pub(crate) fn measure(self) -> Option<Measure>
        ensures { result ≡ topic_measure self }
    {
        match self {
            Topic::Clock => Some(Measure::Frequency),
            Topic::Bitrate => Some(Measure::BitRate),
            Topic::Cable => Some(Measure::Length),
            Topic::Per => Some(Measure::PerLength),
            Topic::Out | Topic::In => Some(Measure::Time),
            Topic::Kind
            | Topic::Tolerance
            | Topic::Senders
            | Topic::RateError
            | Topic::SamplePoint
            | Topic::Nodes
            | Topic::Sjw => None,
        }
    }

    /// Returns the text that is taken without the option; `None` if the option has to be there.
    pub(crate) fn default_text(self) -> Option<&'static str>
        ensures { option_map (λ text. text.now) result ≡ topic_default self }
    {
        match self {
            Topic::Per => Some("5ns/m"),
            Topic::Out => Some("70ns"),
            Topic::In => Some("80ns"),
            Topic::Tolerance => Some("100"),
            Topic::Senders => Some("any"),
            Topic::RateError => Some("0"),
            Topic::Nodes => Some("2"),
            Topic::Sjw => Some("128"),
            Topic::Kind | Topic::Clock | Topic::Bitrate | Topic::Cable | Topic::SamplePoint => None,
        }
    }
}

impl AskedWord {
    /// True if it is about a topic.
    pub(crate) fn is_about(&self, topic: Topic) -> bool
        ensures { result ≡ is_about topic self.now }
    {
        self.topic.option() == topic.option()
    }
}
