//! The settings that nodes get.
use wl_setup::{SegmentsText, Text};

/// How many ticks a quantum takes: a fraction.
#[derive(Clone, Copy, Debug, PartialEq, Eq)]
pub struct QuantumLength {
    /// Its numerator.
    pub num: u64,
    /// Its denominator.
    pub den: u64,
}

/// A setting, and the controllers that get it.
#[derive(Drop)]
pub struct Chosen {
    /// The name of the controllers, or of a node.
    pub name: Text,
    /// The frequency of their clock, in Hz.
    pub clock: u64,
    /// How long a quantum is.
    pub quantum: QuantumLength,
    /// The segments of a bit.
    pub segments: SegmentsText,
    /// Quanta of the resynchronisation jump width.
    pub sjw: u64,
}
