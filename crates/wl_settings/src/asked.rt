//! What is asked for, for which controller, and what a setting is.
ghost use Rattle.std.specs.Prelude.{◌≡◌, ◌<◌, ◌^◌};
ghost use Rattle.wl_settings.specs.Settings.{bit_divisor, divisor_of, fits_registers, is_near, is_rate_near, distance_to, is_taken_by, obeys, sample_permille, setting_quanta, setting_taken};

use crate::parts::Parts;
use wl_bound::Senders;
use wl_kinds::{ControllerKind, Taken};
use wl_setup::Text;

/// The greatest part of a rate that is counted: a million.
const MILLION: u128 = 1_000_000;

/// The bus that a controller is to work on: two nodes at the ends of a cable.
#[derive(Clone, Copy, Debug)]
pub struct Asked {
    /// The bit rate, in bit/s.
    pub bitrate: u32,
    /// The length of the cable, in units of length.
    pub cable: u32,
    /// Ticks that a level takes along one unit of length.
    pub per: u32,
    /// Ticks that a level takes from a node to the cable.
    pub out_delay: u32,
    /// Ticks that it takes from the cable to a node.
    pub in_delay: u32,
    /// By how many parts per million a clock may deviate either way.
    pub tolerance: u32,
    /// Whether one node sends at a time, or any.
    pub senders: Senders,
    /// By how many parts per million the bit rate of a setting may deviate from the one asked for.
    pub rate_error: u32,
    /// The usual sample point, in thousandths of a bit, if one is wished for.
    pub sample: Option<u32>,
    /// How many nodes there are: 2, or 3, or 4 and more.
    pub nodes: u32,
    /// Returns how many picoseconds a tick takes.
    pub tick: u64,
}

/// What a controller can be set to.
#[derive(Clone, Copy, Debug)]
pub struct Bounds {
    /// The greatest prescaler.
    pub prescaler: u32,
    /// The greatest of each segment, in quanta.
    pub parts: Parts,
    /// The greatest jump width, in quanta.
    pub sjw: u16,
    /// True if the jump width may be above PHASE_SEG2.
    pub is_sjw_free: bool,
    /// The kind of the controller, if it is known.
    pub kind: Option<ControllerKind>,
}

/// A CAN controller.
#[derive(Drop)]
pub struct Controller {
    /// 1 to 32 ASCII letters, digits, `_` or `-`.
    pub name: Text,
    /// The frequency of its clock, in Hz.
    pub clock: u32,
    /// What it can be set to.
    pub bounds: Bounds,
}

/// What the registers of a controller hold: how many periods of its clock a quantum takes, and the segments of a bit, in quanta.
#[derive(Clone, Copy, Debug, PartialEq, Eq)]
pub struct Setting {
    /// Periods of the clock in a quantum.
    pub prescaler: u32,
    /// The segments.
    pub parts: Parts,
    /// The resynchronisation jump width.
    pub sjw: u16,
}

impl Asked {
    /// Returns by which clock, in Hz, bits of these quanta have the bit rate exactly.
    pub(crate) fn divisor(&self, prescaler: u32, quanta: u64) -> u128
        requires { quanta < 2 ^ 18 }
        ensures value { result ≡ divisor_of self.now.bitrate prescaler quanta }
        ensures most { result < 2 ^ 82 }
    {
        self.bitrate as u128 * (prescaler as u128 * quanta as u128)
    }

    /// True if the rate of bits of these quanta deviates from the one asked for by at most `rate_error` parts per million.
    pub(crate) fn is_rate_near(&self, clock: u32, prescaler: u32, quanta: u64) -> bool
        requires { quanta < 2 ^ 18 }
        ensures { result ≡ is_rate_near self.now clock prescaler quanta }
    {
        let divisor = self.divisor(prescaler, quanta);
        (clock as u128).abs_diff(divisor) * MILLION <= self.rate_error as u128 * divisor
    }
}

impl Bounds {
    /// True if the jump width is at most PHASE_SEG2, or may be above it, and a controller of the kind can be set so.
    fn are_obeyed(&self, setting: Setting) -> bool
        ensures { result ≡ obeys self.now setting }
    {
        (self.is_sjw_free || setting.sjw <= setting.parts.after_sample())
            && setting.is_taken_by(self.kind)
    }
}

impl Setting {
    /// Returns the quanta of a bit.
    pub fn quanta(self) -> u64
        ensures value { result ≡ setting_quanta self }
        ensures most { result < 2 ^ 18 }
    {
        self.parts.quanta()
    }

    /// Returns the periods of the clock in a second in which there are `bitrate` bits of this setting.
    pub(crate) fn divisor(self, asked: &Asked) -> u128
        ensures value { result ≡ bit_divisor asked.now.bitrate self }
        ensures most { result < 2 ^ 82 }
    {
        asked.divisor(self.prescaler, self.quanta())
    }

    /// Returns the sample point in thousandths of a bit, rounded down.
    pub fn sample_permille(self) -> u64
        ensures { result ≡ sample_permille self }
    {
        let quanta = self.quanta();
        (quanta - self.parts.after_sample() as u64) * 1000 / quanta
    }

    /// Returns how far the sample point is from the one that is wished for, in thousandths of a bit; 0 if none is.
    pub(crate) fn distance_to(self, wish: Option<u32>) -> u64
        ensures { result ≡ distance_to wish self }
    {
        match wish {
            Some(permille) => self.sample_permille().abs_diff(permille as u64),
            None => 0,
        }
    }

    /// Returns the setting as the catalogue of kinds takes it.
    pub(crate) fn taken(self) -> Taken
        ensures { result ≡ setting_taken self }
    {
        Taken {
            prescaler: Some(self.prescaler as u64),
            tseg1: self.parts.before_sample() as u64,
            tseg2: self.parts.after_sample() as u64,
            sjw: self.sjw as u64,
        }
    }

    /// True if a controller of this kind can be set so, or if no kind is known.
    fn is_taken_by(self, kind: Option<ControllerKind>) -> bool
        ensures { result ≡ is_taken_by kind self }
    {
        match kind {
            Some(kind) => kind.allows(self.taken()),
            None => true,
        }
    }

    /// True if a controller can be set so: the registers hold the setting, and the kind allows it.
    pub(crate) fn is_within(self, bounds: &Bounds) -> bool
        ensures { result ≡ fits_registers bounds.now self }
    {
        self.prescaler <= bounds.prescaler
            && self.parts.fit(bounds.parts)
            && self.sjw <= bounds.sjw
            && bounds.are_obeyed(self)
    }

    /// True if the bit rate deviates from the one asked for by at most `rate_error` parts per million.
    pub(crate) fn is_near(self, asked: &Asked, clock: u32) -> bool
        ensures { result ≡ is_near asked.now clock self }
    {
        asked.is_rate_near(clock, self.prescaler, self.quanta())
    }
}
