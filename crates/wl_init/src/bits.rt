//! The segments of a bit for a clock and a bit rate.
ghost use Rattle.std.specs.Prelude.{◌≡◌};
ghost use Rattle.wl_init.specs.Bits.{longest_for, periods_of_bit, plain_setting, shape_quanta, quotient, setting_among, setting_by, setting_for, setting_of};

use wl_kinds::{ControllerKind, Taken};

/// The parts of a bit, in quanta.
#[derive(Clone, Copy, Debug, PartialEq, Eq)]
pub struct Shape {
    /// PROP_SEG and PHASE_SEG1 together.
    pub tseg1: u8,
    /// PHASE_SEG2.
    pub tseg2: u8,
}

/// What a controller is set to.
#[derive(Clone, Copy, Debug, PartialEq, Eq)]
pub struct BitSetting {
    /// Periods of the clock in a quantum.
    pub prescaler: u64,
    /// The parts of a bit.
    pub shape: Shape,
    /// The jump width, in quanta.
    pub jump: u8,
}

/// The delays of a transceiver out and in together, in nanoseconds.
pub const DELAYS: u64 = 150;

/// The nanoseconds of a second.
const NANOSECONDS: u32 = 1_000_000_000;

/// Bits of 8 to 25 quanta with a sample point from 80 to 90 %. The nearer that is to 87.5 %, the earlier a shape comes; of two that are
/// equally near the one with more quanta.
#[rattlefmt::skip]
pub const NEAR: [Shape; 18] = [
    Shape { tseg1: 13, tseg2: 2 }, Shape { tseg1: 14, tseg2: 2 }, Shape { tseg1: 12, tseg2: 2 },
    Shape { tseg1: 15, tseg2: 2 }, Shape { tseg1: 11, tseg2: 2 }, Shape { tseg1: 16, tseg2: 2 },
    Shape { tseg1: 16, tseg2: 3 }, Shape { tseg1: 10, tseg2: 2 }, Shape { tseg1: 15, tseg2: 3 },
    Shape { tseg1: 14, tseg2: 3 }, Shape { tseg1: 9, tseg2: 2 }, Shape { tseg1: 13, tseg2: 3 },
    Shape { tseg1: 8, tseg2: 2 }, Shape { tseg1: 12, tseg2: 3 }, Shape { tseg1: 16, tseg2: 4 },
    Shape { tseg1: 15, tseg2: 4 }, Shape { tseg1: 11, tseg2: 3 }, Shape { tseg1: 7, tseg2: 2 },
];

/// Bits of 8 to 25 quanta with a sample point from 70 to 80 %, in the same order.
#[rattlefmt::skip]
pub const FAR: [Shape; 24] = [
    Shape { tseg1: 14, tseg2: 4 }, Shape { tseg1: 10, tseg2: 3 }, Shape { tseg1: 13, tseg2: 4 },
    Shape { tseg1: 6, tseg2: 2 }, Shape { tseg1: 16, tseg2: 5 }, Shape { tseg1: 9, tseg2: 3 },
    Shape { tseg1: 12, tseg2: 4 }, Shape { tseg1: 15, tseg2: 5 }, Shape { tseg1: 14, tseg2: 5 },
    Shape { tseg1: 11, tseg2: 4 }, Shape { tseg1: 8, tseg2: 3 }, Shape { tseg1: 5, tseg2: 2 },
    Shape { tseg1: 16, tseg2: 6 }, Shape { tseg1: 13, tseg2: 5 }, Shape { tseg1: 10, tseg2: 4 },
    Shape { tseg1: 15, tseg2: 6 }, Shape { tseg1: 7, tseg2: 3 }, Shape { tseg1: 12, tseg2: 5 },
    Shape { tseg1: 14, tseg2: 6 }, Shape { tseg1: 9, tseg2: 4 }, Shape { tseg1: 16, tseg2: 7 },
    Shape { tseg1: 11, tseg2: 5 }, Shape { tseg1: 13, tseg2: 6 }, Shape { tseg1: 6, tseg2: 3 },
];

/// The clock of each kind of controllers, in MHz, in the order of the kinds: of a usual crystal, or of a usual clock of the chip.
#[rattlefmt::skip]
pub const CLOCKS: [u32; 12] = [8, 24, 36, 16, 16, 24, 40, 80, 80, 40, 40, 16];

/// Returns how many quanta a bit of this shape has.
pub fn shape_quanta(shape: Shape) -> u32
    ensures { result ≡ shape_quanta shape }
{
    1 + u32::from(shape.tseg1) + u32::from(shape.tseg2)
}

/// Returns how many periods of a clock a bit takes, if they are whole.
fn periods_of_bit(clock: u64, rate: u32) -> Option<u64>
    ensures { result ≡ periods_of_bit clock rate }
{
    let rate = u64::from(rate);
    if rate != 0 && clock % rate == 0 {
        Some(clock / rate)
    } else {
        None
    }
}

/// Returns the setting of a kind with a shape and a jump width, for a bit of this number of periods of its clock.
fn setting_of(kind: ControllerKind, periods: u64, shape: Shape, jump: u8) -> Option<BitSetting>
    ensures { result ≡ setting_of kind periods jump shape }
{
    let quanta = u64::from(shape_quanta(shape));
    let prescaler = periods / quanta;
    let taken = Taken {
        prescaler: Some(prescaler),
        tseg1: u64::from(shape.tseg1),
        tseg2: u64::from(shape.tseg2),
        sjw: u64::from(jump),
    };
    if periods % quanta == 0 && kind.allows(taken) {
        Some(BitSetting {
            prescaler,
            shape,
            jump,
        })
    } else {
        None
    }
}

/// Returns the setting of a kind with this jump width and the first of some shapes that it can have.
fn setting_among(
    kind: ControllerKind,
    periods: u64,
    jump: u8,
    shapes: &[Shape],
) -> Option<BitSetting>
    ensures { result ≡ setting_among kind periods jump shapes.now }
{
    for shape in shapes {
        if let Some(setting) = setting_of(kind, periods, *shape, jump) {
            return Some(setting);
        }
    }
    None
}

/// Returns the setting of a kind with a jump width of 1.
#[tactic(auto, unfolding(crate::specs::Bits::plain_setting))]
fn plain_setting(kind: ControllerKind, periods: u64) -> Option<BitSetting>
    ensures { result ≡ plain_setting kind periods }
{
    match setting_among(kind, periods, 1, &NEAR) {
        Some(setting) => Some(setting),
        None => setting_among(kind, periods, 1, &FAR),
    }
}

/// Returns the setting of a kind for a bit of this number of periods of its clock.
#[tactic(auto, unfolding(crate::specs::Bits::setting_by))]
fn setting_by(kind: ControllerKind, periods: u64) -> Option<BitSetting>
    ensures { result ≡ setting_by kind periods }
{
    match setting_among(kind, periods, 2, &NEAR) {
        Some(setting) => Some(setting),
        None => plain_setting(kind, periods),
    }
}

/// Returns the setting of a kind for a clock in Hz and a bit rate in bit/s, if there is one: with a jump width of 2 and a sample point from
/// 80 % on, or else with a jump width of 1.
pub fn setting_for(kind: ControllerKind, clock: u64, rate: u32) -> Option<BitSetting>
    ensures { result ≡ setting_for kind clock rate }
{
    match periods_of_bit(clock, rate) {
        Some(periods) => setting_by(kind, periods),
        None => None,
    }
}

/// Returns a quotient; 0 if the divisor is 0.
fn quotient(a: u32, b: u32) -> u32
    ensures { result ≡ quotient a b }
{
    if b == 0 { 0 } else { a / b }
}

/// Returns the longest cable for a bit rate and a shape, in units of 20 cm, which a level takes a nanosecond for: the way there and back,
/// twice what a quantum is longer than the delays, and 2 % of a bit fit before the sample.
pub fn longest_for(rate: u32, shape: Shape) -> u64
    ensures { result ≡ longest_for rate shape }
{
    let bit = quotient(NANOSECONDS, rate);
    let quantum = u64::from(bit / shape_quanta(shape));
    let way = quantum * (1 + u64::from(shape.tseg1));
    let looks = 2 * quantum.saturating_sub(DELAYS);
    let both = way.saturating_sub(looks + u64::from(bit / 50 + 3));
    (both / 2).saturating_sub(DELAYS)
}
