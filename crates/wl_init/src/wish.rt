//! What is asked for.
ghost use Rattle.std.specs.Prelude.{◌≡◌, map};
ghost use Rattle.wl_init.specs.Wishes.{cable_said, kind_said, kind_number, number_said_within, rate_said};

use wl_kinds::{ControllerKind, KINDS};
use wl_units::{Measure, Scale};

/// The least and the greatest bit rate, in bit/s.
pub const LEAST_RATE: u32 = 1000;

pub const MOST_RATE: u32 = 1_000_000;

/// The most units of a length that a plan's text takes.
const MOST_UNITS: u32 = 2_147_483_647;

/// A tick of 1 ns and a unit of length of 20 cm.
const SCALE: Scale = Scale {
    tick: 1_000_000,
    unit: 200_000,
};

/// What is asked for of a plan. A part that no text could be read as is `None`.
#[derive(Clone, Copy, Debug, PartialEq, Eq)]
pub struct Wish {
    /// How many nodes.
    pub nodes: u8,
    /// The bit rate in bit/s, from `LEAST_RATE` to `MOST_RATE`.
    pub rate: Option<u32>,
    /// The length of the cable, in units of 20 cm.
    pub cable: Option<u32>,
    /// The number of the kind of controllers, in the table of kinds.
    pub kind: Option<usize>,
}

/// Returns the number that a text says, if it is within these bounds.
fn number_within(measure: Measure, least: u32, most: u32, text: &str) -> Option<u32>
    ensures { result ≡ number_said_within measure least most text.now }
{
    match SCALE.number_said(measure, text) {
        Some(number) => {
            if u64::from(least) <= number && number <= u64::from(most) {
                Some(number as u32)
            } else {
                None
            }
        }
        None => None,
    }
}

/// Returns the number of the kind with this name among some kinds, if there is one.
fn kind_number(kinds: &[(&'static str, ControllerKind)], name: &str) -> Option<usize>
    ensures { result ≡ kind_number 0 (map (λ k. k.0.now) kinds.now) name.now }
{
    let mut number = 0;
    for kind in kinds {
        if name == kind.0 {
            return Some(number);
        }
        number += 1;
    }
    None
}

/// Returns the bit rate that a text says, in bit/s: from `LEAST_RATE` to `MOST_RATE`, as `250k` or `250kbit/s`.
#[tactic(auto, unfolding(crate::specs::Wishes::rate_said))]
pub fn rate_said(text: &str) -> Option<u32>
    ensures { result ≡ rate_said text.now }
{
    number_within(Measure::BitRate, LEAST_RATE, MOST_RATE, text)
}

/// Returns the length that a text says, in units of 20 cm, as `60m` or `12.4m`.
#[tactic(auto, unfolding(crate::specs::Wishes::cable_said))]
pub fn cable_said(text: &str) -> Option<u32>
    ensures { result ≡ cable_said text.now }
{
    number_within(Measure::Length, 0, MOST_UNITS, text)
}

/// Returns the number of the kind that a text names, in the table of kinds.
#[tactic(auto, unfolding(crate::specs::Wishes::kind_said))]
pub fn kind_said(text: &str) -> Option<usize>
    ensures { result ≡ kind_said text.now }
{
    kind_number(&KINDS, text)
}
