//! What is written for a wish, or why nothing is.
ghost use Rattle.std.specs.Prelude.{◌≡◌, ◌+◌, ◌≤◌, None, map};
ghost use Rattle.wl_init.specs.Bits.{or_first};
ghost use Rattle.wl_init.specs.Drafts.{wish_asked, clock_at, controller_at, cycle_among, cycle_for, draft_of, draft_with, draft_within, first_passing, cycle_fits, has_setting, kind_at, kind_numbered, last_below, later, kind_word, name_numbered, no_segments, setting_at};

use crate::bits::{BitSetting, CLOCKS, longest_for, setting_for};
use crate::fault::InitFault;
use crate::wish::{LEAST_RATE, MOST_RATE, Wish};
use wl_kinds::{ControllerKind, KINDS};

/// The cycles of frames, in milliseconds.
pub const CYCLES: [u32; 12] = [
    10, 20, 50, 100, 200, 500, 1000, 2000, 5000, 10_000, 20_000, 50_000,
];

/// The cycle if none of them fits.
const LONGEST_CYCLE: u32 = 50_000;

/// The bits in which a frame of 8 bytes is sent at a load of 30 %, in thousandths: 450.
const BITS_OF_FRAME: u64 = 450_000;

/// The Hz of a MHz.
const MEGAHERTZ: u64 = 1_000_000;

/// What is asked for.
#[derive(Clone, Copy, Debug, PartialEq, Eq)]
pub struct Asked {
    /// How many nodes.
    pub nodes: u8,
    /// The bit rate in bit/s.
    pub rate: u32,
    /// The length of the cable, in units of 20 cm.
    pub cable: u32,
    /// The number of the kind of controllers, in the table of kinds.
    pub kind: usize,
}

/// What a plan to begin from has.
#[derive(Clone, Copy, Debug, PartialEq, Eq)]
pub struct Draft {
    /// What was asked for.
    pub asked: Asked,
    /// The clock of the controllers, in MHz.
    pub clock: u32,
    /// What each is set to.
    pub setting: BitSetting,
    /// The cycle of each frame, in milliseconds.
    pub cycle: u32,
}

/// A kind of controllers and its clock in MHz.
#[derive(Clone, Copy, Debug)]
pub struct Controller {
    pub kind: ControllerKind,
    pub clock: u32,
}

/// Returns the kind of this number among some kinds.
fn kind_among(kinds: &[(&'static str, ControllerKind)], number: usize) -> Option<ControllerKind>
    ensures { result ≡ kind_numbered (map (λ k. k.1) kinds.now) number }
{
    match kinds {
        [] => None,
        [first, rest @ ..] => {
            if number == 0 {
                Some(first.1)
            } else {
                kind_among(rest, number - 1)
            }
        }
    }
}

/// Returns the name of the kind of this number among some kinds; nothing if there is none.
fn name_among(kinds: &[(&'static str, ControllerKind)], number: usize) -> &'static str
    ensures { result.now ≡ name_numbered (map (λ k. k.0.now) kinds.now) number }
{
    match kinds {
        [] => "",
        [first, rest @ ..] => {
            if number == 0 {
                first.0
            } else {
                name_among(rest, number - 1)
            }
        }
    }
}

/// Returns the kind of this number.
fn kind_at(number: usize) -> Option<ControllerKind>
    ensures { result ≡ kind_at number }
{
    kind_among(&KINDS, number)
}

/// Returns the name of the kind of this number; nothing if there is none.
#[tactic(auto, unfolding(crate::specs::Drafts::kind_word))]
pub fn kind_word(number: usize) -> &'static str
    ensures { result.now ≡ kind_word number }
{
    name_among(&KINDS, number)
}

/// Returns the clock of the kind of this number, in MHz.
fn clock_at(number: usize) -> Option<u32>
    ensures { result ≡ clock_at number }
{
    match CLOCKS.get(number) {
        Some(clock) => Some(*clock),
        None => None,
    }
}

/// Returns the kind of this number and its clock.
fn controller_at(number: usize) -> Option<Controller>
    ensures { result ≡ controller_at number }
{
    match (kind_at(number), clock_at(number)) {
        (Some(kind), Some(clock)) => Some(Controller { kind, clock }),
        _ => None,
    }
}

/// True if this number of frames load a bus at 30 % at most with this cycle, and it takes whole bits.
fn cycle_fits(nodes: u8, rate: u32, cycle: u32) -> bool
    ensures { result ≡ cycle_fits nodes rate cycle }
{
    let bits = u64::from(rate) * u64::from(cycle);
    bits % 1000 == 0 && u64::from(nodes) * BITS_OF_FRAME <= bits
}

/// Returns the first of some cycles that fits, or the longest one.
fn cycle_among(nodes: u8, rate: u32, cycles: &[u32]) -> u32
    ensures { result ≡ cycle_among nodes rate cycles.now }
{
    for cycle in cycles {
        if cycle_fits(nodes, rate, *cycle) {
            return *cycle;
        }
    }
    LONGEST_CYCLE
}

/// Returns the cycle of this number of frames at a bit rate.
fn cycle_for(nodes: u8, rate: u32) -> u32
    ensures { result ≡ cycle_for nodes rate }
{
    cycle_among(nodes, rate, &CYCLES)
}

/// Returns the setting of a controller for a bit rate, if there is one.
fn setting_at(controller: Controller, rate: u32) -> Option<BitSetting>
    ensures { result ≡ setting_at controller rate }
{
    setting_for(
        controller.kind,
        u64::from(controller.clock) * MEGAHERTZ,
        rate,
    )
}

/// True if a bit rate is one that may be asked for, and the controller has segments for it.
#[tactic(auto, unfolding(crate::specs::Drafts::has_setting))]
fn has_setting(controller: Controller, rate: u32) -> bool
    ensures { result ≡ has_setting controller rate }
{
    LEAST_RATE <= rate && rate <= MOST_RATE && setting_at(controller, rate).is_some()
}

/// Returns a number if it passes, and else what was found before.
fn later(passes: bool, number: u32, found: Option<u32>) -> Option<u32>
    ensures { result ≡ later passes number found }
{
    if passes { Some(number) } else { found }
}

/// Returns what was found before, and else a number if it passes.
fn earlier(found: Option<u32>, passes: bool, number: u32) -> Option<u32>
    ensures { result ≡ or_first found (later passes number None) }
{
    match found {
        Some(number) => Some(number),
        None => later(passes, number, None),
    }
}

/// Returns the nearest bit rate below this one that has segments.
fn nearest_below(controller: Controller, rate: u32) -> Option<u32>
    ensures { result ≡ last_below (has_setting controller) rate }
{
    let mut found = None;
    for lower in 0..rate {
        found = later(has_setting(controller, lower), lower, found);
    }
    found
}

/// Returns the nearest of these bit rates that has segments: from the first one up to this number of them.
fn nearest_from(controller: Controller, first: u32, count: u32) -> Option<u32>
    requires { first + count ≤ 4294967295 }
    ensures { result ≡ first_passing (has_setting controller) first count }
{
    let mut found = None;
    for more in 0..count {
        found = earlier(found, has_setting(controller, first + more), first + more);
    }
    found
}

/// Returns why a controller has no segments for a bit rate: the nearest bit rates for which it has some.
fn no_segments(controller: Controller, rate: u32) -> InitFault
    ensures { result ≡ no_segments controller rate }
{
    let above = nearest_from(controller, rate, (MOST_RATE + 1).saturating_sub(rate));
    InitFault::NoSegments(nearest_below(controller, rate), above)
}

/// Returns the draft for what is asked for of a controller with this setting, if the cable isn't too long.
fn draft_within(asked: Asked, clock: u32, setting: BitSetting) -> Result<Draft, InitFault>
    ensures { result ≡ draft_within asked clock setting }
{
    let longest = longest_for(asked.rate, setting.shape);
    if u64::from(asked.cable) <= longest {
        Ok(Draft {
            asked,
            clock,
            setting,
            cycle: cycle_for(asked.nodes, asked.rate),
        })
    } else {
        Err(InitFault::TooLong(longest))
    }
}

/// Returns the draft for what is asked for, or why there is none.
fn draft_with(asked: Asked) -> Result<Draft, InitFault>
    ensures { result ≡ draft_with asked }
{
    match controller_at(asked.kind) {
        Some(controller) => match setting_at(controller, asked.rate) {
            Some(setting) => draft_within(asked, controller.clock, setting),
            None => Err(no_segments(controller, asked.rate)),
        },
        None => Err(InitFault::Kind),
    }
}

/// Returns what a wish asks for, or its first part that no text could be read as.
fn wish_asked(wish: Wish) -> Result<Asked, InitFault>
    ensures { result ≡ wish_asked wish }
{
    match (wish.rate, wish.cable, wish.kind) {
        (None, _, _) => Err(InitFault::Bitrate),
        (Some(_), None, _) => Err(InitFault::Cable),
        (Some(_), Some(_), None) => Err(InitFault::Kind),
        (Some(rate), Some(cable), Some(kind)) => Ok(Asked {
            nodes: wish.nodes,
            rate,
            cable,
            kind,
        }),
    }
}

/// Returns the draft of a wish, or why there is none: the first part that no text could be read as, a kind that has no segments for the bit
/// rate, or a cable that is too long for it.
pub fn draft_of(wish: Wish) -> Result<Draft, InitFault>
    ensures { result ≡ draft_of wish }
{
    match wish_asked(wish) {
        Ok(asked) => draft_with(asked),
        Err(fault) => Err(fault),
    }
}
