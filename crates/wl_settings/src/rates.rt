//! The nearest bit rate that a controller can have.
ghost use Rattle.std.specs.Prelude.{◌≡◌, Some, IfOk};
ghost use Rattle.wl_settings.specs.Rates.{near_rate, nearer_of, nearest_among, nearest_rate, rate_error, wider_rates};

use crate::asked::{Asked, Bounds, Controller, Setting};
use crate::possible::possible_settings;
use std::alloc::{AllocError, Global};
use wl_level::Listed;
use wl_setup::Text;

/// By how much a bit rate may be off to be called near, in parts per million.
const FARTHEST: u32 = 100_000;

/// Millionths in one.
const MILLION: u128 = 1_000_000;

/// A setting whose bit rate is near the one asked for.
#[derive(Clone, Copy, Debug, PartialEq, Eq)]
pub struct NearRate {
    /// The setting, with a jump width of one quantum.
    pub setting: Setting,
    /// By how many parts per million its rate is off, rounded up.
    pub error: u128,
}

/// Returns by how many parts per million the bit rate of a setting deviates from the one asked for, rounded up.
pub(crate) fn rate_error(asked: &Asked, controller: &Controller, setting: Setting) -> u128
    ensures { result ≡ rate_error asked.now controller.now setting }
{
    let divisor = setting.divisor(asked);
    ((controller.clock as u128).abs_diff(divisor) * MILLION).div_ceil(divisor.max(1))
}

/// Returns a setting and by how much its bit rate is off.
fn near_rate(asked: &Asked, controller: &Controller, setting: Setting) -> NearRate
    ensures { result ≡ near_rate asked.now controller.now setting }
{
    NearRate {
        setting,
        error: rate_error(asked, controller, setting),
    }
}

/// Returns the one that is off by less, the first of two alike.
fn nearer_of(one: NearRate, other: NearRate) -> NearRate
    ensures { result ≡ nearer_of one (Some other) }
{
    if other.error < one.error { other } else { one }
}

/// Returns the setting whose bit rate is off by least, the first of those alike.
fn nearest_among(asked: &Asked, controller: &Controller, settings: &[Setting]) -> Option<NearRate>
    ensures { result ≡ nearest_among asked.now controller.now settings.now }
{
    let mut nearest = None;
    for setting in settings {
        let next = near_rate(asked, controller, *setting);
        nearest = match nearest {
            None => Some(next),
            Some(so_far) => Some(nearer_of(so_far, next)),
        };
    }
    nearest
}

/// Returns the settings of a jump width of one quantum whose bit rate is at most a tenth off.
fn wider_rates(
    alloc: Global,
    asked: &Asked,
    controller: &Controller,
) -> Result<Listed<Setting>, AllocError>
    ensures { IfOk result (λ all. all ≡ wider_rates asked.now controller.now) }
{
    let wide = Asked {
        rate_error: FARTHEST,
        ..*asked
    };
    let narrow = Controller {
        name: Text::new(alloc, controller.name.as_str())?,
        clock: controller.clock,
        bounds: Bounds {
            sjw: controller.bounds.sjw.min(1),
            ..controller.bounds
        },
    };
    possible_settings(alloc, &wide, &narrow)
}

/// Returns the setting whose bit rate is nearest to the one asked for, if one is at most a tenth off. Refused only when out of memory.
pub fn nearest_rate(
    alloc: Global,
    asked: &Asked,
    controller: &Controller,
) -> Result<Option<NearRate>, AllocError>
    ensures { IfOk result (λ nearest. nearest ≡ nearest_rate asked.now controller.now) }
{
    let all = wider_rates(alloc, asked, controller)?;
    Ok(nearest_among(asked, controller, all.as_slice()))
}
