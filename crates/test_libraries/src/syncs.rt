//! The bit clock: the way to the sample, and bits at once.

use std::test::Fail;
use wl_level::Level;
use wl_segments::Segments;
use wl_sync::{BitClock, the_sample_comes_near};

/// Checks the way to the sample of a bit of 1 + 3 + 3 + 3 quanta, on a line that goes dominant at quantum 5. That moves the sample from
/// place 7 to 9 and the end to 12.
#[test]
fn ways_to_the_sample(rt: HostRuntime) -> Result<(), Fail> {
    let mut clock = BitClock::new(Segments::new(3, 3, 3, 2)?);
    assert_eq!(rt; clock.before_sample(), None);
    const WAYS: [Option<u16>; 13] = [
        Some(7),
        Some(6),
        Some(5),
        Some(4),
        Some(3),
        Some(4),
        Some(3),
        Some(2),
        Some(1),
        None,
        None,
        None,
        Some(7),
    ];
    for k in 0..13 {
        let level = if k < 5 {
            Level::Recessive
        } else {
            Level::Dominant
        };
        let _ = clock.step(level, false, false);
        assert_eq!(rt; clock.before_sample(), WAYS[k], "after quantum {k}");
    }
    assert_eq!(rt; clock.free_quanta(Level::Dominant, false), 6);
    assert_eq!(rt; clock.free_quanta(Level::Recessive, true), 6);
    clock.skip(Level::Dominant, 6);
    assert_eq!(rt; clock.before_sample(), Some(1));
    let _ = clock.step(Level::Recessive, false, false);
    assert_eq!(rt; clock.free_quanta(Level::Dominant, true), 0);
    assert_eq!(rt; clock.free_quanta(Level::Recessive, true), 9);
    clock.skip(Level::Recessive, 9);
    assert_eq!(rt; clock.before_sample(), Some(1));
    assert_eq!(rt; clock.resting_bit(), None);
    let _ = clock.step(Level::Recessive, false, false);
    assert_eq!(rt; clock.resting_bit(), Some(10));
    assert_eq!(rt; clock.until_sample(Level::Dominant), None);
    assert_eq!(rt; clock.until_sample(Level::Recessive), Some(9));
    if clock.until_sample(Level::Recessive).is_some() {
        clock.sample(Level::Recessive);
    }
    assert_eq!(rt; clock.resting_bit(), Some(10));
    the_sample_comes_near();
    Ok(())
}

/// Checks that bits at once are what single quanta make of them, from each quantum on: also in a bit that an edge made longer, and after
/// its sample.
#[test]
fn bits_at_once(rt: HostRuntime) -> Result<(), Fail> {
    for lead in 1..24_usize {
        for more in 0..3_u8 {
            let mut clock = BitClock::new(Segments::new(3, 3, 3, 2)?);
            let mut level = Level::Recessive;
            for k in 0..lead {
                if k == 5 {
                    level = Level::Dominant;
                }
                let _ = clock.step(level, false, false);
            }
            let way = clock.until_sample(level);
            assert!(rt; way.is_some(), "{lead} quanta");
            if let Some(before) = way {
                let mut steps = clock;
                for _ in 0..before as usize + 1 + more as usize * 10 {
                    let _ = steps.step(level, false, false);
                }
                clock.sample_bits(level, more);
                assert_eq!(rt; clock, steps, "{lead} quanta, {more} bits more");
                assert_eq!(rt; clock.free_quanta(level, true), 9);
            }
        }
    }
    Ok(())
}
