//! The gate at which workers are watched, held, refused and restarted.

use std::sync::atomic::{AtomicU64, Ordering};
use std::thread;
use wl_worker::Gate;

/// The most turns of all workers together while one of them is held: the others wait then.
const MOST_TURNS: u64 = 200;

/// Of the turns of a worker one in this many is chosen at random.
const ONE_IN: u64 = 16;

/// One of this many first turns of worker 0 is chosen too, so that no run is without a restart.
const FIRST_TURNS: u64 = 4;

/// How many restarts at random turns are asked at most. With more a long run might never end: after each a worker runs again from its start.
const MOST_RESTARTS: u64 = 32;

/// What a gate does.
#[derive(Clone, Copy)]
pub enum Rule {
    /// Lets each turn begin.
    Any,
    /// Holds worker `.0` before its turn `.1` for `.2` polls, and then refuses it.
    Stop(u64, u64, u64),
    /// Holds workers 0 and 1 in their turns of number `.0`, each until the other one is in its own. After `.1` polls it refuses the turn.
    Overlap(u64, u64),
    /// Restarts worker `.0` before its turns `.1` and `.2`, and refuses its turn `.3` if that isn't 0.
    Restart(u64, u64, u64, u64),
    /// Restarts random workers before random turns, by a seed.
    Random(u64),
}

impl Rule {
    /// Returns the rule of a run of this number: the same, with another seed.
    pub fn later(self, number: u64) -> Rule {
        match self {
            Rule::Random(seed) => Rule::Random(seed.wrapping_add(number)),
            other => other,
        }
    }
}

/// A gate with a rule. It counts the turns and the restarts that it was asked for.
#[derive(Drop)]
pub struct Watch {
    rule: Rule,
    turns: AtomicU64,
    restarts: AtomicU64,
    // Whether workers 0 and 1 are in the turns in which they are to meet: 1 if so.
    zero: AtomicU64,
    one: AtomicU64,
}

impl Watch {
    /// Returns a gate at which no worker had a turn.
    pub fn new(rule: Rule) -> Watch {
        Watch {
            rule,
            turns: AtomicU64::new(0),
            restarts: AtomicU64::new(0),
            zero: AtomicU64::new(0),
            one: AtomicU64::new(0),
        }
    }

    /// Returns for how many turns it was asked.
    pub fn turns(&self) -> u64 {
        self.turns.load(Ordering::SeqCst)
    }

    /// True if it saw what its rule is for: few turns while a worker was held, or the restarts that it asks.
    pub fn is_met(&self) -> bool {
        let restarts = self.restarts.load(Ordering::SeqCst);
        match self.rule {
            Rule::Stop(_, _, polls) => polls == 0 || self.turns() <= MOST_TURNS,
            Rule::Restart(..) => restarts == 2,
            Rule::Random(_) => restarts > 0,
            _ => true,
        }
    }

    /// Holds worker 0 or 1 until the other one is here, too, for at most this many polls. True if it came, and of any other worker.
    fn meet(&self, worker: u8, polls: u64) -> bool {
        let (own, other) = match worker {
            0 => (&self.zero, &self.one),
            1 => (&self.one, &self.zero),
            _ => return true,
        };
        own.store(1, Ordering::SeqCst);
        for _ in 0..polls {
            if other.load(Ordering::SeqCst) == 1 {
                return true;
            }
            thread::yield_now();
        }
        false
    }
}

impl Gate for Watch {
    fn turn(&self, worker: u8, turn: u64) -> bool {
        self.turns.fetch_add(1, Ordering::SeqCst);
        match self.rule {
            Rule::Stop(held, at, polls) if u64::from(worker) == held && turn == at => {
                hold(polls);
                false
            }
            Rule::Overlap(at, polls) if turn == at => self.meet(worker, polls),
            Rule::Restart(_, _, _, last) => last == 0 || turn != last,
            _ => true,
        }
    }

    fn restart(&self, worker: u8, turn: u64) -> bool {
        let wanted = match self.rule {
            Rule::Restart(one, first, second, _) => {
                u64::from(worker) == one && (turn == first || turn == second)
            }
            Rule::Random(seed) => {
                self.restarts.load(Ordering::SeqCst) < MOST_RESTARTS
                    && is_chosen(seed, worker, turn)
            }
            _ => false,
        };
        if wanted {
            self.restarts.fetch_add(1, Ordering::SeqCst);
        }
        wanted
    }
}

/// Lets this many polls go by.
fn hold(polls: u64) {
    for _ in 0..polls {
        thread::yield_now();
    }
}

/// True if a turn of a worker is chosen, by a seed.
fn is_chosen(seed: u64, worker: u8, turn: u64) -> bool {
    let number = mixed(seed);
    if worker == 0 && turn == number % FIRST_TURNS {
        return true;
    }
    mixed(mixed(number ^ u64::from(worker)) ^ turn) % ONE_IN == 0
}

/// Returns a number that looks random, of each number another one: the generator SplitMix64 (Steele, Lea and Flood 2014).
fn mixed(number: u64) -> u64 {
    let a = number.wrapping_add(0x9E37_79B9_7F4A_7C15);
    let b = (a ^ (a >> 30)).wrapping_mul(0xBF58_476D_1CE4_E5B9);
    let c = (b ^ (b >> 27)).wrapping_mul(0x94D0_49BB_1331_11EB);
    c ^ (c >> 31)
}
