//! The bell by which workers wait for one another.
use crate::giving::Given;
use std::alloc::{AllocError, Global};
use std::sync::{Condvar, Mutex, Wait};

/// The most workers of a run.
pub const MOST_WORKERS: usize = 8;

/// What workers have rung so far.
#[derive(Drop)]
struct Rung {
    // How often each worker gave something; at 2^64 - 1 a count stays there.
    gives: Vec<u64>,
    // The first worker that stopped.
    stopped: Option<u8>,
}

impl Rung {
    // Returns how often the workers other than this one gave something, together; 2^64 - 1 means more.
    fn gives_of_others(&self, worker: u8) -> u64 {
        let mut given = 0u64;
        for other in 0..self.gives.len() {
            if other != usize::from(worker) {
                given = given.saturating_add(self.gives[other]);
            }
        }
        given
    }
}

/// What workers wait at: how often each of them gave something, and which one stopped first. No record passes through it, and no promise
/// rests on it.
#[derive(Drop)]
pub struct Bell {
    rung: Mutex<Rung>,
    rang: Condvar,
}

impl Bell {
    /// Returns a bell for this many workers, at which none gave anything or stopped. Refused only when out of memory.
    pub fn new(alloc: Global, workers: u8) -> Result<Bell, AllocError> {
        let gives = vec![in alloc; 0u64; usize::from(workers)]?;
        Ok(Bell {
            rung: Mutex::new(Rung {
                gives,
                stopped: None,
            }),
            rang: Condvar::new(),
        })
    }

    /// Notes that a worker gave what `given` means, and wakes all that wait. A number that no worker has counts nothing.
    pub fn give<R: Wait>(&self, rt: &R, worker: u8, given: Given) {
        let _ = given;
        let mut rung = self.rung.lock(rt);
        if let Some(count) = rung.gives.get_mut(usize::from(worker)) {
            *count = count.saturating_add(1);
        }
        self.rang.notify_all();
    }

    /// Notes that a worker stopped, and wakes all that wait. The first one stays.
    pub fn stop<R: Wait>(&self, rt: &R, worker: u8) {
        let mut rung = self.rung.lock(rt);
        if rung.stopped.is_none() {
            rung.stopped = Some(worker);
        }
        self.rang.notify_all();
    }

    /// Returns how often the workers other than this one gave something, together; 2^64 - 1 means more.
    pub fn gives_of_others<R: Wait>(&self, rt: &R, worker: u8) -> u64 {
        self.rung.lock(rt).gives_of_others(worker)
    }

    /// Waits until the workers other than this one have given more often than `heard`, or some worker stopped; if nothing was heard yet it
    /// doesn't wait. Returns the first one that stopped, if any.
    pub fn wait_past<R: Wait>(&self, rt: &R, worker: u8, heard: Option<u64>) -> Option<u8> {
        let rung = self.rang.wait_while(rt, self.rung.lock(rt), |rung| {
            rung.stopped.is_none() && heard == Some(rung.gives_of_others(worker))
        });
        rung.stopped
    }
}
