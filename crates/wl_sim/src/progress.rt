//! Lines on standard error while a run takes long. No clause says any of it.

use std::alloc::{AllocError, Global};
use std::sync::atomic::{AtomicBool, Ordering};
use std::sync::{Arc, Wait};
use std::thread;
use std::thread::{JoinHandle, Parker, Threads};
use std::time::{Clock, Duration, Instant};
use wl_words::{Order, Task};

/// How long a run takes before the first line, and how long after a line the next comes, at the earliest, in seconds.
const PAUSE: u64 = 1;

/// What the two threads share: whether the run has ended, and the place at which one waits for that.
#[derive(Drop)]
struct Run {
    ended: AtomicBool,
    waiting: Parker,
}

/// A thread that says how long a run has taken.
#[derive(Drop)]
pub struct Ticker {
    run: Arc<Run, Global>,
    thread: JoinHandle<()>,
}

/// Says how long a run has taken, until it ends.
fn tell<H: Eprint + Wait + Clock>(rt: &H, run: &Run) {
    let Ok(begun) = Instant::now(rt) else { return };
    let pause = Duration::from_secs(PAUSE);
    let mut next = pause;
    for _ in rt.forever() {
        run.waiting.park_timeout(rt, pause);
        if run.ended.load(Ordering::SeqCst) {
            return;
        }
        let Ok(taken) = begun.elapsed(rt) else { return };
        if taken >= next {
            let seconds = taken.as_secs();
            let _ = eprintln!(rt; "progress: {seconds} s");
            next = taken.saturating_add(pause);
        }
    }
}

/// Begins to say how long a run takes.
fn start<H: Eprint + Threads + Wait + Clock + Clone + Drop + Send + 'static>(
    rt: &H,
    alloc: Global,
) -> Result<Ticker, AllocError> {
    let run = Run {
        ended: AtomicBool::new(false),
        waiting: Parker::new(),
    };
    let run = Arc::new(alloc, run)?;
    let (theirs, host) = (Arc::try_clone(&run)?, rt.clone()?);
    let thread = thread::spawn(rt, move || tell(&host, &theirs))?;
    Ok(Ticker { run, thread })
}

/// Begins to say how long a run takes, if the order asks for that, and a thread can be made. A sweep says itself how far it is.
pub fn begin<H: Eprint + Threads + Wait + Clock + Clone + Drop + Send + 'static>(
    rt: &H,
    alloc: Global,
    order: &Order,
) -> Option<Ticker> {
    match order.task {
        Task::Sweep(_) => None,
        _ if order.progress => start(rt, alloc).ok(),
        _ => None,
    }
}

/// Ends what was begun: no line comes after this.
pub fn end<H: Threads>(rt: &H, ticker: Option<Ticker>) {
    if let Some(Ticker { run, thread }) = ticker {
        run.ended.store(true, Ordering::SeqCst);
        run.waiting.unpark();
        thread.join(rt);
    }
}
