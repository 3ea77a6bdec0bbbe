//! Three callers of Wireline's libraries: a plan simulated from code, two lists of records merged, and a horizon asked for.
//!
//! Each is proved against the contracts of what it calls, so it shows which conditions a caller owes and how it keeps them.
#![tactic(auto)]

use anyhow::Result;
use std::alloc::Global;

mod horizons;
mod merging;
mod places;
mod simulating;

fn main(rt: HostRuntime) -> Result<()> {
    let told = told(rt.alloc())?;
    print!(rt; "{}", told.as_str())?;
    Ok(())
}

/// Returns what the callers have to tell.
fn told(alloc: Global) -> Result<String> {
    let mut out = String::new(alloc);
    simulating::tell(alloc, &mut out)?;
    merging::tell(alloc, &mut out)?;
    horizons::tell(alloc, &mut out)?;
    places::tell(alloc, 120, &[(0, 100), (0, 101), (0, 150)], &mut out)?;
    places::tell(alloc, 200, &[(1, 150), (1, 151)], &mut out)?;
    Ok(out)
}
