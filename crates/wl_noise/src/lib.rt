//! Random disturbances by a rate and a seed: from which tick to which each lasts, and at which of some places it is.
#![tactic(auto)]

mod noise;

pub use noise::{Burst, LARGEST_TICK, Noise, SECOND, bursts, mean_gap};
