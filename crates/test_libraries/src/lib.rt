//! Tests of libraries by their public names: devices and files that fail, words that threads share, levels, the bit clock.
//!
//! It is nothing but tests. So none of these libraries is proved once more for its own.
#![tactic(auto)]

#[cfg(test)]
mod devices;
#[cfg(test)]
mod files;
#[cfg(test)]
mod hub;
#[cfg(test)]
mod levels;
#[cfg(test)]
mod records;
#[cfg(test)]
mod syncs;
