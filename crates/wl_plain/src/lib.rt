//! The plain form of a plan's document of version 4: each text with a unit is the number that it says, and each node has all its keys.
//!
//! A node takes the keys that it lacks from its controller. `num` and `den` are in the place of a clock's frequency, `every` and `ready` in
//! that of `cycle` and `at`, disturbances in that of noise.
#![tactic(auto)]

mod asking;
mod clock;
mod controller;
mod document;
mod frame;
mod measure;
mod node;
mod noise;
mod tables;

pub use asking::asks_tick;
pub use clock::{ClockKey, ClockKeys, Quantum};
pub use document::plain_document;
pub use frame::Beat;
pub use measure::{Row, Units};
pub use noise::LARGEST_PLACE;
