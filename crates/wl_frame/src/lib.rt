//! Base and extended frames, bit stuffing and the CRC sequence (Bosch CAN 2.0 part B, sections 3.2.1 and 6).
#![tactic(auto)]

pub mod checksum;
pub mod field;
pub mod frame;
pub mod laws;
pub mod limits;
mod numbers;
pub mod places;
pub mod stuffing;

pub use checksum::crc15;
pub use frame::{Frame, FrameFault};
