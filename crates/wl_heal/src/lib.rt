//! What a disturbance costs machines on one wire, and what brings them in step again (Bosch CAN 2.0 part B, sections 3.2, 7 and 8).
#![tactic(auto)]

pub mod laws;
