//! The laws on buses: whoever sends, whenever, no node ever finds an error and every queue goes through.
//!
//! All is by the rules of the book, for clocks of one rate each (Bosch CAN 2.0 part B; ISO 11898-1).
#![tactic(auto)]

pub mod both_proofs;
pub mod bounded_waits;
pub mod clean_lines;
pub mod clean_plans;
pub mod family_plans;
pub mod first_frame;
pub mod frame_end;
pub mod frame_times;
pub mod heard_frames;
pub mod next_frames;
pub mod one_frame;
pub mod one_listener;
pub mod one_sender;
pub mod passed_frames;
pub mod sent_frames;
pub mod takes_part;
pub mod third_bit;
