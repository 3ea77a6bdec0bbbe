//! Which nodes miss a frame that its sender has sent, and which take it twice.
#![tactic(auto)]

mod delivery;
mod instances;
mod joining;
mod laws;
mod message;

pub use delivery::{Delivery, Presence, delivery_of, presence_of};
pub use joining::{Joining, joined_quantum};
pub use laws::once_each_is_whole;
pub use message::{any_sent, is_first_sent, message_ticks};
