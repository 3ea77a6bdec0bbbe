//! Letters between workers: records with the plan that they are true of, over channels, one for each worker.
#![tactic(auto)]

mod fault;
mod hand_over;
mod laws;
mod letter;
mod post;
mod senders;

pub use fault::MailFault;
pub use laws::taking_laws;
pub use letter::Letter;
pub use post::{Hold, Post, posts};
