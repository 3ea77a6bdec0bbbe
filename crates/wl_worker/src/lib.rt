//! Workers: threads that run the groups of a plan, each as far as it knows the others, and hand records to one another.
#![tactic(auto)]

mod bell;
mod by_links;
mod fetch;
mod giving;
mod hub_link;
mod laws;
mod link;
mod mail_link;
mod nodes_of_worker;
mod plan_name;
mod threads;
mod turns;

pub use bell::{Bell, MOST_WORKERS};
pub use by_links::{LinkKind, simulate, simulate_by};
pub use giving::Given;
pub use hub_link::{HubLink, hub_links};
pub use laws::{blocked_workers_have_ended, nothing_is_taken};
pub use link::{Fault, Gate, Link, LinkFault};
pub use mail_link::{MailLink, mail_links};
pub use nodes_of_worker::share_of;
pub use plan_name::{PlanName, shape_of_plan};
pub use threads::simulate_over;
pub use turns::work;
