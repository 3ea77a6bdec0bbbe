//! Whether a bus is sound, and with how much to spare: the condition, its evaluation, and the searches over it.
//!
//! Under the condition every power-up of a plan is free of errors, with any offsets and any deviation of its clocks within their tolerance.
//! It is three inequalities for each pair of nodes, in exact integers, which take drift and cable together. That they suffice is proved for one
//! sender at a time (`wl_buses::one_sender`), and for any senders with some room more (`wl_buses::clean_plans`); else it rests on searches.
#![tactic(auto)]

mod asked;
mod bus;
mod condition;
mod covered;
mod decide;
mod evaluated;
mod family;
mod field;
mod help;
mod kept;
mod lack;
mod laws;
mod measures;
mod oscillator;
mod room;
mod search;
mod spikes;
mod terms;
mod times;
mod verdict;

pub use condition::{Failure, Inequality, Senders, Sides};
pub use covered::{all_speak, finds_one_busy, is_covered, leaves};
pub use family::{Change, Family, Member, Setting, Source, only_listens};
pub use field::field_of;
pub use lack::{Lack, Shortage};
pub use laws::{a_field_is_its_number, condition_laws, room_law, search_laws};
pub use oscillator::Oscillator;
pub use search::Growth;
pub use spikes::Hiding;
pub use times::BusTimes;
pub use verdict::{
    Outside, Verdict, cause_outside, first_without_book, idle_at, is_ready_from, judge, judge_all,
    listens,
};
