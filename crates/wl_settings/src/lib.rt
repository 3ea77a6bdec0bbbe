//! The settings of a CAN controller with which a bus works, the one with most to spare first.
//!
//! For a clock, a bit rate, a cable and a tolerance they are every prescaler and bit whose margins allow it.
#![tactic(auto)]

mod asked;
mod choices;
mod fault;
mod judged;
mod keys;
mod laws;
mod listing;
mod parts;
mod plan;
mod possible;
mod question;
mod rates;
mod read;
mod registers;
mod run;
mod said;
mod tables;
mod topics;
mod values;
mod words;

pub use asked::{Asked, Bounds, Controller, Setting};
pub use choices::chosen_settings;
pub use fault::SettingsFault;
pub use judged::{Reach, Refusal, WorkingSetting};
pub use laws::{
    all_settings_are_listed, kinds_are_obeyed, kinds_are_whole, settings_have_own_places,
};
pub use listing::{Listing, list};
pub use parts::Parts;
pub use plan::{plan_text, setting_plan};
pub use possible::possible_settings;
pub use question::wanted_by_words;
pub use rates::{NearRate, nearest_rate};
pub use read::{Wanted, read_wanted};
pub use registers::bounds_of_kind;
pub use run::{settings_of_words, settings_run};
pub use said::Shown;
pub use topics::{AskedWord, TOPICS, Topic};
