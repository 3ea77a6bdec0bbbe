//! The margin of a bus as text: whether it works, with how much to spare, and which change helps most.
//!
//! That is at all offsets, and with all clocks within their tolerance. The text also says how much longer the cable and how much wider the
//! tolerances may be.
#![tactic(auto)]

mod margin;
mod noise;
mod numbers;
mod paces;
mod reasons;
mod searches;
mod sentences;
mod units;

pub use margin::{
    Margin, Standing, Surety, all_send_text, bus_standing, margin_of, margin_text, oscillators,
    push_any_failure, push_any_reason, push_failure_line, push_reason, push_spare,
    push_standing_reasons,
};
pub use noise::push_spike_line;
pub use numbers::{Hundredths, Thousandths};
pub use paces::{clocks_keep_pace, first_stray, first_turning};
pub use reasons::{Asked, first_leaver};
pub use searches::{Headroom, push_headroom};
