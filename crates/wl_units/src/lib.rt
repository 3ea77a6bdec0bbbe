//! Quantities as texts write them: decimal numbers with a unit, exact as whole numbers of ticks, of units of length, of Hz and of bit/s.
#![tactic(auto)]

mod decimal;
mod laws;
mod quantity;
mod ratio;
mod scale;
mod words;

pub use decimal::{Decimal, Part};
pub use laws::lowest_terms_keep_the_value;
pub use quantity::{Measure, Quantity, quantity_of};
pub use ratio::{
    LARGEST_WHOLE, fraction_with, lowest, quantum_from, ticks_of_quantum, whole, whole_quanta,
};
pub use scale::{LONGEST_TICK, LONGEST_UNIT, MICROMETRES, Scale, tick_said, unit_said};
