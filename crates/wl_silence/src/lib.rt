//! A bus is clean again after a silence: nodes that were disturbed go on as nodes that power up within it.
#![tactic(auto)]

pub mod laws;
