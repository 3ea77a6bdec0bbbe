//! What a silence on a bus says of every plan that is the same up to it, whatever comes afterwards.
#![tactic(auto)]

pub mod laws;
