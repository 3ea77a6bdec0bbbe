//! What both proofs use: what is expected of the nodes of a line is what they do.

pub mod laws;
