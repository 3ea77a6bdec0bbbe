//! How long a message waits: no frame waits longer than the bound of its message, if the bounds pass one inequality each.
//!
//! All is by the rules of the book, for clocks of one rate each (Tindell and Burns 1994; Davis, Burns, Bril, Lukkien 2007).

pub mod laws;
pub mod lines;
pub mod tests;
