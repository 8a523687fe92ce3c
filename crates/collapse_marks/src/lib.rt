//! Laws of the marks of a legal collapse: they classify each point as before.
#![tactic(auto)]

pub mod laws;
