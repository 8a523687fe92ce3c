//! What a legal collapse keeps.
#![tactic(auto)]

pub mod laws;
