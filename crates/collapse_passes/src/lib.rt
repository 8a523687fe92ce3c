//! What a pass of collapses keeps.
#![tactic(auto)]

pub mod laws;
