//! What a pass of swaps keeps.
#![tactic(auto)]

pub mod laws;
