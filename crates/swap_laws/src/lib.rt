//! What a legal swap keeps.
#![tactic(auto)]

pub mod laws;
