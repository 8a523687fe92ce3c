//! Laws of a pass over a mesh that is spread over parts: what parts deliver and have in the end is what the pass leaves.
#![tactic(auto)]

pub mod laws;
