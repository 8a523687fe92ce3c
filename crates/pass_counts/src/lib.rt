//! How many tetrahedra a pass leaves.
#![tactic(auto)]

pub mod laws;
