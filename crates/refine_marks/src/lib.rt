//! Laws of refinement for marks: they stay on cells, and keep the classification.
#![tactic(auto)]

pub mod laws;
