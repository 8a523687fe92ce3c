//! Laws of refinement for sound meshes.
#![tactic(auto)]

pub mod laws;
