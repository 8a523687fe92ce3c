//! What the fillings of a pass's cavities share with the mesh and with each other.
#![tactic(auto)]

pub mod laws;
