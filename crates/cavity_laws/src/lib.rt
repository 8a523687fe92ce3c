//! Laws of cavities: tetrahedra that are replaced by the cones from one place, as a collapse and a swap replace them.
#![tactic(auto)]

pub mod laws;
