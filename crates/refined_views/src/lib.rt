//! Laws of parts that refine their own of a mesh by themselves: together they stand as at the beginning of a round over the refined mesh.
#![tactic(auto)]

pub mod laws;
