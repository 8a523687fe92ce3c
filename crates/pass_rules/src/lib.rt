//! What a pass over a mesh is: the operations that are legal, those of them that are chosen, and the mesh that they leave.
#![tactic(auto)]

pub mod laws;
