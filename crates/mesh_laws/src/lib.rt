//! Laws of points, covers, faces and sound meshes, on which changes of meshes rest.
#![tactic(auto)]

pub mod laws;
