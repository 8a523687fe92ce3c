//! Laws of parts that share a mesh: whatever the order in which letters come, each ends a round with its view of the mesh.
#![tactic(auto)]

pub mod laws;
