//! Laws of segments and triangles of which a vertex is moved: each point stays on them.
#![tactic(auto)]

pub mod laws;
