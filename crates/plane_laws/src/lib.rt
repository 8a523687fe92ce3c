//! Laws of segments on a line and of triangles in a plane, on which the classification after a collapse rests.
#![tactic(auto)]

pub mod laws;
