//! Laws of a labelled mesh that is adapted round by round: each stage is shared by the parts, and without its labels it is the mesh that is adapted in one piece.
#![tactic(auto)]

pub mod laws;
