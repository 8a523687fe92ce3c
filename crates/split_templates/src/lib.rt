//! What segments, triangles and tetrahedra become once they are bisected at their marked edges.
#![tactic(auto)]

mod edges;
mod pieces;
mod put;
mod split;

pub use edges::{EdgeMask, marked, marked_between, marked_seg, marked_tri};
pub use split::{children, split_seg, split_tri};

#[cfg(test)]
mod tests;
