//! Refinement of a mesh: its tetrahedra and marks in pieces at their own long edges.
#![tactic(auto)]

pub mod laws;
mod pieces;
mod recent;

pub use pieces::refined;

#[cfg(test)]
mod tests;
