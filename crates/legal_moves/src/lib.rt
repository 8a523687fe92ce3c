//! The legal operations of a pass over a mesh.
#![tactic(auto)]

mod collapses;
mod operations;
mod spots;
mod surroundings;
mod swaps;

pub use operations::legal;

#[cfg(test)]
mod tests;
