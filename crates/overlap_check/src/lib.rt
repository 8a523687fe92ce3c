//! Which tetrahedra of a list overlap.
#![tactic(auto)]

mod boxes;
mod cubes;
pub mod laws;
mod overlaps;
mod pairs;

pub use overlaps::first_overlap;
pub use pairs::separated;

#[cfg(test)]
mod tests;
