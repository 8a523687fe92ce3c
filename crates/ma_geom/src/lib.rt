//! Places with whole coordinates, and tests on them that are exact over the whole range.
#![tactic(auto)]

mod exact;
mod lengths;
mod lines;
mod memory;
mod midpoints;
mod place;
mod qualities;
mod signs;
mod turns;
pub mod vectors;

pub use lengths::{len2, squared_length};
pub use lines::{between, collinear, coplanar, normal};
pub use memory::Memory;
pub use midpoints::midpoint;
pub use place::{Place, vol6};
pub use qualities::quality;
pub use signs::{Sign, side};
pub use turns::same_turn;

#[cfg(test)]
mod tests;
