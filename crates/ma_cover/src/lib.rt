//! The cover of points by tetrahedra, the laws that it keeps, and where a point lies among them.
#![tactic(auto)]

mod exact;
pub mod laws;
mod locations;
mod offsets;
mod spot;

pub use locations::{Found, locate};
pub use spot::Spot;

#[cfg(test)]
mod tests;
