//! Passes over a mesh: which of many operations are made, and the mesh that they leave.
#![tactic(auto)]

mod cavities;
mod choosing;
mod marks;
mod passing;

pub use choosing::winners;
pub use passing::{Passed, applied, pass};

#[cfg(test)]
mod tests;
