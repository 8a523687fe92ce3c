//! The rules by which a part goes through the phases of a round.
#![tactic(auto)]

mod bodies;
mod course;

pub use bodies::{first_off, is_of_phase};
pub use course::Course;

#[cfg(test)]
mod tests;
