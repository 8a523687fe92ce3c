//! A part of a mesh that goes through the phases of a round by the letters that it gets.
#![tactic(auto)]

mod answers;
mod ends;
mod inbox;
mod part;
mod passes;

pub use answers::{PartFault, Step};
pub use part::Part;

#[cfg(test)]
mod tests;
