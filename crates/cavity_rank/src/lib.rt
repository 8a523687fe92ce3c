//! Operations on a mesh, their rank, and verdicts on them.
#![tactic(auto)]

mod operation;
mod verdict;

pub use operation::{Operation, compare};
pub use verdict::{Kind, Verdict, verdict_of};

#[cfg(test)]
mod tests;
