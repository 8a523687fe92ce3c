//! Which edges may be collapsed, and what a collapse leaves.
#![tactic(auto)]

mod curves;
mod facing;
mod filling;
mod judging;
mod places;
mod results;
mod rims;
mod stars;
mod surfaces;

pub use facing::{SidedFace, are_seen_from, find_facing};
pub use filling::{worst, worst_over};
pub use judging::{judge, judge_with, legal_beside, legal_with};
pub use results::result;
pub use rims::find_rims;

#[cfg(test)]
mod tests;
