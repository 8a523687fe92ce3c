//! Which edges and faces may be swapped, and what a swap leaves.
#![tactic(auto)]

mod filling;
mod judging;
mod outer;
mod places;
mod rings;
mod seen;
mod sets;
mod walks;

pub use filling::result;
pub use judging::{judge_pair, judge_ring, judge_with};
pub use outer::{OuterFace, find_outer, may_be_taken, quality_from, sees};
pub use rings::{Ring, ring_around, ring_of};

#[cfg(test)]
mod tests;
