//! Which operations a part proposes in a pass, for which it votes, and which of its own it wins.
#![tactic(auto)]

mod balloting;
mod cavities;
mod labelling;
mod proposing;
mod winning;

pub use balloting::ballots;
pub use labelling::cavity_labels;
pub use proposing::proposals;
pub use winning::won;

#[cfg(test)]
mod tests;
