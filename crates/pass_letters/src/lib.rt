//! What a part sends to each other part in a pass, and what is left where all has come.
#![tactic(auto)]

mod addressed;
mod delivering;
mod listed;
mod taking;
mod voting;

pub use addressed::{Addressed, ordered, proposed};
pub use delivering::delivered_to;
pub use taking::take_deliveries;
pub use voting::{Votes, voted};

#[cfg(test)]
mod tests;
