//! How parts hear which places they share and which marks lie on their cells: each place has a home, the part to which all that have it post it, and which replies to them.
#![tactic(auto)]

mod cells;
mod homes;
mod posts;
mod replies;

pub use homes::home;
pub use posts::{everything, for_home, post};
pub use replies::Directory;

#[cfg(test)]
mod tests;
