//! A mesh that is kept whole and adapted round by round.
#![tactic(auto)]

mod fault;
pub mod laws;
mod store;

pub use fault::OneFault;
pub use store::OneMesh;

#[cfg(test)]
mod tests;
