//! What a part keeps of a mesh that is spread over parts: its tetrahedra, those of others around them, marks, and the places that it shares.
#![tactic(auto)]

mod around;
mod batches;
mod bounds;
mod corners;
mod laws;
mod marks;
mod sieve;
mod store;

pub use laws::views_agree;
pub use store::Store;

#[cfg(test)]
mod tests;
