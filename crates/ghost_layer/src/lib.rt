//! How parts come to see the tetrahedra of others around their own: each shows to another those with a corner that both have.
#![tactic(auto)]

mod rebuilding;
mod showing;
mod touching;

pub use rebuilding::rebuild;
pub use showing::{ghosts_among, ghosts_for};

#[cfg(test)]
mod tests;
