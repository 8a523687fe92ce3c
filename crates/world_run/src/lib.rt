//! All parts of a mesh, which speak by letters over a carrier.
#![tactic(auto)]

mod excess;
mod fault;
mod handing;
pub mod laws;
mod posting;
mod round;
mod running;
mod starting;
mod uniting;
mod world;

pub use fault::RunFault;
pub use world::World;

#[cfg(test)]
mod tests;
