//! Where a program's files come from and go to: a depot of named files, and a sink for printed bytes.
//!
//! Programs are written over the traits [`Depot`] and [`Sink`], whose contracts say what an answer means,
//! what it leaves, and which count it raises.
#![tactic(auto)]

mod disk_depot;
mod faults;
mod mem_depot;
mod mem_sink;
mod replacing;
mod std_sink;
mod streams;
#[cfg(test)]
mod tests;
mod traits;

pub use disk_depot::DiskDepot;
pub use faults::{FetchFault, SinkFault, StoreFault};
pub use mem_depot::{MemDepot, names_differ};
pub use mem_sink::MemSink;
pub use std_sink::StdSink;
pub use traits::{Depot, Sink};
