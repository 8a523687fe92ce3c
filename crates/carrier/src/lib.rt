//! Carriers, which take letters and hand them out, and schedules, which say in which order.
#![tactic(auto)]

mod blocks;
mod faults;
mod queue;
mod schedule;
mod test_carrier;
mod traits;

pub use faults::CarrierFault;
pub use queue::QueueCarrier;
pub use schedule::Schedule;
pub use test_carrier::{Change, TestCarrier};
pub use traits::Carrier;

#[cfg(test)]
mod tests;
