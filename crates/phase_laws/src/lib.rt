//! Laws of parts that go through the phases of a round: whatever the order in which letters come, all end where they would together.
#![tactic(auto)]

pub mod laws;
