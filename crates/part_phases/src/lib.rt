//! How a part goes through the phases of a round by the letters that it gets, whatever these are about.
#![tactic(auto)]

pub mod laws;
