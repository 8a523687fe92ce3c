//! Laws of a pass over a mesh that is spread over parts: what parts propose, vote for and win is what the pass chooses.
#![tactic(auto)]

pub mod laws;
