//! Laws of rounds with passes over parts: the rules lead where the labelled mesh says, and whatever the order of letters, each round ends with the parts' views of the adapted mesh.
#![tactic(auto)]

pub mod laws;
