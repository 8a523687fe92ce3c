//! Writes meshes, and what parts see of meshes, as text.
#![tactic(auto)]

mod elements;
mod holders;
pub mod laws;
mod lines;
mod members;
mod nodes;
mod part;
mod union;
mod words;

pub use elements::is_tagged;
pub use nodes::nodes_of;
pub use part::write_part;
pub use union::{write_union, write_union_with};

#[cfg(test)]
mod tests;
