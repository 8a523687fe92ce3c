//! The size that the edges of a mesh are to have, by place, and which edges are long and short.
#![tactic(auto)]

mod field;
mod looking;
mod slabs;

pub use field::{SizeBox, SizeField, SizedPlace};

#[cfg(test)]
mod tests;
