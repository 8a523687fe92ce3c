//! Tables of the corners of tetrahedra and of marked cells, ordered by place, by which what is around a place is found without a search of the whole mesh.
#![tactic(auto)]

mod table;

pub use table::{Corner, CornerTable};

#[cfg(test)]
mod tests;
