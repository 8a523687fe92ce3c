//! What all parts of a run have in common.
use size_marks::SizeField;

/// How many parts there are, the exponent of the grid that the mesh is on at first, how many passes
/// of collapses and of swaps a round has, and the sizes that edges are to have.
#[derive(Debug, Drop)]
pub struct Course {
    pub parts: u8,
    pub grid: u32,
    pub collapse: u32,
    pub swap: u32,
    pub field: SizeField,
}
