// An element of a mesh.

use crate::raw::{RawMark, RawTet};

#[derive(Debug, Drop)]
pub enum Entry {
    Tet(RawTet),
    Mark(RawMark),
}
