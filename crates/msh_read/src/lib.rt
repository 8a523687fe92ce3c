//! Reads meshes from the ASCII form of Gmsh's MSH 2.2, and finds the first fault of any other file.
//!
//! Blank lines are skipped and counted, and words are divided by spaces and tabs. A section begins with
//! a line `$NAME` and ends with `$EndNAME`, and no NAME begins with `End`. Four sections are read, each
//! of which stands at most once, and others are skipped:
//!
//! - `$MeshFormat`, before the three others: the line `2.2 0 8`.
//! - `$PhysicalNames`, which may be missing: a count, and as many lines `DIMENSION NUMBER "TEXT"`. The
//!   dimension is at most 3, and the text has no `"`.
//! - `$Nodes`: a count, and as many lines `NUMBER X Y Z`. The numbers differ and are from 1 to
//!   2^31 - 1. The coordinates are whole, as `12` or `12.000`, and at most 2^30 in absolute value.
//! - `$Elements`, behind `$Nodes`: a count, and as many lines `NUMBER TYPE TAGS TAG.. NODE..`. The type
//!   is 15, 1, 2 or 4, for a point, a line, a triangle or a tetrahedron, TAGS is the number of tags, and
//!   the nodes differ. The first tag is `phys` and the second `elem`; one that is missing is 0, and more
//!   are ignored. Numbers of elements may repeat.
//!
//! There has to be a node and an element. Tags and numbers of groups fit 32 bits with their sign.
#![tactic(auto)]

mod elements;
mod entry;
mod fault;
mod front;
mod lines;
mod name_lines;
mod node_lines;
mod raw;
mod read;
mod stand;
mod words;

pub use fault::{MshFault, MshKind};
pub use raw::{Name, RawMark, RawMesh, RawTet};
pub use read::read_msh;

#[cfg(test)]
mod tests;
