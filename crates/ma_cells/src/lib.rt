//! Tetrahedra, cells and marks, ascending lists of them, and meshes and views of these.
#![tactic(auto)]

mod ascending;
mod batch;
mod cell;
mod mesh;
mod tet;
mod view;

pub use ascending::Ascending;
pub use batch::Batch;
pub use cell::{Cell, Mark};
pub use mesh::Mesh;
pub use tet::Tet;
pub use view::{Label, View};

#[cfg(test)]
mod tests;
