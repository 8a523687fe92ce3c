// What a part sees of a mesh that is cut into parts.
ghost use Rattle.std.specs.Prelude.{◌≡◌};
ghost use Rattle.ma_cells.specs.Ascending.{ascending_of};
ghost use Rattle.ma_cells.specs.Cells.{mark_cmp};
ghost use Rattle.ma_cells.specs.Tetrahedron.{tet_cmp};
ghost use Rattle.ma_cells.specs.Views.{ghost_cmp};

use crate::{Ascending, Mark, Tet};

/// The number of a part, from 0.
pub type Label = u8;

/// The tetrahedra of a part, the others around them with their labels, and the marks on cells of
/// both. Ghosts are ordered by tetrahedron, then label.
#[derive(Debug, Drop)]
pub struct View {
    pub part: Label,
    pub own: Ascending<Tet>,
    pub ghosts: Ascending<(Tet, Label)>,
    pub marks: Ascending<Mark>,
}

impl View {
    /// The view with these tetrahedra, ghosts and marks as sets, in n log n steps. It sorts in place
    /// and takes no memory.
    pub fn gather(part: Label, own: Vec<Tet>, ghosts: Vec<(Tet, Label)>, marks: Vec<Mark>) -> View
        ensures part { result.part ≡ part }
        ensures own { result.own ≡ ascending_of tet_cmp own.items }
        ensures ghosts { result.ghosts ≡ ascending_of ghost_cmp ghosts.items }
        ensures marks { result.marks ≡ ascending_of mark_cmp marks.items }
    {
        View {
            part,
            own: Ascending::gather(own),
            ghosts: Ascending::gather(ghosts),
            marks: Ascending::gather(marks),
        }
    }
}
