// Tetrahedra and marks together.
ghost use Rattle.std.specs.Prelude.{◌≡◌, IfOk};
ghost use Rattle.ma_cells.specs.Ascending.{ascending_of};
ghost use Rattle.ma_cells.specs.Cells.{mark_cmp};
ghost use Rattle.ma_cells.specs.Tetrahedron.{tet_cmp};

use crate::{Ascending, Mark, Tet};
use ma_geom::Memory;

/// A set of tetrahedra and a set of marks, as a mesh has them.
#[derive(Debug, Drop)]
pub struct Batch {
    pub tets: Ascending<Tet>,
    pub marks: Ascending<Mark>,
}

impl Batch {
    /// The sets of these tetrahedra and marks, in n log n steps.
    pub fn gather(tets: Vec<Tet>, marks: Vec<Mark>) -> Result<Batch, Memory>
        ensures tets { IfOk result (λ batch. batch.tets ≡ ascending_of tet_cmp tets.items) }
        ensures marks { IfOk result (λ batch. batch.marks ≡ ascending_of mark_cmp marks.items) }
    {
        Ok(Batch {
            tets: Ascending::gather(tets),
            marks: Ascending::gather(marks),
        })
    }
}
