// The corners of tetrahedra.
ghost use Rattle.std.specs.Prelude.{◌≡◌, IfOk};
ghost use Rattle.part_store.specs.Labelled.{corner_set};

use ma_cells::{Ascending, Tet};
use ma_geom::{Memory, Place};
use std::alloc::Global;

/// The corners of these tetrahedra, each once, in n log n steps.
pub(crate) fn corner_set(alloc: Global, tets: &[Tet]) -> Result<Ascending<Place>, Memory>
    ensures { IfOk result (λ places. places ≡ corner_set tets.now) }
{
    let mut places = Vec::new(alloc);
    for tet in tets {
        places.extend_from_slice(&tet.corners())?;
    }
    Ok(Ascending::gather(places))
}
