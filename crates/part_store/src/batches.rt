// What came from other parts.
ghost use Rattle.std.specs.Prelude.{◌≡◌, ◌++◌, map, IfOk, OnOk};
ghost use Rattle.part_store.specs.Labelled.{labelled, tet_of};
ghost use Rattle.part_store.specs.Stores.{marks_got, tets_got};

use ma_cells::{Batch, Label, Mark, Tet};
use ma_geom::Memory;
use std::alloc::Global;

/// Appends tetrahedra, each with the label of one part.
fn push_labelled(into: &mut Vec<(Tet, Label)>, label: Label, tets: &[Tet]) -> Result<(), Memory>
    ensures { OnOk result (into.new.items ≡ into.old.items ++ labelled label tets.now) }
{
    for tet in tets {
        into.push((*tet, label))?;
    }
    Ok(())
}

/// The tetrahedra of all batches, with their labels.
pub(crate) fn tets_got(
    alloc: Global,
    batches: &[(Label, Batch)],
) -> Result<Vec<(Tet, Label)>, Memory>
    ensures { IfOk result (λ got. got.items ≡ tets_got batches.now) }
{
    let mut got = Vec::new(alloc);
    for batch in batches {
        push_labelled(&mut got, batch.0, batch.1.tets.as_slice())?;
    }
    Ok(got)
}

/// The marks of all batches.
pub(crate) fn marks_got(alloc: Global, batches: &[(Label, Batch)]) -> Result<Vec<Mark>, Memory>
    ensures { IfOk result (λ got. got.items ≡ marks_got batches.now) }
{
    let mut got = Vec::new(alloc);
    for batch in batches {
        got.extend_from_slice(batch.1.marks.as_slice())?;
    }
    Ok(got)
}

/// Tetrahedra without their labels.
pub(crate) fn tets_of(alloc: Global, entries: &[(Tet, Label)]) -> Result<Vec<Tet>, Memory>
    ensures { IfOk result (λ tets. tets.items ≡ map tet_of entries.now) }
{
    let tets = entries.iter().map(|entry| entry.0).collect(alloc)?;
    Ok(tets)
}
