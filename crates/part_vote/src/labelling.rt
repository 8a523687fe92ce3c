// The labels of cavities, for many operations at once.
ghost use Rattle.std.specs.Prelude.{◌≡◌, map, IfOk};
ghost use Rattle.part_store.specs.Agreement.{all_in};
ghost use Rattle.part_store.specs.Stores.{view_in};
ghost use Rattle.part_vote.specs.Leading.{cavity_labels};

use crate::cavities::Cavities;
use cavity_rank::Operation;
use ma_cells::{Ascending, Label};
use ma_geom::Memory;
use part_store::Store;
use std::alloc::Global;

/// The labels of the cavity of each of these operations.
fn labels_of(
    alloc: Global,
    cavities: &Cavities,
    ops: &[Operation],
) -> Result<Vec<Ascending<Label>>, Memory>
    ensures { IfOk result (λ labels. labels.items ≡ map (cavity_labels cavities.now) ops.now) }
{
    let mut labels = Vec::new(alloc);
    for op in ops {
        labels.push(cavities.labels(alloc, op)?)?;
    }
    Ok(labels)
}

/// The labels of the tetrahedra in the cavity of each of these operations, by what a part sees. It
/// takes n log n steps, where no vertex has more than a bounded number of tetrahedra.
pub fn cavity_labels(
    alloc: Global,
    store: &Store,
    ops: &[Operation],
) -> Result<Vec<Ascending<Label>>, Memory>
    ensures { IfOk result (λ labels. labels.items ≡ map (cavity_labels (all_in (view_in store.now))) ops.now) }
{
    let view = store.view(alloc)?;
    let cavities = Cavities::of(alloc, &view)?;
    labels_of(alloc, &cavities, ops)
}
