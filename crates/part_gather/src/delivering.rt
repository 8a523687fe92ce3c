// What a part sends of the cavities that another part leads.
ghost use Rattle.std.specs.Prelude.{◌≡◌, filter, IfOk};
ghost use Rattle.pass_rules.specs.Choosing.{is_taken};
ghost use Rattle.part_gather.specs.Gathering.{deliveries};

use crate::cavities::{push_cavities, tet_set};
use cavity_rank::Operation;
use corner_tables::CornerTable;
use ma_cells::{Ascending, Batch, Tet};
use ma_geom::Memory;
use part_store::Store;
use std::alloc::Global;

/// Those of the tetrahedra that are in the cavity of an operation.
fn taken(alloc: Global, tets: &Ascending<Tet>, ops: &[Operation]) -> Result<Ascending<Tet>, Memory>
    ensures { IfOk result (λ taken. taken ≡ filter (is_taken ops.now) tets.now) }
{
    let table = CornerTable::of(alloc, tets.as_slice())?;
    let mut taken = Vec::new(alloc);
    push_cavities(alloc, &mut taken, &table, ops, tets.as_slice())?;
    Ok(tet_set(taken))
}

/// The part's own tetrahedra in the cavities of these operations, each once, with the marks on their
/// cells: what it sends to the part that leads them. The store keeps them until it gives them away.
/// It takes n log n steps, where no vertex has more than a bounded number of tetrahedra.
pub fn deliveries(alloc: Global, store: &Store, ordered: &[Operation]) -> Result<Batch, Memory>
    ensures { IfOk result (λ batch. batch ≡ deliveries store.now ordered.now) }
{
    let own = store.own_tets(alloc)?;
    let tets = taken(alloc, &own, ordered)?;
    let marks = store.marks_on(alloc, tets.as_slice())?;
    Ok(Batch { tets, marks })
}
