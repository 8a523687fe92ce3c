// How a part fills the cavities that it leads.
ghost use Rattle.std.specs.Prelude.{◌≡◌, IfOk, OnErr, OnOk};
ghost use Rattle.part_gather.specs.Gathering.{applied_to, marks_with, tets_with};

use crate::cavities::{push_cavities, tet_set};
use crate::filling::filled;
use crate::marks::mark_set;
use cavity_rank::Operation;
use corner_tables::CornerTable;
use ma_cells::{Ascending, Batch, Mark, Tet};
use ma_geom::Memory;
use part_store::Store;
use std::alloc::Global;

/// The part's own tetrahedra and those that came.
fn tets_with(alloc: Global, store: &Store, got: &[Batch]) -> Result<Ascending<Tet>, Memory>
    ensures { IfOk result (λ tets. tets ≡ tets_with store.now got.now) }
{
    let mut tets = store.own_tets(alloc)?.into_vec();
    for batch in got {
        tets.extend_from_slice(batch.tets.as_slice())?;
    }
    Ok(tet_set(tets))
}

/// The marks on cells of the part's own tetrahedra and those that came.
fn marks_with(alloc: Global, store: &Store, got: &[Batch]) -> Result<Ascending<Mark>, Memory>
    ensures { IfOk result (λ marks. marks ≡ marks_with store.now got.now) }
{
    let mut marks = store.own_marks(alloc)?.into_vec();
    for batch in got {
        marks.extend_from_slice(batch.marks.as_slice())?;
    }
    Ok(mark_set(marks))
}

/// Fills the cavities of the operations that the part leads, all at once, and takes away the
/// tetrahedra that it gives to others.
///
/// A cavity is looked for among the part's own tetrahedra and those that came, so that it is whole
/// where each other part delivered its share. Of what came only that in cavities has a place in the
/// store, by what fills them. Ghosts are neither looked at nor kept. It takes n log n steps, where no
/// vertex has more than a bounded number of tetrahedra.
pub fn apply(
    alloc: Global,
    store: &mut Store,
    won: &[Operation],
    got: &[Batch],
    given: &[Tet],
) -> Result<(), Memory>
    ensures ok { OnOk result (store.new ≡ applied_to store.old won.now got.now given.now) }
    ensures err { OnErr result (store.new ≡ store.old) }
{
    let tets = tets_with(alloc, store, got)?;
    let marks = marks_with(alloc, store, got)?;
    let table = CornerTable::of(alloc, tets.as_slice())?;
    let mut ended = Vec::from_slice(alloc, given)?;
    push_cavities(alloc, &mut ended, &table, won, tets.as_slice())?;
    let added = filled(alloc, &table, won, &tets, &marks)?;
    store.replace(alloc, ended.as_slice(), &added)
}
