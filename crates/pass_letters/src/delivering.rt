// What goes to the parts that ordered it.
ghost use Rattle.std.specs.Prelude.{◌≡◌, [], IfOk};
ghost use Rattle.part_gather.specs.Gathering.{deliveries};
ghost use Rattle.part_gather.specs.Ordered.{delivered_to};

use crate::listed::from_part;
use cavity_rank::Operation;
use ma_cells::{Ascending, Batch, Label};
use ma_geom::Memory;
use part_gather::deliveries;
use part_store::Store;
use std::alloc::Global;

/// A batch of nothing, which takes no memory.
fn nothing(alloc: Global) -> Batch
    ensures { result ≡ record { tets = []; marks = [] } }
{
    Batch {
        tets: Ascending::new(alloc),
        marks: Ascending::new(alloc),
    }
}

/// The part's own tetrahedra in the cavities of these operations, with the marks on their cells.
/// Where there is no operation, it neither reads the store nor takes memory.
pub(crate) fn delivered(
    alloc: Global,
    store: &Store,
    ordered: &[Operation],
) -> Result<Batch, Memory>
    ensures { IfOk result (λ batch. batch ≡ deliveries store.now ordered.now) }
{
    match ordered {
        [] => Ok(nothing(alloc)),
        _ => deliveries(alloc, store, ordered),
    }
}

/// What a part delivers to another by its orders: its tetrahedra in the cavities of what the other
/// ordered, with the marks on their cells, and nothing to itself. Where the other ordered nothing the
/// answer takes no memory; else it takes n log n steps, where no vertex has more than a bounded
/// number of tetrahedra.
pub fn delivered_to(
    alloc: Global,
    store: &Store,
    orders: &[(Label, Ascending<Operation>)],
    part: Label,
) -> Result<Batch, Memory>
    ensures { IfOk result (λ batch. batch ≡ delivered_to store.now orders.now part) }
{
    if part == store.part() {
        return Ok(nothing(alloc));
    }
    let ordered = from_part(alloc, orders, part)?;
    delivered(alloc, store, ordered.as_slice())
}
