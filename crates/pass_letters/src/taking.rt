// What deliveries leave.
ghost use Rattle.std.specs.Prelude.{◌≡◌, IfOk, OnErr, OnOk};
ghost use Rattle.part_gather.specs.Ordered.{after_orders, batches_of_others, given_away};

use crate::delivering::delivered;
use crate::listed::{from_others, from_part};
use cavity_rank::Operation;
use ma_cells::{Ascending, Batch, Label, Tet};
use ma_geom::Memory;
use part_gather::apply;
use part_store::Store;
use std::alloc::Global;

/// The batches of all parts but one.
fn of_others(alloc: Global, batches: Vec<(Label, Batch)>, part: Label) -> Result<Vec<Batch>, Memory>
    ensures { IfOk result (λ got. got.items ≡ batches_of_others batches.items part) }
{
    let mut got = Vec::new(alloc);
    for (sender, batch) in batches.into_iter() {
        if sender != part {
            got.push(batch)?;
        }
    }
    Ok(got)
}

/// The part's own tetrahedra that others ordered.
fn given_away(
    alloc: Global,
    store: &Store,
    orders: &[(Label, Ascending<Operation>)],
) -> Result<Ascending<Tet>, Memory>
    ensures { IfOk result (λ given. given ≡ given_away store.now orders.now) }
{
    let ordered = from_others(alloc, orders, store.part())?;
    Ok(delivered(alloc, store, ordered.as_slice())?.tets)
}

/// Fills the cavities that a part ordered of itself, with what the others delivered, and takes away
/// what it delivered to others. It takes n log n steps, where no vertex has more than a bounded
/// number of tetrahedra.
pub fn take_deliveries(
    alloc: Global,
    store: &mut Store,
    orders: &[(Label, Ascending<Operation>)],
    batches: Vec<(Label, Batch)>,
) -> Result<(), Memory>
    ensures ok { OnOk result (store.new ≡ after_orders store.old orders.now batches.items) }
    ensures err { OnErr result (store.new ≡ store.old) }
{
    let part = store.part();
    let won = from_part(alloc, orders, part)?;
    let got = of_others(alloc, batches, part)?;
    let given = given_away(alloc, store, orders)?;
    apply(
        alloc,
        store,
        won.as_slice(),
        got.as_slice(),
        given.as_slice(),
    )
}
