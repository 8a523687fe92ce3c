// For which operations a part votes.
ghost use Rattle.std.specs.Prelude.{◌≡◌, filter, IfOk, OnOk};
ghost use Rattle.std.specs.List.{list_any};
ghost use Rattle.corner_tables.specs.Tables.{tets_table};
ghost use Rattle.part_store.specs.Stores.{view_in};
ghost use Rattle.part_vote.specs.Voting.{ballots};
ghost use Rattle.pass_rules.specs.Choosing.{is_in};

use crate::cavities::push_if;
use cavity_rank::Operation;
use corner_tables::CornerTable;
use ma_cells::{Ascending, Tet};
use ma_geom::Memory;
use mesh_passes::winners;
use part_store::Store;
use std::alloc::Global;

/// Whether one of the tetrahedra is in the cavity of an operation.
fn has_some(
    alloc: Global,
    table: &CornerTable,
    tets: &[Tet],
    op: &Operation,
) -> Result<bool, Memory>
    requires { table.now ≡ tets_table tets.now }
    ensures { IfOk result (λ some. some ≡ list_any (is_in op.now) tets.now) }
{
    let mut cavity = Vec::new(alloc);
    table.star(tets, op.at(), &mut cavity)?;
    Ok(!cavity.as_slice().is_empty())
}

/// Those of the operations that have one of the tetrahedra in their cavity.
fn held_among(alloc: Global, tets: &[Tet], ops: &[Operation]) -> Result<Vec<Operation>, Memory>
    ensures { IfOk result (λ held. held.items ≡ filter (λ op. list_any (is_in op) tets.now) ops.now) }
{
    let table = CornerTable::of(alloc, tets)?;
    let mut held = Vec::new(alloc);
    for op in ops {
        let is_held = has_some(alloc, &table, tets, op)?;
        push_if(&mut held, op, is_held)?;
    }
    Ok(held)
}

/// Those of all operations that have a tetrahedron of the part in their cavity, and are first of all
/// on each such tetrahedron. It takes n log n steps, where no cavity has more than a bounded number
/// of tetrahedra.
pub fn ballots(
    alloc: Global,
    store: &Store,
    all: &Ascending<Operation>,
) -> Result<Ascending<Operation>, Memory>
    ensures { IfOk result (λ ops. ops ≡ ballots (view_in store.now) all.now) }
{
    let own = store.own_tets(alloc)?;
    let first = winners(alloc, all, own.as_slice())?;
    let held = held_among(alloc, own.as_slice(), first.as_slice())?;
    Ok(Ascending::from_vec(held))
}
