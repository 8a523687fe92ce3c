// Which of many operations are made.
ghost use Rattle.std.specs.Prelude.{◌≡◌, ◌<◌, ◌++◌, ◌∷◌, [], IfOk, OnOk, length, map, if◌then◌else◌};
ghost use Rattle.std.specs.List.{All};
ghost use Rattle.std.specs.List.Sorted.{IsStrictlySortedBy};
ghost use Rattle.cavity_rank.specs.Operations.{rank};
ghost use Rattle.pass_rules.specs.Choosing.{is_in, is_taken, winners, wins};
ghost use Rattle.corner_tables.specs.Tables.{tets_table};
ghost use Rattle.mesh_passes.specs.Taking.{are_free, taken_at};
ghost use Rattle.corner_tables.specs.Tables.{positions_from};

use cavity_rank::Operation;
use corner_tables::CornerTable;
use ma_cells::{Ascending, Tet};
use ma_geom::Memory;
use std::alloc::Global;

/// Whether nothing at these positions is taken.
fn are_free(taken: &[bool], at: &[usize]) -> bool
    requires { All (λ i. i < length taken.now) at.now }
    ensures { result ≡ are_free taken.now at.now }
{
    for i in at {
        if taken[*i] {
            return false;
        }
    }
    true
}

/// Takes what is at these positions.
fn take(taken: &mut [bool], at: &[usize])
    requires { All (λ i. i < length taken.old) at.now }
    ensures { taken.new ≡ taken_at at.now taken.old }
{
    for i in at {
        taken[*i] = true;
    }
}

/// Takes the cavity of an operation, whose positions it puts down. Whether all of it was free.
fn takes(
    table: &CornerTable,
    taken: &mut [bool],
    cavity: &mut Vec<usize>,
    op: &Operation,
    tets: &[Tet],
) -> Result<bool, Memory>
    requires table { table.now ≡ tets_table tets.now }
    requires flags { length taken.old ≡ length tets.now }
    ensures free { IfOk result (λ free. free ≡ are_free taken.old (positions_from 0 (is_in op.now) tets.now)) }
    ensures taken { OnOk result (taken.new ≡ taken_at (positions_from 0 (is_in op.now) tets.now) taken.old) }
{
    table.at(tets, op.at(), cavity)?;
    let free = are_free(taken, cavity.as_slice());
    take(taken, cavity.as_slice());
    Ok(free)
}

/// Appends an operation, if it is wanted.
fn push_won(won: &mut Vec<Operation>, op: &Operation, is_wanted: bool) -> Result<(), Memory>
    ensures { OnOk result (won.new.items ≡ won.old.items ++ (if is_wanted then op.now ∷ [] else [])) }
{
    if is_wanted {
        won.push(op.clone()?)?;
    }
    Ok(())
}

/// The operations that win. They take their cavities one after the other, also those that don't win.
fn winning(
    alloc: Global,
    table: &CornerTable,
    taken: &mut [bool],
    ops: &[Operation],
    tets: &[Tet],
) -> Result<Vec<Operation>, Memory>
    requires sorted { IsStrictlySortedBy rank ops.now }
    requires table { table.now ≡ tets_table tets.now }
    requires none { taken.old ≡ map (is_taken []) tets.now }
    ensures { IfOk result (λ won. won.items ≡ winners ops.now tets.now) }
{
    let mut won = Vec::new(alloc);
    let mut cavity = Vec::new(alloc);
    for op in ops {
        let free = takes(table, taken, &mut cavity, op, tets)?;
        push_won(&mut won, op, free)?;
    }
    Ok(won)
}

/// Takes the cavities of these operations, one after the other.
fn take_all(
    alloc: Global,
    table: &CornerTable,
    taken: &mut [bool],
    ops: &[Operation],
    tets: &[Tet],
) -> Result<(), Memory>
    requires table { table.now ≡ tets_table tets.now }
    requires none { taken.old ≡ map (is_taken []) tets.now }
    ensures { OnOk result (taken.new ≡ map (is_taken ops.now) tets.now) }
{
    let mut cavity = Vec::new(alloc);
    for op in ops {
        let _free = takes(table, taken, &mut cavity, op, tets)?;
    }
    Ok(())
}

/// Which of the tetrahedra are in the cavity of an operation.
#[tactic(auto, using(crate::proofs::Taken::none_taken))]
pub(crate) fn taken_by(
    alloc: Global,
    table: &CornerTable,
    ops: &[Operation],
    tets: &[Tet],
) -> Result<Vec<bool>, Memory>
    requires { table.now ≡ tets_table tets.now }
    ensures { IfOk result (λ taken. taken.items ≡ map (is_taken ops.now) tets.now) }
{
    let mut taken = vec![in alloc; false; tets.len()]?;
    take_all(alloc, table, &mut taken, ops, tets)?;
    Ok(taken)
}

/// Those of the operations that win, by the table of the tetrahedra.
#[tactic(auto, using(crate::proofs::Taken::none_taken))]
pub(crate) fn winners_by(
    alloc: Global,
    table: &CornerTable,
    ops: &Ascending<Operation>,
    tets: &[Tet],
) -> Result<Ascending<Operation>, Memory>
    requires { table.now ≡ tets_table tets.now }
    ensures { IfOk result (λ won. won ≡ winners ops.now tets.now) }
{
    let mut taken = vec![in alloc; false; tets.len()]?;
    let won = winning(alloc, table, &mut taken, ops.as_slice(), tets)?;
    Ok(Ascending::from_vec(won))
}

/// Those of the operations that are first in rank on each of the tetrahedra that are in their cavity.
/// It goes through the operations once, in order of rank, with a flag for each tetrahedron: in
/// n log n steps, where no cavity has more than a bounded number of tetrahedra.
pub fn winners(
    alloc: Global,
    ops: &Ascending<Operation>,
    tets: &[Tet],
) -> Result<Ascending<Operation>, Memory>
    ensures { IfOk result (λ won. won ≡ winners ops.now tets.now) }
{
    let table = CornerTable::of(alloc, tets)?;
    winners_by(alloc, &table, ops, tets)
}
