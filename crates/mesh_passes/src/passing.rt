// The mesh that a pass leaves.
ghost use Rattle.std.specs.Prelude.{◌≡◌, IfOk, length};
ghost use Rattle.corner_tables.specs.Tables.{tets_table};
ghost use Rattle.pass_rules.specs.Passes.{applied, chosen, passed};

use crate::cavities::{left, push_fillings};
use crate::choosing::winners_by;
use crate::marks::changed;
use cavity_rank::{Kind, Operation};
use corner_tables::CornerTable;
use legal_moves::legal;
use ma_cells::Batch;
use ma_geom::Memory;
use size_marks::SizeField;
use std::alloc::Global;

/// What a pass leaves, and how many operations it made.
#[derive(Debug, Drop)]
pub struct Passed {
    pub mesh: Batch,
    pub count: u64,
}

/// The mesh that operations leave, each in the place of its cavity. The table is that of the mesh's
/// tetrahedra. It takes n log n steps, where no cavity has more than a bounded number of tetrahedra.
pub fn applied(
    alloc: Global,
    mesh: &Batch,
    table: &CornerTable,
    ops: &[Operation],
) -> Result<Batch, Memory>
    requires table { table.now ≡ tets_table mesh.now.tets }
    ensures { IfOk result (λ batch. batch ≡ applied ops.now mesh.now) }
{
    let mut tets = left(alloc, table, ops, mesh.tets.as_slice())?;
    push_fillings(alloc, &mut tets, table, ops, mesh.tets.as_slice())?;
    let marks = changed(alloc, ops, mesh.marks.as_slice())?;
    Batch::gather(tets, marks)
}

/// A pass over a mesh: of its legal collapses or swaps those that are first on each tetrahedron of
/// their cavity, all at once. It takes n log n steps, where no cavity has more than a bounded number
/// of tetrahedra.
pub fn pass(alloc: Global, kind: Kind, mesh: &Batch, field: &SizeField) -> Result<Passed, Memory>
    ensures mesh { IfOk result (λ made. made.mesh ≡ passed kind field.now mesh.now) }
    ensures count { IfOk result (λ made. made.count ≡ length (chosen kind field.now mesh.now)) }
{
    let tets = mesh.tets.as_slice();
    let table = CornerTable::of(alloc, tets)?;
    let ops = legal(alloc, kind, mesh, &table, field)?;
    let won = winners_by(alloc, &table, &ops, tets)?;
    let left = applied(alloc, mesh, &table, won.as_slice())?;
    Ok(Passed {
        mesh: left,
        count: won.len() as u64,
    })
}
