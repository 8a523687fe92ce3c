// The legal operations of a pass.
ghost use Rattle.std.specs.Prelude.{◌≡◌, IfOk};
ghost use Rattle.corner_tables.specs.Tables.{tets_table};
ghost use Rattle.pass_rules.specs.Moves.{legal_operations};

use crate::collapses::legal_collapses;
use crate::swaps::legal_swaps;
use cavity_rank::{Kind, Operation};
use corner_tables::CornerTable;
use ma_cells::{Ascending, Batch};
use ma_geom::Memory;
use size_marks::SizeField;
use std::alloc::Global;

/// The legal operations of a kind in a mesh, in order of rank. They are found in n log n steps, where
/// no vertex has more than a bounded number of tetrahedra.
pub fn legal(
    alloc: Global,
    kind: Kind,
    mesh: &Batch,
    table: &CornerTable,
    field: &SizeField,
) -> Result<Ascending<Operation>, Memory>
    requires { table.now ≡ tets_table mesh.now.tets }
    ensures { IfOk result (λ ops. ops ≡ legal_operations kind field.now mesh.now) }
{
    match kind {
        Kind::Collapse => legal_collapses(alloc, mesh, table, field),
        Kind::Swap => legal_swaps(alloc, mesh, table),
    }
}
