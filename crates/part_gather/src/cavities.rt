// The cavities of operations.
ghost use Rattle.std.specs.Prelude.{◌≡◌, ◌++◌, OnOk};
ghost use Rattle.std.specs.List.{flat_map};
ghost use Rattle.ma_cells.specs.Ascending.{ascending_of};
ghost use Rattle.ma_cells.specs.Tetrahedron.{tet_cmp};
ghost use Rattle.corner_tables.specs.Tables.{tets_table};
ghost use Rattle.part_gather.specs.Gathering.{cavity};

use cavity_rank::Operation;
use corner_tables::CornerTable;
use ma_cells::{Ascending, Tet};
use ma_geom::Memory;
use std::alloc::Global;

pub(crate) fn tet_set(tets: Vec<Tet>) -> Ascending<Tet>
    ensures { result ≡ ascending_of tet_cmp tets.items }
{
    Ascending::gather(tets)
}

/// Appends the cavities of these operations, one after the other.
pub(crate) fn push_cavities(
    alloc: Global,
    into: &mut Vec<Tet>,
    table: &CornerTable,
    ops: &[Operation],
    tets: &[Tet],
) -> Result<(), Memory>
    requires { table.now ≡ tets_table tets.now }
    ensures { OnOk result (into.new.items ≡ into.old.items ++ flat_map (cavity tets.now) ops.now) }
{
    let mut star = Vec::new(alloc);
    for op in ops {
        table.star(tets, op.at(), &mut star)?;
        into.extend_from_slice(star.as_slice())?;
    }
    Ok(())
}
