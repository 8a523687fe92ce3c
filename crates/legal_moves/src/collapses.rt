// The legal collapses of a mesh.
ghost use Rattle.std.specs.Prelude.{◌≡◌, ◌++◌, ◌∷◌, [], IfOk, OnOk};
ghost use Rattle.std.specs.List.{flat_map, list_any};
ghost use Rattle.size_marks.specs.Field.{is_short};
ghost use Rattle.cavity_rank.specs.declared.verdict.Kind.TheVariants.{Collapse};
ghost use Rattle.cavity_collapse.specs.Facing.{AreFacing, others_of};
ghost use Rattle.cavity_collapse.specs.Rims.{rims_of};
ghost use Rattle.corner_tables.specs.Tables.{marks_table, tets_table};
ghost use Rattle.legal_moves.specs.Around.{legal_around, vertices_of};
ghost use Rattle.pass_rules.specs.Moves.{legal_operations, operations_from, quality_at};

use crate::surroundings::{Surroundings, find_others, push_operation};
use cavity_collapse::{SidedFace, find_facing, find_rims, legal_beside};
use cavity_rank::Operation;
use corner_tables::CornerTable;
use ma_cells::{Ascending, Batch, Mark, Tet};
use ma_geom::{Memory, Place};
use size_marks::SizeField;
use std::alloc::Global;

/// The corners of these tetrahedra.
fn vertices(alloc: Global, tets: &[Tet]) -> Result<Ascending<Place>, Memory>
    ensures { IfOk result (λ places. places ≡ vertices_of tets.now) }
{
    let mut places = Vec::with_capacity(alloc, 4 * tets.len())?;
    for tet in tets {
        places.extend_from_slice(&tet.corners())?;
    }
    Ok(Ascending::gather(places))
}

/// Appends the legal collapses of `a`, by the other corners around it, the faces across from it, and
/// the rims of marked surfaces at it.
fn push_legal(
    ops: &mut Vec<Operation>,
    star: &[Tet],
    others: &[Place],
    faces: &[SidedFace],
    marks: &[Mark],
    rims: &[Place],
    a: Place,
    field: &SizeField,
) -> Result<(), Memory>
    requires others { others.now ≡ others_of (a ∷ []) star.now }
    requires faces { AreFacing star.now a faces.now }
    requires rims { rims.now ≡ rims_of marks.now a }
    ensures { OnOk result (ops.new.items ≡ ops.old.items ++ flat_map (λ v. operations_from (a ∷ []) v (quality_at field.now star.now marks.now (a ∷ []) v)) others.now) }
{
    for v in others {
        let quality = legal_beside(star, others, faces, marks, rims, a, *v, field);
        push_operation(ops, &[a], *v, quality)?;
    }
    Ok(())
}

/// Whether a short edge leads from `a` to one of these places.
fn some_is_short(field: &SizeField, a: Place, ends: &[Place]) -> bool
    ensures { result ≡ list_any (λ v. is_short field.now a v) ends.now }
{
    ends.iter().any(|v| field.is_short(a, *v))
}

/// Appends the legal collapses of `a`. Most vertices have no short edge, and so none.
fn push_around(
    ops: &mut Vec<Operation>,
    around: &mut Surroundings,
    mesh: &Batch,
    by_tets: &CornerTable,
    by_marks: &CornerTable,
    field: &SizeField,
    a: Place,
) -> Result<(), Memory>
    requires tets { by_tets.now ≡ tets_table mesh.now.tets }
    requires marks { by_marks.now ≡ marks_table mesh.now.marks }
    ensures { OnOk result (ops.new.items ≡ ops.old.items ++ legal_around field.now mesh.now (a ∷ [])) }
{
    by_tets.star(mesh.tets.as_slice(), &[a], &mut around.star)?;
    find_others(&mut around.others, around.star.as_slice(), &[a])?;
    if !some_is_short(field, a, around.others.as_slice()) {
        return Ok(());
    }
    by_marks.marks_at(mesh.marks.as_slice(), &[a], &mut around.marks)?;
    find_rims(&mut around.rims, around.marks.as_slice(), a)?;
    find_facing(&mut around.facing, around.star.as_slice(), a)?;
    push_legal(
        ops,
        around.star.as_slice(),
        around.others.as_slice(),
        around.facing.as_slice(),
        around.marks.as_slice(),
        around.rims.as_slice(),
        a,
        field,
    )
}

/// The legal collapses of a mesh, in order of rank.
pub(crate) fn legal_collapses(
    alloc: Global,
    mesh: &Batch,
    table: &CornerTable,
    field: &SizeField,
) -> Result<Ascending<Operation>, Memory>
    requires { table.now ≡ tets_table mesh.now.tets }
    ensures { IfOk result (λ ops. ops ≡ legal_operations Collapse field.now mesh.now) }
{
    let by_marks = CornerTable::of_marks(alloc, mesh.marks.as_slice())?;
    let vertices = vertices(alloc, mesh.tets.as_slice())?;
    let places = vertices.as_slice();
    let mut around = Surroundings::new(alloc);
    let mut ops = Vec::new(alloc);
    for a in places {
        push_around(&mut ops, &mut around, mesh, table, &by_marks, field, *a)?;
    }
    Ok(Ascending::gather(ops))
}
