// The legal swaps of a mesh.
ghost use Rattle.std.specs.Prelude.{◌≡◌, ◌++◌, ◌∷◌, [], true, IfOk, OnOk, not};
ghost use Rattle.std.specs.List.{flat_map, list_all, list_any};
ghost use Rattle.std.specs.List.Sorted.{IsStrictlySortedBy};
ghost use Rattle.std.specs.Ordering.{eq_by_cmp};
ghost use Rattle.ma_geom.specs.Coordinates.{place_cmp};
ghost use Rattle.ma_cells.specs.Ascending.{are_ascending};
ghost use Rattle.ma_cells.specs.Tetrahedron.{tet_cmp};
ghost use Rattle.ma_cells.specs.Worst.{worst};
ghost use Rattle.size_marks.specs.Field.{Field};
ghost use Rattle.cavity_rank.specs.Operations.{is_spot};
ghost use Rattle.cavity_rank.specs.declared.verdict.Kind.TheVariants.{Swap};
ghost use Rattle.cavity_swap.specs.Outer.{outer_of, sees};
ghost use Rattle.cavity_swap.specs.Rings.{edges_across};
ghost use Rattle.corner_tables.specs.Tables.{marks_table, tets_table};
ghost use Rattle.legal_moves.specs.Around.{AreAt, is_swappable, swaps_around, swaps_at, swaps_from};
ghost use Rattle.pass_rules.specs.Moves.{are_a_pair, legal_operations, make_a_ring};

use crate::spots::{bad_among, edges_of, faces_of};
use crate::surroundings::{Surroundings, find_others, look_around, push_operation};
use cavity_collapse::worst;
use cavity_rank::Operation;
use cavity_swap::{OuterFace, find_outer, may_be_taken, quality_from, ring_around, sees};
use corner_tables::CornerTable;
use ma_cells::{Ascending, Batch, Mark, Tet};
use ma_geom::{Memory, Place};
use std::alloc::Global;

fn make_a_ring(star: &[Tet], a: Place, b: Place) -> bool
    requires star { IsStrictlySortedBy tet_cmp star.now }
    requires ends { are_ascending place_cmp (a ∷ b ∷ []) ≡ true }
    ensures { result ≡ make_a_ring (edges_across (a ∷ b ∷ []) star.now) }
{
    match ring_around(star, a, b) {
        Some(_) => true,
        None => false,
    }
}

fn differ<T: Ord>(first: &T, second: &T) -> bool
    ensures { result ≡ not (eq_by_cmp T.cmp first.now second.now) }
{
    first != second
}

fn are_a_pair(star: &[Tet]) -> bool
    ensures { result ≡ are_a_pair star.now }
{
    match star {
        [s, t] => differ(&s.corners(), &t.corners()),
        _ => false,
    }
}

/// Whether the tetrahedra around an edge are a ring, or those around a face a pair.
fn is_swappable(at: &[Place], star: &[Tet]) -> bool
    requires star { IsStrictlySortedBy tet_cmp star.now }
    requires at { are_ascending place_cmp at.now ≡ true }
    ensures { result ≡ is_swappable at.now star.now }
{
    match at {
        [a, b] => make_a_ring(star, *a, *b),
        [_, _, _] => are_a_pair(star),
        _ => false,
    }
}

/// Appends the legal swaps of an edge or a face to these places, where the tests pass that don't
/// hang on the place.
fn push_from(
    ops: &mut Vec<Operation>,
    star: &[Tet],
    outer: &[OuterFace],
    at: &[Place],
    apexes: &[Place],
    old: u32,
) -> Result<(), Memory>
    requires spot { is_spot at.now ≡ true }
    requires outer { outer.now ≡ outer_of star.now }
    requires old { old ≡ worst star.now }
    ensures { OnOk result (ops.new.items ≡ ops.old.items ++ flat_map (swaps_from star.now at.now) apexes.now) }
{
    for v in apexes {
        push_operation(ops, at, *v, quality_from(star, outer, *v, old))?;
    }
    Ok(())
}

/// Whether the cavity with these outer faces may be filled from one of these places.
fn some_sees(outer: &[OuterFace], apexes: &[Place]) -> bool
    ensures { result ≡ list_any (sees outer.now) apexes.now }
{
    apexes.iter().any(|v| sees(outer, *v))
}

/// Appends the legal swaps of an edge or a face to these places. What asks for no quality comes
/// first, and refuses most.
fn push_legal(
    ops: &mut Vec<Operation>,
    outer: &mut Vec<OuterFace>,
    star: &[Tet],
    marks: &[Mark],
    at: &[Place],
    apexes: &[Place],
) -> Result<(), Memory>
    requires { is_spot at.now ≡ true }
    ensures { OnOk result (ops.new.items ≡ ops.old.items ++ flat_map (swaps_at star.now marks.now at.now) apexes.now) }
{
    find_outer(outer, star)?;
    if !some_sees(outer.as_slice(), apexes) {
        return Ok(());
    }
    let old = worst(star);
    if !may_be_taken(star, marks, at, old) {
        return Ok(());
    }
    push_from(ops, star, outer.as_slice(), at, apexes, old)
}

/// Appends the legal swaps of an edge or a face.
fn push_around(
    ops: &mut Vec<Operation>,
    around: &mut Surroundings,
    mesh: &Batch,
    by_tets: &CornerTable,
    by_marks: &CornerTable,
    at: &[Place],
) -> Result<(), Memory>
    requires tets { by_tets.now ≡ tets_table mesh.now.tets }
    requires marks { by_marks.now ≡ marks_table mesh.now.marks }
    requires spot { is_spot at.now ≡ true }
    requires near { AreAt mesh.now around.old.first around.old.tets_at_first.items around.old.marks_at_first.items }
    ensures near { OnOk result (AreAt mesh.now around.new.first around.new.tets_at_first.items around.new.marks_at_first.items) }
    ensures ops { OnOk result (ops.new.items ≡ ops.old.items ++ swaps_around mesh.now at.now) }
{
    look_around(around, mesh, by_tets, by_marks, at)?;
    if !is_swappable(at, around.star.as_slice()) {
        return Ok(());
    }
    find_others(&mut around.others, around.star.as_slice(), at)?;
    push_legal(
        ops,
        &mut around.outer,
        around.star.as_slice(),
        around.marks.as_slice(),
        at,
        around.others.as_slice(),
    )
}

fn push_at_edge(
    ops: &mut Vec<Operation>,
    around: &mut Surroundings,
    mesh: &Batch,
    by_tets: &CornerTable,
    by_marks: &CornerTable,
    ends: [Place; 2],
) -> Result<(), Memory>
    requires tets { by_tets.now ≡ tets_table mesh.now.tets }
    requires marks { by_marks.now ≡ marks_table mesh.now.marks }
    requires ends { are_ascending place_cmp ends ≡ true }
    requires near { AreAt mesh.now around.old.first around.old.tets_at_first.items around.old.marks_at_first.items }
    ensures near { OnOk result (AreAt mesh.now around.new.first around.new.tets_at_first.items around.new.marks_at_first.items) }
    ensures ops { OnOk result (ops.new.items ≡ ops.old.items ++ swaps_around mesh.now ends) }
{
    push_around(ops, around, mesh, by_tets, by_marks, &ends)
}

fn push_at_face(
    ops: &mut Vec<Operation>,
    around: &mut Surroundings,
    mesh: &Batch,
    by_tets: &CornerTable,
    by_marks: &CornerTable,
    corners: [Place; 3],
) -> Result<(), Memory>
    requires tets { by_tets.now ≡ tets_table mesh.now.tets }
    requires marks { by_marks.now ≡ marks_table mesh.now.marks }
    requires corners { are_ascending place_cmp corners ≡ true }
    requires near { AreAt mesh.now around.old.first around.old.tets_at_first.items around.old.marks_at_first.items }
    ensures near { OnOk result (AreAt mesh.now around.new.first around.new.tets_at_first.items around.new.marks_at_first.items) }
    ensures ops { OnOk result (ops.new.items ≡ ops.old.items ++ swaps_around mesh.now corners) }
{
    push_around(ops, around, mesh, by_tets, by_marks, &corners)
}

/// Appends the legal swaps of these edges.
fn push_edge_swaps(
    ops: &mut Vec<Operation>,
    around: &mut Surroundings,
    mesh: &Batch,
    by_tets: &CornerTable,
    by_marks: &CornerTable,
    edges: &[[Place; 2]],
) -> Result<(), Memory>
    requires tets { by_tets.now ≡ tets_table mesh.now.tets }
    requires marks { by_marks.now ≡ marks_table mesh.now.marks }
    requires rise { list_all (are_ascending place_cmp) edges.now ≡ true }
    requires near { AreAt mesh.now around.old.first around.old.tets_at_first.items around.old.marks_at_first.items }
    ensures near { OnOk result (AreAt mesh.now around.new.first around.new.tets_at_first.items around.new.marks_at_first.items) }
    ensures ops { OnOk result (ops.new.items ≡ ops.old.items ++ flat_map (swaps_around mesh.now) edges.now) }
{
    for ends in edges {
        push_at_edge(ops, around, mesh, by_tets, by_marks, *ends)?;
    }
    Ok(())
}

/// Appends the legal swaps of these faces.
fn push_face_swaps(
    ops: &mut Vec<Operation>,
    around: &mut Surroundings,
    mesh: &Batch,
    by_tets: &CornerTable,
    by_marks: &CornerTable,
    faces: &[[Place; 3]],
) -> Result<(), Memory>
    requires tets { by_tets.now ≡ tets_table mesh.now.tets }
    requires marks { by_marks.now ≡ marks_table mesh.now.marks }
    requires rise { list_all (are_ascending place_cmp) faces.now ≡ true }
    requires near { AreAt mesh.now around.old.first around.old.tets_at_first.items around.old.marks_at_first.items }
    ensures near { OnOk result (AreAt mesh.now around.new.first around.new.tets_at_first.items around.new.marks_at_first.items) }
    ensures ops { OnOk result (ops.new.items ≡ ops.old.items ++ flat_map (swaps_around mesh.now) faces.now) }
{
    for corners in faces {
        push_at_face(ops, around, mesh, by_tets, by_marks, *corners)?;
    }
    Ok(())
}

/// The legal swaps of these edges and faces. The edges are let go before it comes to the faces.
fn swaps_of(
    alloc: Global,
    mesh: &Batch,
    table: &CornerTable,
    edges: Ascending<[Place; 2]>,
    faces: &[[Place; 3]],
) -> Result<Vec<Operation>, Memory>
    requires table { table.now ≡ tets_table mesh.now.tets }
    requires edges { list_all (are_ascending place_cmp) edges ≡ true }
    requires faces { list_all (are_ascending place_cmp) faces.now ≡ true }
    ensures { IfOk result (λ ops. ops.items ≡ flat_map (swaps_around mesh.now) edges ++ flat_map (swaps_around mesh.now) faces.now) }
{
    let by_marks = CornerTable::of_marks(alloc, mesh.marks.as_slice())?;
    let mut around = Surroundings::new(alloc);
    let mut ops = Vec::new(alloc);
    push_edge_swaps(
        &mut ops,
        &mut around,
        mesh,
        table,
        &by_marks,
        edges.as_slice(),
    )?;
    drop(edges);
    push_face_swaps(&mut ops, &mut around, mesh, table, &by_marks, faces)?;
    Ok(ops)
}

/// The legal swaps of a mesh, in order of rank. No size counts for them. An edge or a face has none,
/// if none of the tetrahedra around it is bad, so the others are passed over.
pub(crate) fn legal_swaps(
    alloc: Global,
    mesh: &Batch,
    table: &CornerTable,
) -> Result<Ascending<Operation>, Memory>
    requires { table.now ≡ tets_table mesh.now.tets }
    ensures { (field : Field) → IfOk result (λ ops. ops ≡ legal_operations Swap field mesh.now) }
{
    let bad = bad_among(alloc, mesh.tets.as_slice())?;
    let edges = edges_of(alloc, bad.as_slice())?;
    let faces = faces_of(alloc, bad.as_slice())?;
    let ops = swaps_of(alloc, mesh, table, edges, faces.as_slice())?;
    Ok(Ascending::gather(ops))
}
