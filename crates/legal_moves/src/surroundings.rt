// What is around a vertex, an edge or a face, and operations that take it away.
ghost use Rattle.std.specs.Prelude.{◌≡◌, ◌≤◌, ◌++◌, ◌∷◌, ◌||◌, [], None, OnOk, Some, if◌then◌else◌, length, true};
ghost use Rattle.std.specs.FinMap.{IsAntisymmetric};
ghost use Rattle.std.specs.List.{flat_map};
ghost use Rattle.std.specs.List.Sorted.{IsStrictlySortedBy};
ghost use Rattle.ma_geom.specs.Coordinates.{place_cmp};
ghost use Rattle.ma_cells.specs.Ascending.{ascending_of, has};
ghost use Rattle.ma_cells.specs.Cells.{corners_of};
ghost use Rattle.ma_cells.specs.Faces.{holds_all};
ghost use Rattle.ma_cells.specs.Stars.{besides, marks_at, star_of};
ghost use Rattle.ma_cells.specs.Tetrahedron.{tet_cmp};
ghost use Rattle.cavity_rank.specs.Operations.{is_spot};
ghost use Rattle.corner_tables.specs.Tables.{marks_table, tets_table};
ghost use Rattle.legal_moves.specs.Around.{AreAt, is_at, others_of};
ghost use Rattle.pass_rules.specs.Moves.{operations_from};

use cavity_collapse::SidedFace;
use cavity_rank::Operation;
use cavity_swap::OuterFace;
use corner_tables::CornerTable;
use ma_cells::{Batch, Cell, Mark, Tet};
use ma_geom::{Memory, Place};
use std::alloc::Global;

/// What is around one spot after the other, in memory that is used again: the tetrahedra and the
/// marks there, the rims of marked surfaces at a vertex and the faces across from it, the other
/// corners of the tetrahedra, and the faces that one of these alone has. The tetrahedra and the marks at the first place of the last spot
/// stay at hand, since spots in ascending order have the same first place many times in turn.
#[derive(Drop)]
pub(crate) struct Surroundings {
    pub(crate) first: Option<Place>,
    pub(crate) tets_at_first: Vec<Tet>,
    pub(crate) marks_at_first: Vec<Mark>,
    pub(crate) star: Vec<Tet>,
    pub(crate) marks: Vec<Mark>,
    pub(crate) rims: Vec<Place>,
    pub(crate) facing: Vec<SidedFace>,
    pub(crate) others: Vec<Place>,
    pub(crate) outer: Vec<OuterFace>,
}

impl Surroundings {
    pub(crate) fn new(alloc: Global) -> Surroundings
        ensures { result.first ≡ None }
    {
        Surroundings {
            first: None,
            tets_at_first: Vec::new(alloc),
            marks_at_first: Vec::new(alloc),
            star: Vec::new(alloc),
            marks: Vec::new(alloc),
            rims: Vec::new(alloc),
            facing: Vec::new(alloc),
            others: Vec::new(alloc),
            outer: Vec::new(alloc),
        }
    }
}

fn is_at(first: Option<Place>, a: Place) -> bool
    ensures { result ≡ is_at first a }
{
    match first {
        Some(first) => first == a,
        None => false,
    }
}

/// Puts down the tetrahedra and the marks at a vertex, unless they are at hand.
fn come_to(
    around: &mut Surroundings,
    mesh: &Batch,
    by_tets: &CornerTable,
    by_marks: &CornerTable,
    a: Place,
) -> Result<(), Memory>
    requires tets { by_tets.now ≡ tets_table mesh.now.tets }
    requires marks { by_marks.now ≡ marks_table mesh.now.marks }
    requires near { AreAt mesh.now around.old.first around.old.tets_at_first.items around.old.marks_at_first.items }
    ensures { OnOk result ((around.new.first ≡ Some a) × AreAt mesh.now (Some a) around.new.tets_at_first.items around.new.marks_at_first.items) }
{
    if is_at(around.first, a) {
        return Ok(());
    }
    around.first = None;
    by_tets.star(mesh.tets.as_slice(), &[a], &mut around.tets_at_first)?;
    by_marks.marks_at(mesh.marks.as_slice(), &[a], &mut around.marks_at_first)?;
    around.first = Some(a);
    Ok(())
}

fn push_if_it_holds(into: &mut Vec<Tet>, tet: &Tet, at: &[Place]) -> Result<(), Memory>
    ensures { OnOk result (into.new.items ≡ into.old.items ++ (if holds_all tet.now.corners at.now then tet.now ∷ [] else [])) }
{
    if tet.holds(at) {
        into.push(*tet)?;
    }
    Ok(())
}

/// Puts down those of the tetrahedra that have all these places as corners.
fn find_star(into: &mut Vec<Tet>, tets: &[Tet], at: &[Place]) -> Result<(), Memory>
    ensures { OnOk result (into.new.items ≡ star_of at.now tets.now) }
{
    into.clear();
    for tet in tets {
        push_if_it_holds(into, tet, at)?;
    }
    Ok(())
}

fn has_all(corners: &[Place], places: &[Place]) -> bool
    ensures { result ≡ holds_all corners.now places.now }
{
    places.iter().all(|place| is_among(*place, corners))
}

fn is_on(mark: &Mark, places: &[Place]) -> bool
    ensures { result ≡ holds_all (corners_of mark.now.cell) places.now }
{
    match mark.cell() {
        Cell::Point(place) => has_all(&[place], places),
        Cell::Seg(ends) => has_all(&ends, places),
        Cell::Tri(corners) => has_all(&corners, places),
    }
}

fn push_if_on(into: &mut Vec<Mark>, mark: &Mark, at: &[Place]) -> Result<(), Memory>
    ensures { OnOk result (into.new.items ≡ into.old.items ++ (if holds_all (corners_of mark.now.cell) at.now then mark.now ∷ [] else [])) }
{
    if is_on(mark, at) {
        into.push(*mark)?;
    }
    Ok(())
}

/// Puts down the marks on cells that have all these places as corners.
fn find_marks(into: &mut Vec<Mark>, marks: &[Mark], at: &[Place]) -> Result<(), Memory>
    ensures { OnOk result (into.new.items ≡ marks_at at.now marks.now) }
{
    into.clear();
    for mark in marks {
        push_if_on(into, mark, at)?;
    }
    Ok(())
}

/// Puts down the tetrahedra and the marks around an edge or a face, by those at its first place.
pub(crate) fn look_around(
    around: &mut Surroundings,
    mesh: &Batch,
    by_tets: &CornerTable,
    by_marks: &CornerTable,
    at: &[Place],
) -> Result<(), Memory>
    requires tets { by_tets.now ≡ tets_table mesh.now.tets }
    requires marks { by_marks.now ≡ marks_table mesh.now.marks }
    requires some { 1 ≤ length at.now }
    requires near { AreAt mesh.now around.old.first around.old.tets_at_first.items around.old.marks_at_first.items }
    ensures near { OnOk result (AreAt mesh.now around.new.first around.new.tets_at_first.items around.new.marks_at_first.items) }
    ensures star { OnOk result (around.new.star.items ≡ star_of at.now mesh.now.tets) }
    ensures rises { OnOk result (IsStrictlySortedBy tet_cmp around.new.star.items) }
    ensures marked { OnOk result (around.new.marks.items ≡ marks_at at.now mesh.now.marks) }
{
    come_to(around, mesh, by_tets, by_marks, at[0])?;
    find_star(&mut around.star, around.tets_at_first.as_slice(), at)?;
    find_marks(&mut around.marks, around.marks_at_first.as_slice(), at)?;
    Ok(())
}

fn is_among(place: Place, places: &[Place]) -> bool
    ensures { result ≡ has place_cmp place places.now }
{
    places.contains(&place)
}

/// Among how many of the last places a corner is looked for, before it is pushed once more. To look
/// through all of them would take quadratic time around a vertex of very many tetrahedra. What is
/// pushed more than once is dropped later, when the list is made a set, and most vertices have fewer
/// neighbours.
const FEW: usize = 64;

/// Whether a place is among the last few of these. It may stand further in front.
fn is_among_last(place: Place, places: &[Place]) -> bool
    ensures { result ≡ true → has place_cmp place places.now ≡ true }
{
    is_among(place, &places[places.len().saturating_sub(FEW)..])
}

/// Whether a place is among those `at` a spot or is found among those that are there already.
fn is_known(place: Place, at: &[Place], places: &[Place]) -> bool
    ensures known { result ≡ true → (has place_cmp place at.now || has place_cmp place places.now) ≡ true }
    ensures other { has place_cmp place at.now ≡ true → result ≡ true }
{
    is_among(place, at) || is_among_last(place, places)
}

fn push_unless(places: &mut Vec<Place>, place: Place, at: &[Place]) -> Result<(), Memory>
    ensures { OnOk result (ascending_of place_cmp places.new.items ≡ ascending_of place_cmp (places.old.items ++ besides at.now (place ∷ []))) }
{
    if is_known(place, at, places.as_slice()) {
        return Ok(());
    }
    places.push(place)?;
    Ok(())
}

fn push_besides(places: &mut Vec<Place>, corners: &[Place], at: &[Place]) -> Result<(), Memory>
    ensures { OnOk result (ascending_of place_cmp places.new.items ≡ ascending_of place_cmp (places.old.items ++ besides at.now corners.now)) }
{
    for place in corners {
        push_unless(places, *place, at)?;
    }
    Ok(())
}

/// Puts down the corners of these tetrahedra that aren't among some places. Most are few, and each
/// is put down once, so to look through them costs less than to sort all corners.
fn push_others(places: &mut Vec<Place>, star: &[Tet], at: &[Place]) -> Result<(), Memory>
    ensures { OnOk result (ascending_of place_cmp places.new.items ≡ ascending_of place_cmp (places.old.items ++ flat_map (λ tet. besides at.now tet.corners) star.now)) }
{
    for tet in star {
        push_besides(places, &tet.corners(), at)?;
    }
    Ok(())
}

fn make_set<T: Ord + Drop>(items: &mut Vec<T>)
    ensures { IsAntisymmetric T.cmp → items.new.items ≡ ascending_of T.cmp items.old.items }
{
    items.sort_unstable();
    items.dedup();
}

/// Puts down the corners of these tetrahedra that aren't among some places.
pub(crate) fn find_others(others: &mut Vec<Place>, star: &[Tet], at: &[Place]) -> Result<(), Memory>
    ensures { OnOk result (others.new.items ≡ others_of at.now star.now) }
{
    others.clear();
    push_others(others, star, at)?;
    make_set(others);
    Ok(())
}

/// Appends the operation that takes `at` away and fills the cavity from `v`, if it has a quality.
pub(crate) fn push_operation(
    ops: &mut Vec<Operation>,
    at: &[Place],
    v: Place,
    quality: Option<u32>,
) -> Result<(), Memory>
    requires { is_spot at.now ≡ true }
    ensures { OnOk result (ops.new.items ≡ ops.old.items ++ operations_from at.now v quality) }
{
    let Some(worst) = quality else {
        return Ok(());
    };
    match Operation::new(at, v, worst) {
        Some(op) => {
            ops.push(op)?;
            Ok(())
        }
        None => unreachable!(),
    }
}
