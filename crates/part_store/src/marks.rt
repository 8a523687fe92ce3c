// Which marks are on cells of tetrahedra.
ghost use Rattle.std.specs.Prelude.{◌≡◌, ◌&&◌, ◌||◌, ◌∷◌, [], ◌++◌, Bool, true, filter, map, IfOk, OnOk, if◌then◌else◌};
ghost use Rattle.std.specs.List.{flat_map};
ghost use Rattle.ma_geom.specs.Coordinates.{place_cmp};
ghost use Rattle.ma_cells.specs.Ascending.{ascending_of, has};
ghost use Rattle.ma_cells.specs.Cells.{cell_cmp, corners_of, is_cell, mark_cmp};
ghost use Rattle.ma_cells.specs.Faces.{holds_all};
ghost use Rattle.ma_cells.specs.Incidence.{is_on};
ghost use Rattle.ma_cells.specs.Stars.{marks_at};
ghost use Rattle.ma_cells.specs.declared.cell.Cell.{Cell};
ghost use Rattle.part_store.specs.Labelled.{marks_on};
ghost use Rattle.part_store.specs.steps.Boxes.{are_within};

use crate::bounds::Bounds;
use crate::sieve::SievedSet;
use ma_cells::{Ascending, Cell, Mark, Tet};
use ma_geom::{Memory, Place};
use std::alloc::Global;

/// The marks that have all their corners in a box.
fn marks_within(alloc: Global, bounds: &Bounds, marks: &[Mark]) -> Result<Vec<Mark>, Memory>
    ensures { IfOk result (λ within. within.items ≡ filter (λ mark. are_within bounds.now (corners_of mark.cell)) marks.now) }
{
    let within = marks
        .iter()
        .filter(|mark| bounds.has_cell(mark.cell()))
        .copied()
        .collect(alloc)?;
    Ok(within)
}

/// The marks without those that have a corner outside of the box around these tetrahedra, which are
/// on none of their cells.
fn drop_far(alloc: Global, tets: &[Tet], marks: &[Mark]) -> Result<Vec<Mark>, Memory>
    ensures { IfOk result (λ near. marks_on tets.now near.items ≡ marks_on tets.now marks.now) }
{
    marks_within(alloc, &Bounds::of_tets(tets), marks)
}

/// The cell of each mark.
fn cells_of(alloc: Global, marks: &[Mark]) -> Result<Vec<Cell>, Memory>
    ensures { IfOk result (λ cells. cells.items ≡ map (λ mark. mark.cell) marks.now) }
{
    let cells = marks.iter().map(|mark| mark.cell()).collect(alloc)?;
    Ok(cells)
}

fn cell_set(cells: Vec<Cell>) -> Ascending<Cell>
    ensures { result ≡ ascending_of cell_cmp cells.items }
{
    Ascending::gather(cells)
}

pub(crate) fn mark_set(marks: Vec<Mark>) -> Ascending<Mark>
    ensures { result ≡ ascending_of mark_cmp marks.items }
{
    Ascending::gather(marks)
}

fn contains(cells: &Ascending<Cell>, cell: &Cell) -> bool
    ensures { result ≡ has cell_cmp cell.now cells.now }
{
    cells.contains(cell)
}

/// Appends an item, if it is wanted.
pub(crate) fn push_if<T: Drop>(into: &mut Vec<T>, item: T, is_wanted: bool) -> Result<(), Memory>
    ensures { OnOk result (into.new.items ≡ into.old.items ++ (if is_wanted then item ∷ [] else [])) }
{
    if is_wanted {
        into.push(item)?;
    }
    Ok(())
}

fn has(corners: &[Place], place: Place) -> bool
    ensures { result ≡ has place_cmp place corners.now }
{
    corners.contains(&place)
}

fn has_all(corners: &[Place], places: &[Place]) -> bool
    ensures { result ≡ holds_all corners.now places.now }
{
    places.iter().all(|place| has(corners, *place))
}

/// Whether these places have all corners of a cell.
fn has_corners(places: &[Place], cell: Cell) -> bool
    ensures { result ≡ holds_all places.now (corners_of cell) }
{
    match cell {
        Cell::Point(place) => has_all(places, &[place]),
        Cell::Seg(ends) => has_all(places, &ends),
        Cell::Tri(corners) => has_all(places, &corners),
    }
}

fn push_corners(into: &mut Vec<Place>, cell: Cell) -> Result<(), Memory>
    ensures { OnOk result (into.new.items ≡ into.old.items ++ corners_of cell) }
{
    match cell {
        Cell::Point(place) => into.push(place)?,
        Cell::Seg(ends) => into.extend_from_slice(&ends)?,
        Cell::Tri(corners) => into.extend_from_slice(&corners)?,
    }
    Ok(())
}

/// The corners of these cells.
fn corners_of(alloc: Global, cells: &[Cell]) -> Result<SievedSet, Memory>
    ensures { IfOk result (λ corners. corners ≡ ascending_of place_cmp (flat_map (λ cell. corners_of cell) cells.now)) }
{
    let mut corners = Vec::new(alloc);
    for cell in cells {
        push_corners(&mut corners, *cell)?;
    }
    SievedSet::gather(alloc, corners)
}

/// Puts down those of the places that are among some others.
fn find_among(near: &mut Vec<Place>, others: &SievedSet, places: &[Place]) -> Result<(), Memory>
    ensures { OnOk result (near.new.items ≡ filter (λ place. has place_cmp place others.now) places.now) }
{
    near.clear();
    for place in places {
        push_if(near, *place, others.has(*place))?;
    }
    Ok(())
}

/// Whether a cell is wanted, all of whose corners are then among these places.
fn is_wanted(wanted: &Ascending<Cell>, near: &[Place], cell: &Cell) -> bool
    ensures { result ≡ (holds_all near.now (corners_of cell.now) && has cell_cmp cell.now wanted.now) }
{
    has_corners(near, *cell) && contains(wanted, cell)
}

/// Appends those of these cells that are wanted and have their corners among these places.
fn push_wanted(
    found: &mut Vec<Cell>,
    wanted: &Ascending<Cell>,
    near: &[Place],
    cells: &[Cell],
) -> Result<(), Memory>
    ensures { OnOk result (found.new.items ≡ found.old.items ++ filter (λ cell. holds_all near.now (corners_of cell) && has cell_cmp cell wanted.now) cells.now) }
{
    for cell in cells {
        push_if(found, *cell, is_wanted(wanted, near, cell))?;
    }
    Ok(())
}

/// Appends the wanted cells of a tetrahedron. Most tetrahedra have no corner among those of wanted
/// cells, and so their cells aren't even listed.
fn push_found(
    found: &mut Vec<Cell>,
    near: &mut Vec<Place>,
    wanted: &Ascending<Cell>,
    corners: &SievedSet,
    tet: &Tet,
) -> Result<(), Memory>
    requires { corners.now ≡ ascending_of place_cmp (flat_map (λ cell. corners_of cell) wanted.now) }
    ensures { OnOk result ((cell : Cell) → is_cell cell ≡ true → has cell_cmp cell found.new.items ≡ (has cell_cmp cell found.old.items || (holds_all tet.now.corners (corners_of cell) && has cell_cmp cell wanted.now))) }
{
    find_among(near, corners, &tet.corners())?;
    if !near.as_slice().is_empty() {
        push_wanted(found, wanted, near.as_slice(), &tet.cells())?;
    }
    Ok(())
}

/// The wanted cells that are cells of tetrahedra, each as often as a tetrahedron has it.
fn found_on(alloc: Global, wanted: &Ascending<Cell>, tets: &[Tet]) -> Result<Vec<Cell>, Memory>
    ensures { IfOk result (λ found. (cell : Cell) → is_cell cell ≡ true → has cell_cmp cell found.items ≡ (has cell_cmp cell wanted.now && is_on tets.now cell)) }
{
    let corners = corners_of(alloc, wanted.as_slice())?;
    let mut near = Vec::new(alloc);
    let mut found = Vec::new(alloc);
    for tet in tets {
        push_found(&mut found, &mut near, wanted, &corners, tet)?;
    }
    Ok(found)
}

/// Whether the cell of a mark was found.
fn is_found(found: &Ascending<Cell>, mark: &Mark) -> bool
    ensures found { result ≡ has cell_cmp mark.now.cell found.now }
    ensures cell { is_cell mark.now.cell ≡ true }
{
    contains(found, &mark.cell())
}

/// The marks whose cells were found.
fn keep_found(mut marks: Vec<Mark>, found: &Ascending<Cell>) -> Vec<Mark>
    ensures { (test : Cell → Bool) → ((cell : Cell) → is_cell cell ≡ true → has cell_cmp cell found.now ≡ test cell) → result.items ≡ filter (λ mark. test mark.cell) marks.items }
{
    marks.retain(|mark| is_found(found, mark));
    marks
}

/// The marks on cells of these tetrahedra, in n log n steps, where n counts the tetrahedra and the
/// marks near them; one walk leaves the other marks out. It looks each cell of a tetrahedron up
/// among those of the marks, if its corners are corners of these, since there are far fewer of them.
pub(crate) fn marks_on(alloc: Global, tets: &[Tet], marks: &[Mark]) -> Result<Vec<Mark>, Memory>
    ensures { IfOk result (λ kept. kept.items ≡ marks_on tets.now marks.now) }
{
    let near = drop_far(alloc, tets, marks)?;
    let wanted = cell_set(cells_of(alloc, near.as_slice())?);
    let found = cell_set(found_on(alloc, &wanted, tets)?);
    Ok(keep_found(near, &found))
}

/// Whether a cell has this corner.
fn has_corner(cell: Cell, corner: Place) -> bool
    ensures { result ≡ holds_all (corners_of cell) (corner ∷ []) }
{
    match cell {
        Cell::Point(place) => has(&[place], corner),
        Cell::Seg(ends) => has(&ends, corner),
        Cell::Tri(corners) => has(&corners, corner),
    }
}

/// The marks on cells with this corner.
pub(crate) fn marks_at(alloc: Global, marks: &[Mark], corner: Place) -> Result<Vec<Mark>, Memory>
    ensures { IfOk result (λ there. there.items ≡ marks_at (corner ∷ []) marks.now) }
{
    let mut there = Vec::new(alloc);
    for mark in marks {
        push_if(&mut there, *mark, has_corner(mark.cell(), corner))?;
    }
    Ok(there)
}
