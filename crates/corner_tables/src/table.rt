// The tetrahedra and the marks around a place.
ghost use Rattle.std.specs.Prelude.{◌≡◌, ◌<◌, ◌≤◌, ◌++◌, ◌∷◌, [], IfOk, OnOk, filter, length, map, not, if◌then◌else◌};
ghost use Rattle.std.specs.List.{All};
ghost use Rattle.std.specs.List.Sorted.{IsStrictlySortedBy};
ghost use Rattle.std.specs.Ordering.{is_lt};
ghost use Rattle.ma_geom.specs.Coordinates.{place_cmp};
ghost use Rattle.ma_cells.specs.Ascending.{has};
ghost use Rattle.ma_cells.specs.Cells.{corners_of};
ghost use Rattle.ma_cells.specs.Stars.{marks_at, star_of};
ghost use Rattle.ma_cells.specs.Faces.{holds_all};
ghost use Rattle.corner_tables.specs.Tables.{corner_at, corner_cmp, marks_table, tets_table};
ghost use Rattle.corner_tables.specs.steps.Near.{near, not_above, not_below};
ghost use Rattle.corner_tables.specs.Tables.{positions_from};

use ma_cells::{Ascending, Cell, Mark, Tet};
use ma_geom::{Memory, Place};
use std::alloc::Global;
use std::marker::Model;

/// A corner of a tetrahedron or of a marked cell, with the position of that in its list.
#[derive(Clone, Copy, Debug, PartialEq, Eq, PartialOrd, Ord)]
pub struct Corner {
    pub place: Place,
    pub position: u32,
}

/// The corners of many tetrahedra or marked cells, ordered by place, and at one place by position.
#[derive(Debug, Drop)]
pub struct CornerTable {
    corners: Ascending<Corner>,
}

impl Model for CornerTable {
    ghost use Rattle.std.specs.Prelude.{List};
    ghost use Rattle.corner_tables.specs.declared.table.Corner.{Corner};

    ghost Value = { List Corner };

    ghost view = { λ t. t.corners };
}

fn four_of(corners: [Place; 4], position: u32) -> [Corner; 4]
    ensures { result ≡ map (corner_at position) corners }
{
    let [a, b, c, d] = corners;
    [
        Corner { place: a, position },
        Corner { place: b, position },
        Corner { place: c, position },
        Corner { place: d, position },
    ]
}

/// The corners from the first that isn't below a place.
fn from_place(corners: &[Corner], place: Place) -> &[Corner]
    requires { IsStrictlySortedBy corner_cmp corners.now }
    ensures { result.now ≡ filter (not_below place) corners.now }
{
    let start = corners.partition_point(|corner| corner.place < place);
    &corners[start..]
}

/// The corners up to the last that isn't above a place.
fn up_to_place(corners: &[Corner], place: Place) -> &[Corner]
    requires { IsStrictlySortedBy corner_cmp corners.now }
    ensures { result.now ≡ filter (not_above place) corners.now }
{
    let end = corners.partition_point(|corner| corner.place <= place);
    &corners[..end]
}

/// Appends an item, if it is wanted.
fn push_if<T: Drop>(into: &mut Vec<T>, item: T, is_wanted: bool) -> Result<(), Memory>
    ensures { OnOk result (into.new.items ≡ into.old.items ++ (if is_wanted then item ∷ [] else [])) }
{
    if is_wanted {
        into.push(item)?;
    }
    Ok(())
}

/// Appends the corners of a cell.
fn push_corners(corners: &mut Vec<Corner>, cell: Cell, position: u32) -> Result<(), Memory>
    ensures { OnOk result (corners.new.items ≡ corners.old.items ++ map (corner_at position) (corners_of cell)) }
{
    match cell {
        Cell::Point(place) => corners.push(Corner { place, position })?,
        Cell::Seg(ends) => corners.extend_from_slice(&ends_of(ends, position))?,
        Cell::Tri(places) => corners.extend_from_slice(&triple_of(places, position))?,
    }
    Ok(())
}

fn ends_of(ends: [Place; 2], position: u32) -> [Corner; 2]
    ensures { result ≡ map (corner_at position) ends }
{
    let [a, b] = ends;
    [Corner { place: a, position }, Corner { place: b, position }]
}

fn triple_of(corners: [Place; 3], position: u32) -> [Corner; 3]
    ensures { result ≡ map (corner_at position) corners }
{
    let [a, b, c] = corners;
    [
        Corner { place: a, position },
        Corner { place: b, position },
        Corner { place: c, position },
    ]
}

fn has(corners: &[Place], place: Place) -> bool
    ensures { result ≡ has place_cmp place corners.now }
{
    corners.contains(&place)
}

fn has_all(corners: &[Place], places: &[Place]) -> bool
    ensures { result ≡ holds_all corners.now places.now }
{
    places.iter().all(|place| has(corners, *place))
}

/// Whether the cell of a mark has all these places as corners.
fn holds(mark: &Mark, places: &[Place]) -> bool
    ensures { result ≡ holds_all (corners_of mark.now.cell) places.now }
{
    match mark.cell() {
        Cell::Point(place) => has_all(&[place], places),
        Cell::Seg(ends) => has_all(&ends, places),
        Cell::Tri(corners) => has_all(&corners, places),
    }
}

impl CornerTable {
    /// The table of these tetrahedra, in n log n steps.
    ///
    /// More tetrahedra than 32 bits count are taken for want of memory: they would fill hundreds of
    /// gigabytes.
    pub fn of(alloc: Global, tets: &[Tet]) -> Result<CornerTable, Memory>
        ensures { IfOk result (λ table. table ≡ tets_table tets.now) }
    {
        if tets.len() > u32::MAX as usize {
            return Err(Memory);
        }
        let mut corners = Vec::with_capacity(alloc, 4 * tets.len())?;
        for i in 0..tets.len() {
            corners.extend_from_slice(&four_of(tets[i].corners(), i as u32))?;
        }
        Ok(CornerTable {
            corners: Ascending::gather(corners),
        })
    }

    /// The corners at a place.
    fn near(&self, place: Place) -> &[Corner]
        ensures { result.now ≡ near place self.now }
    {
        up_to_place(from_place(self.corners.as_slice(), place), place)
    }

    /// Puts down where the tetrahedra stand that have all these places as corners.
    pub fn at(&self, tets: &[Tet], at: &[Place], into: &mut Vec<usize>) -> Result<(), Memory>
        requires table { self.now ≡ tets_table tets.now }
        requires some { 1 ≤ length at.now }
        ensures value { OnOk result (into.new.items ≡ positions_from 0 (λ tet. holds_all tet.corners at.now) tets.now) }
        ensures bound { OnOk result (All (λ i. i < length tets.now) into.new.items) }
    {
        into.clear();
        let corners = self.near(at[0]);
        for corner in corners {
            let position = corner.position as usize;
            push_if(into, position, tets[position].holds(at))?;
        }
        Ok(())
    }

    /// The table of these marks, in n log n steps. More than 32 bits count are taken as `of` does.
    pub fn of_marks(alloc: Global, marks: &[Mark]) -> Result<CornerTable, Memory>
        ensures { IfOk result (λ table. table ≡ marks_table marks.now) }
    {
        if marks.len() > u32::MAX as usize {
            return Err(Memory);
        }
        // Most marks are on triangles, and none has more corners.
        let mut corners = Vec::with_capacity(alloc, 3 * marks.len())?;
        for i in 0..marks.len() {
            push_corners(&mut corners, marks[i].cell(), i as u32)?;
        }
        Ok(CornerTable {
            corners: Ascending::gather(corners),
        })
    }

    /// Puts down the tetrahedra that have all these places as corners.
    pub fn star(&self, tets: &[Tet], at: &[Place], into: &mut Vec<Tet>) -> Result<(), Memory>
        requires table { self.now ≡ tets_table tets.now }
        requires some { 1 ≤ length at.now }
        ensures { OnOk result (into.new.items ≡ star_of at.now tets.now) }
    {
        into.clear();
        let corners = self.near(at[0]);
        for corner in corners {
            let tet = tets[corner.position as usize];
            push_if(into, tet, tet.holds(at))?;
        }
        Ok(())
    }

    /// Puts down the marks on cells that have all these places as corners.
    pub fn marks_at(&self, marks: &[Mark], at: &[Place], into: &mut Vec<Mark>) -> Result<(), Memory>
        requires table { self.now ≡ marks_table marks.now }
        requires some { 1 ≤ length at.now }
        ensures { OnOk result (into.new.items ≡ marks_at at.now marks.now) }
    {
        into.clear();
        let corners = self.near(at[0]);
        for corner in corners {
            let mark = marks[corner.position as usize];
            push_if(into, mark, holds(&mark, at))?;
        }
        Ok(())
    }
}
