// What a collapse leaves, as a batch.
ghost use Rattle.std.specs.Prelude.{◌≡◌, ◌∷◌, [], ◌++◌, true, map, OnOk, OnErr, IfOk, IfSome, if◌then◌else◌};
ghost use Rattle.std.specs.List.{flat_map};
ghost use Rattle.ma_cells.specs.Cells.{cell_of, corners_of, is_cell, mark_on};
ghost use Rattle.ma_cells.specs.Stars.{besides, cone};
ghost use Rattle.cavity_collapse.specs.Collapsing.{collapsed, is_same, moved_corners, moved_mark, moved_marks};

use crate::filling::moved_tet;
use crate::places::is_same;
use ma_cells::{Batch, Cell, Mark, Tet};
use ma_geom::{Memory, Place};
use std::alloc::Global;

fn moved(a: Place, v: Place, p: Place) -> Place
    ensures { result ≡ (if is_same p a then v else p) }
{
    if is_same(p, a) { v } else { p }
}

fn moved_segment(a: Place, v: Place, ends: [Place; 2]) -> Option<Cell>
    ensures value { result ≡ cell_of (moved_corners a v ends) }
    ensures cell { IfSome result (λ cell. is_cell cell ≡ true) }
{
    let [p, q] = ends;
    Cell::new(&[moved(a, v, p), moved(a, v, q)])
}

fn moved_triangle(a: Place, v: Place, corners: [Place; 3]) -> Option<Cell>
    ensures value { result ≡ cell_of (moved_corners a v corners) }
    ensures cell { IfSome result (λ cell. is_cell cell ≡ true) }
{
    let [p, q, r] = corners;
    Cell::new(&[moved(a, v, p), moved(a, v, q), moved(a, v, r)])
}

fn moved_cell(a: Place, v: Place, cell: Cell) -> Option<Cell>
    ensures value { result ≡ cell_of (moved_corners a v (corners_of cell)) }
    ensures cell { IfSome result (λ cell. is_cell cell ≡ true) }
{
    match cell {
        Cell::Point(p) => Cell::new(&[moved(a, v, p)]),
        Cell::Seg(ends) => moved_segment(a, v, ends),
        Cell::Tri(corners) => moved_triangle(a, v, corners),
    }
}

fn moved_mark(a: Place, v: Place, mark: &Mark) -> Option<Mark>
    ensures { result ≡ mark_on (moved_corners a v (corners_of mark.now.cell)) mark.now.phys mark.now.elem }
{
    match moved_cell(a, v, mark.cell()) {
        Some(cell) => Some(Mark::new(cell, mark.phys(), mark.elem())),
        None => None,
    }
}

fn push_tet(tets: &mut Vec<Tet>, tet: &Tet, a: Place, v: Place) -> Result<(), Memory>
    ensures { OnOk result (tets.new.items ≡ tets.old.items ++ cone v tet.now.phys tet.now.elem (besides (a ∷ []) tet.now.corners)) }
{
    match moved_tet(tet, a, v) {
        Some(new) => {
            tets.push(new)?;
            Ok(())
        }
        None => Ok(()),
    }
}

fn moved_tets(alloc: Global, star: &[Tet], a: Place, v: Place) -> Result<Vec<Tet>, Memory>
    ensures { IfOk result (λ tets. tets.items ≡ flat_map (λ tet. cone v tet.phys tet.elem (besides (a ∷ []) tet.corners)) star.now) }
{
    let mut tets = Vec::with_capacity(alloc, star.len())?;
    for tet in star {
        push_tet(&mut tets, tet, a, v)?;
    }
    Ok(tets)
}

fn push_mark(marks: &mut Vec<Mark>, mark: &Mark, a: Place, v: Place) -> Result<(), Memory>
    ensures { OnOk result (marks.new.items ≡ marks.old.items ++ moved_mark a v mark.now) }
{
    match moved_mark(a, v, mark) {
        Some(new) => {
            marks.push(new)?;
            Ok(())
        }
        None => Ok(()),
    }
}

fn moved_marks(alloc: Global, marks: &[Mark], a: Place, v: Place) -> Result<Vec<Mark>, Memory>
    ensures { IfOk result (λ moved. moved.items ≡ flat_map (moved_mark a v) marks.now) }
{
    let mut moved = Vec::with_capacity(alloc, marks.len())?;
    for mark in marks {
        push_mark(&mut moved, mark, a, v)?;
    }
    Ok(moved)
}

/// What a collapse of `a` to `v` leaves of the tetrahedra at `a` and of marks: `v` in the place of
/// `a`. A cell that holds both falls away, and so does a tetrahedron that would be flat. A mark
/// without `a` stays as it is. `star` is to have all tetrahedra that have the corner `a`.
pub fn result(
    alloc: Global,
    star: &[Tet],
    marks: &[Mark],
    a: Place,
    v: Place,
) -> Result<Batch, Memory>
    ensures tets { IfOk result (λ batch. batch.tets ≡ collapsed a v star.now) }
    ensures marks { IfOk result (λ batch. batch.marks ≡ moved_marks a v marks.now) }
{
    let tets = moved_tets(alloc, star, a, v)?;
    let marks = moved_marks(alloc, marks, a, v)?;
    Batch::gather(tets, marks)
}
