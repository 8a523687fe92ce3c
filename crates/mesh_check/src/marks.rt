// The marks of an accepted mesh.
ghost use Rattle.std.specs.Prelude.{◌≡◌, ◌≤◌, ◌∷◌, [], ◌++◌, ◌&&◌, Bool, pos, length, map, filter, IfOk, OnOk};
ghost use Rattle.std.specs.List.Sorted.{IsStrictlySortedBy};
ghost use Rattle.std.specs.List.{filter_map, flat_map, list_any};
ghost use Rattle.std.specs.Option.{option_to_list};
ghost use Rattle.ma_cells.specs.Ascending.{ascending_of, has};
ghost use Rattle.ma_cells.specs.Cells.{CellMark, cell_cmp, mark_cmp, mark_on};
ghost use Rattle.ma_cells.specs.declared.cell.Cell.{Cell};
ghost use Rattle.msh_read.specs.Raw.{raw};
ghost use Rattle.mesh_check.specs.steps.Tetrahedra.{places_of};
ghost use Rattle.ma_cells.specs.Incidence.{is_on};
ghost use Rattle.mesh_check.specs.Marks.{outer_marks, sides_of};
ghost use Rattle.mesh_check.specs.steps.FoundMarks.{kept_mark, found_loose, found_marks, shifted_mark};

use crate::cells::{found_on, is_found, marked_cells};
use crate::lone::lone;
use crate::places::place;
use ma_cells::{Ascending, Cell, Mark, Tet};
use ma_geom::{Memory, Place};
use msh_read::{RawMark, RawMesh};
use std::alloc::Global;

/// A face and a region.
type Side = ([Place; 3], (i32, i32));

/// The mark with this tag on the cell with these corners.
fn mark_on(corners: &[Place], phys: i32, elem: i32) -> Option<Mark>
    ensures { result ≡ mark_on corners.now phys elem }
{
    let cell = Cell::new(corners)?;
    Some(Mark::new(cell, phys, elem))
}

/// The places of two nodes after the shift, if both are in range.
fn two_places(nodes: &[Place], shift: u32, a: u32, b: u32) -> Option<[Place; 2]>
    requires { shift ≤ 30 }
    ensures { result ≡ places_of nodes.now shift (a ∷ b ∷ []) }
{
    let a = place(nodes, shift, a)?;
    let b = place(nodes, shift, b)?;
    Some([a, b])
}

/// The places of three nodes after the shift, if all are in range.
fn three_places(nodes: &[Place], shift: u32, a: u32, b: u32, c: u32) -> Option<[Place; 3]>
    requires { shift ≤ 30 }
    ensures { result ≡ places_of nodes.now shift (a ∷ b ∷ c ∷ []) }
{
    let a = place(nodes, shift, a)?;
    let b = place(nodes, shift, b)?;
    let c = place(nodes, shift, c)?;
    Some([a, b, c])
}

/// A mark after the shift. None where two of its places are equal, or one is out of range.
#[tactic(auto, unfolding(crate::specs::steps::FoundMarks::shifted_mark))]
fn shifted_mark(nodes: &[Place], shift: u32, mark: &RawMark) -> Option<Mark>
    requires { shift ≤ 30 }
    ensures { result ≡ shifted_mark nodes.now shift mark.now }
{
    match mark.at.as_slice() {
        [a] => {
            let a = place(nodes, shift, *a)?;
            mark_on(&[a], mark.phys, mark.elem)
        }
        [a, b] => {
            let corners = two_places(nodes, shift, *a, *b)?;
            mark_on(&corners, mark.phys, mark.elem)
        }
        [a, b, c] => {
            let corners = three_places(nodes, shift, *a, *b, *c)?;
            mark_on(&corners, mark.phys, mark.elem)
        }
        _ => None,
    }
}

/// Puts a mark, if there is one, behind others.
fn push_if_any(marks: &mut Vec<Mark>, mark: Option<Mark>) -> Result<(), Memory>
    ensures { OnOk result (marks.new.items ≡ marks.old.items ++ option_to_list mark) }
{
    if let Some(mark) = mark {
        marks.push(mark)?;
    }
    Ok(())
}

/// The marks after the shift.
fn shifted_marks(
    alloc: Global,
    nodes: &[Place],
    shift: u32,
    marks: &[RawMark],
) -> Result<Vec<Mark>, Memory>
    requires { shift ≤ 30 }
    ensures { IfOk result (λ moved. moved.items ≡ filter_map (shifted_mark nodes.now shift) marks.now) }
{
    let mut moved = Vec::with_capacity(alloc, marks.len())?;
    for mark in marks {
        push_if_any(&mut moved, shifted_mark(nodes, shift, mark))?;
    }
    Ok(moved)
}

/// The marks whose cells were found among those that are looked for.
fn keep_found(mut marks: Vec<Mark>, wanted: &[Cell], found: &[bool]) -> Vec<Mark>
    requires rises { IsStrictlySortedBy cell_cmp wanted.now }
    requires as_many { length found.now ≡ length wanted.now }
    ensures { (test : Cell → Bool) → found.now ≡ map test wanted.now → result.items ≡ filter (λ mark. has cell_cmp mark.cell wanted.now && test mark.cell) marks.items }
{
    marks.retain(|mark| is_found(wanted, found, &mark.cell()));
    marks
}

/// The faces of a tetrahedron with its region.
fn sides_of(tet: &Tet) -> [Side; 4]
    ensures { result ≡ sides_of tet.now }
{
    let [a, b, c, d] = tet.faces();
    let region = (tet.phys(), tet.elem());
    [(a, region), (b, region), (c, region), (d, region)]
}

/// The faces of all tetrahedra with their regions.
fn sides(alloc: Global, tets: &[Tet]) -> Result<Vec<Side>, Memory>
    ensures { IfOk result (λ sides. sides.items ≡ flat_map sides_of tets.now) }
{
    let mut sides = Vec::with_capacity(alloc, tets.len().saturating_mul(4))?;
    for tet in tets {
        sides.extend_from_slice(&sides_of(tet))?;
    }
    Ok(sides)
}

fn side_mark(side: Side) -> Option<Mark>
    ensures { result ≡ mark_on side.0 (pos 0) (pos 0) }
{
    mark_on(&side.0, 0, 0)
}

/// Puts the marks with tag (0, 0) on these faces behind others.
fn push_side_marks(marks: &mut Vec<Mark>, sides: &[Side]) -> Result<(), Memory>
    ensures { OnOk result (marks.new.items ≡ marks.old.items ++ filter_map (λ side. mark_on side.0 (pos 0) (pos 0)) sides.now) }
{
    for side in sides {
        push_if_any(marks, side_mark(*side))?;
    }
    Ok(())
}

/// Puts the marks with tag (0, 0) on faces that no other tetrahedron of the same region has, in some
/// order, behind others.
fn push_outer_marks(alloc: Global, marks: &mut Vec<Mark>, tets: &[Tet]) -> Result<(), Memory>
    ensures { OnOk result ((test : CellMark → Bool) → list_any test marks.new.items ≡ list_any test (marks.old.items ++ outer_marks tets.now)) }
{
    let sides = sides(alloc, tets)?;
    let outer = lone(alloc, sides)?;
    push_side_marks(marks, outer.as_slice())
}

fn mark_set(marks: Vec<Mark>) -> Ascending<Mark>
    ensures { result ≡ ascending_of mark_cmp marks.items }
{
    Ascending::gather(marks)
}

/// The marks of the file on cells of these tetrahedra, and the number of the others.
fn marks_on(
    alloc: Global,
    mesh: &RawMesh,
    shift: u32,
    tets: &[Tet],
) -> Result<(Vec<Mark>, u64), Memory>
    requires { shift ≤ 30 }
    ensures marks { IfOk result (λ kept. kept.0.items ≡ filter_map (kept_mark (is_on tets.now) (raw mesh.now).nodes shift) (raw mesh.now).marks) }
    ensures loose { IfOk result (λ kept. kept.1 ≡ found_loose (raw mesh.now) shift tets.now) }
{
    let marks = mesh.marks.as_slice();
    let moved = shifted_marks(alloc, mesh.nodes.as_slice(), shift, marks)?;
    let cells = marked_cells(alloc, moved.as_slice())?;
    let found = found_on(alloc, cells.as_slice(), tets)?;
    let kept = keep_found(moved, cells.as_slice(), found.as_slice());
    let loose = (marks.len() - kept.len()) as u64;
    Ok((kept, loose))
}

/// The set of marks of the mesh with these tetrahedra, and the number of loose ones.
pub fn marks(
    alloc: Global,
    mesh: &RawMesh,
    shift: u32,
    tets: &[Tet],
) -> Result<(Ascending<Mark>, u64), Memory>
    requires { shift ≤ 30 }
    ensures marks { IfOk result (λ all. all.0 ≡ found_marks (raw mesh.now) shift tets.now) }
    ensures loose { IfOk result (λ all. all.1 ≡ found_loose (raw mesh.now) shift tets.now) }
{
    let (mut marks, loose) = marks_on(alloc, mesh, shift, tets)?;
    push_outer_marks(alloc, &mut marks, tets)?;
    Ok((mark_set(marks), loose))
}
