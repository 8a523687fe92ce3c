// The pieces of the tetrahedra and marks of a mesh.
ghost use Rattle.std.specs.Prelude.{◌≡◌, ◌++◌, true, IfOk, OnOk, false, flat_map, map};
ghost use Rattle.ma_geom.specs.Coordinates.{place_cmp};
ghost use Rattle.ma_cells.specs.Ascending.{are_ascending};
ghost use Rattle.ma_cells.specs.Cells.{is_cell};
ghost use Rattle.ma_cells.specs.declared.cell.Cell.TheVariants.{Seg, Tri};
ghost use Rattle.refinement.specs.Refinement.{long_edges, refine, refined_mark, refined_tet};
ghost use Rattle.refinement.specs.steps.Recent.{AreRecent};
ghost use Rattle.split_templates.specs.Pieces.{is_straight, pieces_of};

use crate::recent::{Recent, first_entries, marked};
use ma_cells::{Batch, Cell, Mark, Tet};
use ma_geom::{Memory, Place, collinear};
use size_marks::SizeField;
use split_templates::{children, marked_seg, marked_tri, split_seg, split_tri};
use std::alloc::Global;

fn push_pieces(
    pieces: &mut Vec<Tet>,
    entries: &mut [Recent],
    tet: &Tet,
    field: &SizeField,
) -> Result<(), Memory>
    requires { AreRecent field.now entries.old }
    ensures pieces { OnOk result (pieces.new.items ≡ pieces.old.items ++ refined_tet field.now tet.now) }
    ensures recent { AreRecent field.now entries.new }
{
    let mask = marked(entries, field, tet);
    pieces.extend_from_slice(children(tet, mask).as_slice())?;
    Ok(())
}

/// The pieces of tetrahedra that are bisected at their long edges.
fn tet_pieces(alloc: Global, tets: &[Tet], field: &SizeField) -> Result<Vec<Tet>, Memory>
    ensures { IfOk result (λ pieces. pieces.items ≡ flat_map (refined_tet field.now) tets.now) }
{
    let mut entries = first_entries(alloc, field)?;
    let mut pieces = Vec::with_capacity(alloc, tets.len())?;
    for tet in tets {
        push_pieces(&mut pieces, &mut entries, tet, field)?;
    }
    Ok(pieces)
}

/// A mark on a segment, with the tag of another mark.
fn segment(mark: &Mark, s: [Place; 2]) -> Mark
    requires { are_ascending place_cmp s ≡ true }
    ensures { result ≡ record mark.now { cell = Seg s } }
{
    Mark::new(Cell::Seg(s), mark.phys(), mark.elem())
}

/// A mark on a triangle, with the tag of another mark.
fn triangle(mark: &Mark, t: [Place; 3]) -> Mark
    requires { are_ascending place_cmp t ≡ true }
    ensures { result ≡ record mark.now { cell = Tri t } }
{
    Mark::new(Cell::Tri(t), mark.phys(), mark.elem())
}

/// The halves of a segment that is long, else the segment, with the tag of a mark.
fn push_segments(
    pieces: &mut Vec<Mark>,
    mark: &Mark,
    s: [Place; 2],
    field: &SizeField,
) -> Result<(), Memory>
    requires { is_cell (Seg s) ≡ true }
    ensures { OnOk result (pieces.new.items ≡ pieces.old.items ++ map (λ half. record mark.now { cell = Seg half }) (pieces_of (long_edges field.now s) s)) }
{
    let halves = split_seg(s, marked_seg(s, field));
    let cells = halves.as_slice();
    for half in cells {
        pieces.push(segment(mark, *half))?;
    }
    Ok(())
}

/// The pieces of a triangle whose corners aren't on one line, with the tag of a mark.
fn push_triangles(
    pieces: &mut Vec<Mark>,
    mark: &Mark,
    t: [Place; 3],
    field: &SizeField,
) -> Result<(), Memory>
    requires cell { is_cell (Tri t) ≡ true }
    requires straight { is_straight t ≡ false }
    ensures { OnOk result (pieces.new.items ≡ pieces.old.items ++ map (λ part. record mark.now { cell = Tri part }) (pieces_of (long_edges field.now t) t)) }
{
    let parts = split_tri(t, marked_tri(t, field));
    let cells = parts.as_slice();
    for part in cells {
        pieces.push(triangle(mark, *part))?;
    }
    Ok(())
}

fn is_straight(t: [Place; 3]) -> bool
    ensures { result ≡ is_straight t }
{
    collinear(t[0], t[1], t[2])
}

fn push_marks(pieces: &mut Vec<Mark>, mark: &Mark, field: &SizeField) -> Result<(), Memory>
    ensures { OnOk result (pieces.new.items ≡ pieces.old.items ++ refined_mark field.now mark.now) }
{
    match mark.cell() {
        Cell::Seg(s) => push_segments(pieces, mark, s, field),
        Cell::Tri(t) if !is_straight(t) => push_triangles(pieces, mark, t, field),
        _ => {
            pieces.push(*mark)?;
            Ok(())
        }
    }
}

/// The pieces of marks that are bisected at their long edges.
fn mark_pieces(alloc: Global, marks: &[Mark], field: &SizeField) -> Result<Vec<Mark>, Memory>
    ensures { IfOk result (λ pieces. pieces.items ≡ flat_map (refined_mark field.now) marks.now) }
{
    let mut pieces = Vec::with_capacity(alloc, marks.len())?;
    for mark in marks {
        push_marks(&mut pieces, mark, field)?;
    }
    Ok(pieces)
}

/// The mesh of all pieces of a mesh's tetrahedra and marks, each bisected at its own long edges, the
/// longest first. Takes time linear in what comes of it, but for a sort.
pub fn refined(alloc: Global, mesh: &Batch, field: &SizeField) -> Result<Batch, Memory>
    ensures { IfOk result (λ pieces. pieces ≡ refine field.now mesh.now) }
{
    let tets = tet_pieces(alloc, mesh.tets.as_slice(), field)?;
    let marks = mark_pieces(alloc, mesh.marks.as_slice(), field)?;
    Batch::gather(tets, marks)
}
