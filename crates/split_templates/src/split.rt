// The pieces of segments, triangles and tetrahedra.
ghost use Rattle.std.specs.Prelude.{◌≡◌, false, true};
ghost use Rattle.std.specs.List.{list_all};
ghost use Rattle.ma_geom.specs.Coordinates.{place_cmp};
ghost use Rattle.ma_cells.specs.Ascending.{are_ascending};
ghost use Rattle.ma_cells.specs.Faces.{edges_of};
ghost use Rattle.ma_cells.specs.Tetrahedron.{are_corners};
ghost use Rattle.split_templates.specs.Edges.{chosen};
ghost use Rattle.split_templates.specs.Pieces.{is_straight, pieces_of, tets_of};

use crate::edges::{EdgeMask, in_order, tri_edges};
use crate::pieces::{cut_seg, cut_tet, cut_tri};
use arrayvec::ArrayVec;
use ma_cells::Tet;
use ma_geom::Place;

/// The pieces of a segment, in ascending order: its halves if bit 0 is set, else the segment alone.
/// Higher bits are not looked at, and a midpoint that isn't whole leaves the segment as it is.
/// Takes no memory.
pub fn split_seg(s: [Place; 2], mask: u8) -> ArrayVec<[Place; 2], 2>
    requires { are_ascending place_cmp s ≡ true }
    ensures { result.items ≡ pieces_of (chosen mask (edges_of s)) s }
{
    let mut pieces = ArrayVec::new();
    cut_seg(in_order(&[s], mask).as_slice(), s, &mut pieces);
    pieces
}

/// The pieces of a triangle that is bisected at its marked edges, in ascending order. Bits 0, 1 and 2
/// mark the edges 01, 02 and 12. Higher bits are not looked at, and a midpoint that isn't whole
/// leaves an edge as it is. Takes no memory.
pub fn split_tri(t: [Place; 3], mask: u8) -> ArrayVec<[Place; 3], 4>
    requires { is_straight t ≡ false }
    ensures { result.items ≡ pieces_of (chosen mask (edges_of t)) t }
{
    let mut pieces = ArrayVec::new();
    cut_tri(in_order(&tri_edges(t), mask).as_slice(), t, &mut pieces);
    pieces
}

/// The corners of the pieces of a tetrahedron.
fn pieces_of(t: &Tet, mask: EdgeMask) -> ArrayVec<[Place; 4], 8>
    ensures value { result.items ≡ pieces_of (chosen mask (edges_of t.now.corners)) t.now.corners }
    ensures corners { list_all are_corners result.items ≡ true }
{
    let mut pieces = ArrayVec::new();
    cut_tet(
        in_order(&t.edges(), mask).as_slice(),
        t.corners(),
        &mut pieces,
    );
    pieces
}

/// A tetrahedron with the region of another.
fn piece_of(t: &Tet, corners: [Place; 4]) -> Tet
    requires { are_corners corners ≡ true }
    ensures { result ≡ record t.now { corners = corners } }
{
    match Tet::new(corners, t.phys(), t.elem()) {
        Some(piece) => piece,
        None => unreachable!(),
    }
}

/// The pieces of a tetrahedron that is bisected at its marked edges, in ascending order. Each has
/// its region. Higher bits are not looked at, and a midpoint that isn't whole leaves an edge as it
/// is. Takes no memory.
pub fn children(t: &Tet, mask: EdgeMask) -> ArrayVec<Tet, 8>
    ensures { result.items ≡ tets_of (chosen mask (edges_of t.now.corners)) t.now }
{
    let pieces = pieces_of(t, mask);
    let cells = pieces.as_slice();
    let mut tets = ArrayVec::new();
    for corners in cells {
        tets.push(piece_of(t, *corners));
    }
    tets
}
