// Edges: which are marked, and their order.
ghost use Rattle.std.specs.Prelude.{◌≡◌, ◌<◌, ◌≤◌, ◌^◌, ◌∷◌, [], length, map, filter};
ghost use Rattle.arrayvec.specs.ArrayVec.{array_vec_len};
ghost use Rattle.ma_cells.specs.Ascending.{ascending_of};
ghost use Rattle.ma_cells.specs.Faces.{edges_of};
ghost use Rattle.size_marks.specs.Field.{size_at};
ghost use Rattle.split_templates.specs.Edges.{chosen, edge_cmp, is_long_edge, mask_of};
ghost use Rattle.split_templates.specs.steps.Ranks.{ranked};

use crate::put::put;
use arrayvec::ArrayVec;
use ma_cells::Tet;
use ma_geom::{Place, len2};
use size_marks::{SizeField, SizedPlace};

/// A set of edges of a cell: bit i stands for edge i, in the order 01, 02, 03, 12, 13, 23.
pub type EdgeMask = u8;

/// An edge by its ends. The longer edge is the lesser one, and of two of one length the one with
/// the lesser ends.
#[derive(Clone, Copy, Default, PartialEq, Eq, PartialOrd, Ord)]
pub(crate) struct Edge {
    // the squared length, negative
    rank: i128,
    pub(crate) ends: [Place; 2],
}

impl Edge {
    fn new(ends: [Place; 2]) -> Edge
        ensures { result ≡ ranked ends }
    {
        Edge {
            rank: -len2(ends[0], ends[1]),
            ends,
        }
    }
}

/// The marked ones of these edges, the longest first.
pub(crate) fn in_order(edges: &[[Place; 2]], mask: u8) -> ArrayVec<Edge, 6>
    requires { length edges.now ≤ 6 }
    ensures value { result.items ≡ map ranked (ascending_of edge_cmp (chosen mask edges.now)) }
    ensures bound { array_vec_len result ≤ length edges.now }
{
    match edges {
        [] => ArrayVec::new(),
        [first, rest @ ..] => {
            let mut sorted = in_order(rest, mask / 2);
            if mask % 2 == 1 {
                put(&mut sorted, Edge::new(*first));
            }
            sorted
        }
    }
}

/// The bits of those that are true.
fn bits_of(long: &[bool]) -> EdgeMask
    requires { length long.now ≤ 6 }
    ensures value { result ≡ mask_of (λ is_long. is_long) long.now }
    ensures bound { result < 2 ^ length long.now }
{
    match long {
        [] => 0,
        [first, rest @ ..] => u8::from(*first) + 2 * bits_of(rest),
    }
}

/// Which pairs of four places, whose sizes are those of the field, are long edges, in the order 01,
/// 02, 03, 12, 13, 23.
fn are_long(
    a: SizedPlace,
    b: SizedPlace,
    c: SizedPlace,
    d: SizedPlace,
    field: &SizeField,
) -> [bool; 6]
    requires a_sized { a.size ≡ size_at field.now a.place }
    requires b_sized { b.size ≡ size_at field.now b.place }
    requires c_sized { c.size ≡ size_at field.now c.place }
    requires d_sized { d.size ≡ size_at field.now d.place }
    ensures { result ≡ map (is_long_edge field.now) (edges_of (a.place ∷ b.place ∷ c.place ∷ d.place ∷ [])) }
{
    [
        field.is_long_between(a, b),
        field.is_long_between(a, c),
        field.is_long_between(a, d),
        field.is_long_between(b, c),
        field.is_long_between(b, d),
        field.is_long_between(c, d),
    ]
}

/// The long edges of a tetrahedron by its corners, whose sizes are those of the field, so that none
/// is looked up. Takes no memory.
pub fn marked_between(
    a: SizedPlace,
    b: SizedPlace,
    c: SizedPlace,
    d: SizedPlace,
    field: &SizeField,
) -> EdgeMask
    requires a_sized { a.size ≡ size_at field.now a.place }
    requires b_sized { b.size ≡ size_at field.now b.place }
    requires c_sized { c.size ≡ size_at field.now c.place }
    requires d_sized { d.size ≡ size_at field.now d.place }
    ensures value { result ≡ mask_of (is_long_edge field.now) (edges_of (a.place ∷ b.place ∷ c.place ∷ d.place ∷ [])) }
    ensures bound { result < 64 }
    ensures long { chosen result (edges_of (a.place ∷ b.place ∷ c.place ∷ d.place ∷ [])) ≡ filter (is_long_edge field.now) (edges_of (a.place ∷ b.place ∷ c.place ∷ d.place ∷ [])) }
{
    bits_of(&are_long(a, b, c, d, field))
}

/// The long edges of a tetrahedron. Takes no memory.
pub fn marked(t: &Tet, field: &SizeField) -> EdgeMask
    ensures value { result ≡ mask_of (is_long_edge field.now) (edges_of t.now.corners) }
    ensures bound { result < 64 }
    ensures long { chosen result (edges_of t.now.corners) ≡ filter (is_long_edge field.now) (edges_of t.now.corners) }
{
    let [a, b, c, d] = t.corners();
    marked_between(
        field.sized(a),
        field.sized(b),
        field.sized(c),
        field.sized(d),
        field,
    )
}

/// The pairs of these places, each in their order.
pub(crate) fn tri_edges(corners: [Place; 3]) -> [[Place; 2]; 3]
    ensures { result ≡ edges_of corners }
{
    let [a, b, c] = corners;
    [[a, b], [a, c], [b, c]]
}

/// Which pairs of these places are long edges, in the order 01, 02, 12.
fn are_long_tri(corners: [Place; 3], field: &SizeField) -> [bool; 3]
    ensures { result ≡ map (is_long_edge field.now) (edges_of corners) }
{
    let [a, b, c] = corners;
    let (a, b, c) = (field.sized(a), field.sized(b), field.sized(c));
    [
        field.is_long_between(a, b),
        field.is_long_between(a, c),
        field.is_long_between(b, c),
    ]
}

/// The long edges of a triangle: bits 0, 1 and 2 stand for the edges 01, 02 and 12. Takes no memory.
pub fn marked_tri(t: [Place; 3], field: &SizeField) -> EdgeMask
    ensures bound { result < 8 }
    ensures long { chosen result (edges_of t) ≡ filter (is_long_edge field.now) (edges_of t) }
{
    bits_of(&are_long_tri(t, field))
}

/// Bit 0 if the segment is long. Takes no memory.
pub fn marked_seg(s: [Place; 2], field: &SizeField) -> EdgeMask
    ensures bound { result < 2 }
    ensures long { chosen result (edges_of s) ≡ filter (is_long_edge field.now) (edges_of s) }
{
    bits_of(&[field.is_long(s[0], s[1])])
}
