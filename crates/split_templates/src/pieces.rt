// Cells of any dimension by their corners, and their bisection.
ghost use Rattle.std.specs.Prelude.{◌≡◌, ◌+◌, ◌≤◌, ◌==◌, length, map, true, ◌&&◌, [], ◌∷◌, MatchOption, if◌then◌else◌};
ghost use Rattle.std.specs.Cmp.Lexicographic.{slice_cmp};
ghost use Rattle.std.specs.List.{list_all};
ghost use Rattle.std.specs.Ordering.{eq_by_cmp};
ghost use Rattle.arrayvec.specs.ArrayVec.{array_vec_len};
ghost use Rattle.ma_geom.specs.Coordinates.{place_cmp};
ghost use Rattle.ma_cells.specs.Ascending.{has};
ghost use Rattle.ma_cells.specs.Bisection.{replaced};
ghost use Rattle.split_templates.specs.steps.Kept.{keeps_corners};
ghost use Rattle.split_templates.specs.Pieces.{bisected_along, halves};
ghost use Rattle.split_templates.specs.steps.Putting.{put_all};

use crate::edges::Edge;
use crate::put::put;
use arrayvec::ArrayVec;
use ma_geom::{Place, midpoint};

fn has(corners: &[Place], corner: &Place) -> bool
    ensures { result ≡ has place_cmp corner.now corners.now }
{
    corners.contains(corner)
}

/// One corner, or another place where it is the one that is to go.
fn new_corner(corner: Place, old: Place, new: Place) -> Place
    ensures { result ≡ (if eq_by_cmp place_cmp old corner then new else corner) }
{
    if old == corner { new } else { corner }
}

fn replace_all(places: &mut [Place], old: Place, new: Place)
    ensures { places.new ≡ map (λ corner. if eq_by_cmp place_cmp old corner then new else corner) places.old }
{
    for place in places.iter_mut() {
        *place = new_corner(*place, old, new);
    }
}

/// The corners with another place in place of one.
fn replaced<const N: usize>(corners: [Place; N], old: Place, new: Place) -> [Place; N]
    requires { length (replaced old new corners) ≡ N }
    ensures { result ≡ replaced old new corners.entry }
{
    let mut places = corners;
    replace_all(&mut places, old, new);
    places.sort_unstable();
    places
}

/// The midpoint of an edge that the cell has. None where it doesn't have the edge, or this has no
/// midpoint with whole coordinates.
fn middle(a: Place, b: Place, corners: &[Place]) -> Option<Place>
    ensures { MatchOption result (halves (a ∷ b ∷ []) corners.now ≡ corners.now ∷ []) (λ m. halves (a ∷ b ∷ []) corners.now ≡ replaced a m corners.now ∷ replaced b m corners.now ∷ []) }
{
    if has(corners, &a) && has(corners, &b) {
        midpoint(a, b)
    } else {
        None
    }
}

/// Puts among these the pieces of a segment that is bisected at the edges one after the other.
pub(crate) fn cut_seg(edges: &[Edge], corners: [Place; 2], pieces: &mut ArrayVec<[Place; 2], 2>)
    requires kept { keeps_corners (map (λ edge. edge.ends) edges.now) corners ≡ true }
    requires room { array_vec_len pieces.old + length (bisected_along (map (λ edge. edge.ends) edges.now) (corners ∷ [])) ≤ 2 }
    ensures { pieces.new.items ≡ put_all (slice_cmp place_cmp) (bisected_along (map (λ edge. edge.ends) edges.now) (corners ∷ [])) pieces.old.items }
{
    match edges {
        [] => put(pieces, corners),
        [first, rest @ ..] => {
            let [a, b] = first.ends;
            match middle(a, b, &corners) {
                Some(m) => {
                    let one = replaced(corners, a, m);
                    let other = replaced(corners, b, m);
                    cut_seg(rest, other, pieces);
                    cut_seg(rest, one, pieces);
                }
                None => cut_seg(rest, corners, pieces),
            }
        }
    }
}

/// Puts among these the pieces of a triangle that is bisected at the edges one after the other.
pub(crate) fn cut_tri(edges: &[Edge], corners: [Place; 3], pieces: &mut ArrayVec<[Place; 3], 4>)
    requires kept { keeps_corners (map (λ edge. edge.ends) edges.now) corners ≡ true }
    requires room { array_vec_len pieces.old + length (bisected_along (map (λ edge. edge.ends) edges.now) (corners ∷ [])) ≤ 4 }
    ensures { pieces.new.items ≡ put_all (slice_cmp place_cmp) (bisected_along (map (λ edge. edge.ends) edges.now) (corners ∷ [])) pieces.old.items }
{
    match edges {
        [] => put(pieces, corners),
        [first, rest @ ..] => {
            let [a, b] = first.ends;
            match middle(a, b, &corners) {
                Some(m) => {
                    let one = replaced(corners, a, m);
                    let other = replaced(corners, b, m);
                    cut_tri(rest, other, pieces);
                    cut_tri(rest, one, pieces);
                }
                None => cut_tri(rest, corners, pieces),
            }
        }
    }
}

/// Puts among these the pieces of a tetrahedron that is bisected at the edges one after the other.
pub(crate) fn cut_tet(edges: &[Edge], corners: [Place; 4], pieces: &mut ArrayVec<[Place; 4], 8>)
    requires kept { keeps_corners (map (λ edge. edge.ends) edges.now) corners ≡ true }
    requires room { array_vec_len pieces.old + length (bisected_along (map (λ edge. edge.ends) edges.now) (corners ∷ [])) ≤ 8 }
    ensures { pieces.new.items ≡ put_all (slice_cmp place_cmp) (bisected_along (map (λ edge. edge.ends) edges.now) (corners ∷ [])) pieces.old.items }
{
    match edges {
        [] => put(pieces, corners),
        [first, rest @ ..] => {
            let [a, b] = first.ends;
            match middle(a, b, &corners) {
                Some(m) => {
                    let one = replaced(corners, a, m);
                    let other = replaced(corners, b, m);
                    cut_tet(rest, other, pieces);
                    cut_tet(rest, one, pieces);
                }
                None => cut_tet(rest, corners, pieces),
            }
        }
    }
}
