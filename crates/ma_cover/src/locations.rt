// Where a spot lies among tetrahedra.
ghost use Rattle.std.specs.Prelude.{◌≡◌, ◌<◌, ◌≤◌, IfSome, true, false, length};
ghost use Rattle.std.specs.List.{Any, position};
ghost use Rattle.ma_cover.specs.Inside.{are_alike, is_beside, is_inside};
ghost use Rattle.ma_cover.specs.Located.{IsLocated, IsOnFaceOf, first_around};
ghost use Rattle.ma_cover.specs.OnFaces.{IsOffFaces, IsOffFacesOf};
ghost use Rattle.ma_cover.specs.steps.Closed.{is_in_closed, is_not_across, is_on_face};

use crate::offsets::spot_side;
use crate::spot::Spot;
use ma_cells::Tet;
use ma_geom::{Place, vol6};

/// What is found of a spot among tetrahedra, which are named by their indices, counted from 0.
#[derive(Clone, Copy, Debug, PartialEq, Eq)]
pub enum Found {
    /// It lies on a closed face of one of them.
    Face,
    /// None has it within it.
    Outside,
    /// One has it within it.
    One(usize),
    /// Two or more have it within them, and these are the first two.
    Many(usize, usize),
}

/// Whether both are positive or both negative.
fn are_alike(x: i128, y: i128) -> bool
    ensures { result ≡ are_alike x y }
{
    (0 < x && 0 < y) || (x < 0 && y < 0)
}

/// Whether the spot lies strictly on the side of `apex` of the plane of `a`, `b` and `c`.
fn is_beside(a: Place, b: Place, c: Place, apex: Place, spot: &Spot) -> bool
    ensures { result ≡ is_beside a b c apex spot.now }
{
    are_alike(vol6(a, b, c, apex), spot_side(a, b, c, spot))
}

/// The same, or in this plane.
fn is_not_across(a: Place, b: Place, c: Place, apex: Place, spot: &Spot) -> bool
    ensures { result ≡ is_not_across a b c apex spot.now }
{
    spot_side(a, b, c, spot) == 0 || is_beside(a, b, c, apex, spot)
}

fn is_inside(spot: &Spot, corners: [Place; 4]) -> bool
    ensures { result ≡ is_inside spot.now corners }
{
    let [a, b, c, d] = corners;
    is_beside(b, c, d, a, spot)
        && is_beside(a, c, d, b, spot)
        && is_beside(a, b, d, c, spot)
        && is_beside(a, b, c, d, spot)
}

fn is_in_closed(spot: &Spot, corners: [Place; 4]) -> bool
    ensures { result ≡ is_in_closed spot.now corners }
{
    let [a, b, c, d] = corners;
    is_not_across(b, c, d, a, spot)
        && is_not_across(a, c, d, b, spot)
        && is_not_across(a, b, d, c, spot)
        && is_not_across(a, b, c, d, spot)
}

/// A spot lies on a closed face of a tetrahedron where it lies in the closed tetrahedron and not
/// within it: so no test within the plane of a face is needed.
fn is_on_face(spot: &Spot, corners: [Place; 4]) -> bool
    ensures { result ≡ is_on_face spot.now corners }
{
    is_in_closed(spot, corners) && !is_inside(spot, corners)
}

fn is_on_face_of(spot: &Spot, tet: &Tet) -> bool
    ensures on { result ≡ true → IsOnFaceOf spot.now tet.now.corners }
    ensures off { result ≡ false → IsOffFacesOf spot.now tet.now.corners }
{
    is_on_face(spot, tet.corners())
}

fn is_on_faces(tets: &[Tet], spot: &Spot) -> bool
    ensures on { result ≡ true → Any (λ tet. IsOnFaceOf spot.now tet.corners) tets.now }
    ensures off { result ≡ false → IsOffFaces spot.now tets.now }
{
    for tet in tets {
        if is_on_face_of(spot, tet) {
            return true;
        }
    }
    false
}

/// The index of the first of these tetrahedra that has the spot within it.
fn next_around(tets: &[Tet], spot: &Spot) -> Option<usize>
    ensures value { result ≡ position (λ tet. is_inside spot.now tet.corners) tets.now }
    ensures bound { IfSome result (λ k. k < length tets.now) }
{
    tets.iter().position(|tet| is_inside(spot, tet.corners()))
}

/// The index of the first tetrahedron from the index `n` on that has the spot within it.
fn first_around(tets: &[Tet], n: usize, spot: &Spot) -> Option<usize>
    requires { n ≤ length tets.now }
    ensures value { result ≡ first_around n spot.now tets.now }
    ensures bound { IfSome result (λ k. k < length tets.now) }
{
    match next_around(&tets[n..], spot) {
        Some(k) => Some(n + k),
        None => None,
    }
}

/// Where a spot lies among tetrahedra. Takes no memory. It looks at each tetrahedron at most twice.
pub fn locate(tets: &[Tet], spot: &Spot) -> Found
    ensures { IsLocated tets.now spot.now result }
{
    if is_on_faces(tets, spot) {
        return Found::Face;
    }
    match first_around(tets, 0, spot) {
        None => Found::Outside,
        Some(first) => match first_around(tets, first + 1, spot) {
            None => Found::One(first),
            Some(second) => Found::Many(first, second),
        },
    }
}
