// Whether marked triangles let a vertex go.
ghost use Rattle.std.specs.Prelude.{◌≡◌, ◌∷◌, [], not, ◌&&◌, ◌||◌};
ghost use Rattle.std.specs.List.{list_all, list_any};
ghost use Rattle.ma_cells.specs.Cells.{corners_of};
ghost use Rattle.ma_cells.specs.Faces.{holds_all};
ghost use Rattle.cavity_collapse.specs.Steps.{edge_goes_on, lies_beyond, surface_goes_on, turn_is_kept, wing_within};
ghost use Rattle.cavity_collapse.specs.Surfaces.{across, corner_beyond, corners_across, is_triangle_at, lies_in_plane, planes_are_kept, surfaces_are_kept, tagged_third, third, turns_are_kept};

use crate::curves::same_tag;
use crate::places::{has, is_same};
use ma_cells::{Cell, Mark};
use ma_geom::{Place, collinear, coplanar, same_turn};

fn lies_in_plane(v: Place, corners: [Place; 3]) -> bool
    ensures { result ≡ lies_in_plane v corners }
{
    let [p, q, r] = corners;
    coplanar(p, q, r, v)
}

fn plane_is_kept(a: Place, v: Place, cell: Cell) -> bool
    ensures { result ≡ (not (is_triangle_at a cell) || lies_in_plane v (corners_of cell)) }
{
    match cell {
        Cell::Tri(corners) => !has(&corners, a) || lies_in_plane(v, corners),
        Cell::Point(_) | Cell::Seg(_) => true,
    }
}

/// Whether `v` lies in the plane of each marked triangle at `a`.
pub(crate) fn planes_are_kept(marks: &[Mark], a: Place, v: Place) -> bool
    ensures { result ≡ planes_are_kept marks.now a v }
{
    marks.iter().all(|m| plane_is_kept(a, v, m.cell()))
}

fn corners_across(a: Place, corners: [Place; 3]) -> Option<(Place, Place)>
    ensures { result ≡ corners_across a corners }
{
    let [p, q, r] = corners;
    if is_same(p, a) {
        Some((q, r))
    } else if is_same(q, a) {
        Some((p, r))
    } else if is_same(r, a) {
        Some((p, q))
    } else {
        None
    }
}

pub(crate) fn across(a: Place, cell: Cell) -> Option<(Place, Place)>
    ensures { result ≡ across a cell }
{
    match cell {
        Cell::Tri(corners) => corners_across(a, corners),
        _ => None,
    }
}

fn is_edge(ends: [Place; 2], a: Place, x: Place) -> bool
    ensures { result ≡ holds_all ends (a ∷ x ∷ []) }
{
    has(&ends, a) && has(&ends, x)
}

fn corner_beyond(a: Place, x: Place, corners: [Place; 3]) -> Option<Place>
    ensures { result ≡ corner_beyond a x corners }
{
    let [p, q, r] = corners;
    if is_edge([p, q], a, x) {
        Some(r)
    } else if is_edge([p, r], a, x) {
        Some(q)
    } else if is_edge([q, r], a, x) {
        Some(p)
    } else {
        None
    }
}

fn third(a: Place, x: Place, cell: Cell) -> Option<Place>
    ensures { result ≡ third a x cell }
{
    match cell {
        Cell::Tri(corners) => corner_beyond(a, x, corners),
        _ => None,
    }
}

/// The third corner of a triangle on the edge from `a` to `x` with the tag of `m`.
fn tagged_third(a: Place, x: Place, m: &Mark, n: &Mark) -> Option<Place>
    ensures { result ≡ tagged_third a x m.now n.now }
{
    if same_tag(m, n) {
        third(a, x, n.cell())
    } else {
        None
    }
}

fn wing_within(a: Place, x: Place, y: Place, z: Place, m: &Mark, n: &Mark) -> bool
    ensures { result ≡ wing_within a x y z m.now n.now }
{
    match tagged_third(a, x, m, n) {
        Some(w) => !coplanar(a, x, y, w) || is_same(w, y) || is_same(w, z),
        None => true,
    }
}

fn wings_within(marks: &[Mark], a: Place, x: Place, y: Place, z: Place, m: &Mark) -> bool
    ensures { result ≡ list_all (wing_within a x y z m.now) marks.now }
{
    marks.iter().all(|n| wing_within(a, x, y, z, m, n))
}

fn lies_beyond(marks: &[Mark], a: Place, x: Place, y: Place, m: &Mark, n: &Mark) -> bool
    ensures { result ≡ lies_beyond marks.now a x y m.now n.now }
{
    match tagged_third(a, x, m, n) {
        Some(z) => {
            coplanar(a, x, y, z)
                && same_turn([a, x, y], [x, a, z])
                && wings_within(marks, a, x, y, z, m)
        }
        None => false,
    }
}

pub(crate) fn some_lie_beyond(marks: &[Mark], a: Place, x: Place, y: Place, m: &Mark) -> bool
    ensures { result ≡ list_any (lies_beyond marks.now a x y m.now) marks.now }
{
    marks.iter().any(|n| lies_beyond(marks, a, x, y, m, n))
}

fn edge_goes_on(marks: &[Mark], a: Place, v: Place, m: &Mark, x: Place, y: Place) -> bool
    ensures { result ≡ edge_goes_on marks.now a v m.now x y }
{
    collinear(a, x, v) || some_lie_beyond(marks, a, x, y, m)
}

fn surface_goes_on(marks: &[Mark], a: Place, v: Place, m: &Mark) -> bool
    ensures { result ≡ surface_goes_on marks.now a v m.now }
{
    match across(a, m.cell()) {
        Some((x, y)) => edge_goes_on(marks, a, v, m, x, y) && edge_goes_on(marks, a, v, m, y, x),
        None => true,
    }
}

/// Whether the marked triangles at `a` have, for each tag and each plane, no rim at `a` but along
/// the line to `v`.
#[tactic(auto, using(crate::proofs::Stepwise::surfaces_by_steps))]
pub(crate) fn surfaces_are_kept(marks: &[Mark], a: Place, v: Place) -> bool
    ensures { result ≡ surfaces_are_kept marks.now a v }
{
    all_go_on(marks, a, v)
}

fn all_go_on(marks: &[Mark], a: Place, v: Place) -> bool
    ensures { result ≡ list_all (surface_goes_on marks.now a v) marks.now }
{
    marks.iter().all(|m| surface_goes_on(marks, a, v, m))
}

fn turn_is_kept(a: Place, v: Place, m: &Mark) -> bool
    ensures { result ≡ turn_is_kept a v m.now }
{
    match across(a, m.cell()) {
        Some((x, y)) => has(&[x, y], v) || same_turn([a, x, y], [v, x, y]),
        None => true,
    }
}

fn all_keep_their_turn(marks: &[Mark], a: Place, v: Place) -> bool
    ensures { result ≡ list_all (turn_is_kept a v) marks.now }
{
    marks.iter().all(|m| turn_is_kept(a, v, m))
}

/// Whether each marked triangle at `a` without `v` turns the same way with `v` in the place of `a`.
#[tactic(auto, using(crate::proofs::Stepwise::turns_by_steps))]
pub(crate) fn turns_are_kept(marks: &[Mark], a: Place, v: Place) -> bool
    ensures { result ≡ turns_are_kept marks.now a v }
{
    all_keep_their_turn(marks, a, v)
}
