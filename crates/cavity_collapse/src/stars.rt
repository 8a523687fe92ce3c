// Whether the tetrahedra around a vertex let it go.
ghost use Rattle.std.specs.Prelude.{◌≡◌, ◌∷◌, [], not, ◌&&◌, ◌||◌, true, false, IfNone, IfSome};
ghost use Rattle.std.specs.List.{list_all, list_any};
ghost use Rattle.ma_geom.specs.Coordinates.{place_cmp};
ghost use Rattle.ma_geom.specs.Signs.{same_sign, side_of};
ghost use Rattle.ma_cells.specs.Ascending.{are_ascending, has};
ghost use Rattle.ma_cells.specs.Faces.{holds_all};
ghost use Rattle.ma_cells.specs.Stars.{besides};
ghost use Rattle.ma_cells.specs.Tetrahedron.{are_corners};
ghost use Rattle.size_marks.specs.Field.{is_long, size_at};
ghost use Rattle.cavity_collapse.specs.Collapsing.{is_same};
ghost use Rattle.cavity_collapse.specs.Facing.{others_of};
ghost use Rattle.cavity_collapse.specs.Judging.{edges_stay_short, faces_are_seen, is_short_edge};
ghost use Rattle.cavity_collapse.specs.Steps.{edge_stays_short};

use crate::places::{has, is_same};
use ma_cells::Tet;
use ma_geom::{Place, side};
use size_marks::{SizeField, SizedPlace};

fn is_edge(star: &[Tet], a: Place, v: Place) -> bool
    ensures { result ≡ list_any (λ tet. holds_all tet.corners (a ∷ v ∷ [])) star.now }
{
    star.iter().any(|tet| tet.holds(&[a, v]))
}

/// Whether `a` and `v` are the ends of an edge, and it is short.
pub(crate) fn is_short_edge(field: &SizeField, star: &[Tet], a: Place, v: Place) -> bool
    ensures { result ≡ is_short_edge field.now star.now a v }
{
    !is_same(a, v) && field.is_short(a, v) && is_edge(star, a, v)
}

/// Whether `a` and `v` are the ends of an edge.
pub(crate) fn are_ends(star: &[Tet], a: Place, v: Place) -> bool
    ensures { result ≡ (not (is_same a v) && list_any (λ tet. holds_all tet.corners (a ∷ v ∷ [])) star.now) }
{
    !is_same(a, v) && is_edge(star, a, v)
}

fn face_of(p: Place, q: Place, r: Place, s: Place, a: Place) -> Option<[Place; 3]>
    requires { are_ascending place_cmp (p ∷ q ∷ r ∷ s ∷ []) ≡ true }
    ensures some { IfSome result (λ face. face ≡ besides (a ∷ []) (p ∷ q ∷ r ∷ s ∷ [])) }
    ensures none { IfNone result (has place_cmp a (p ∷ q ∷ r ∷ s ∷ []) ≡ false) }
{
    if is_same(p, a) {
        Some([q, r, s])
    } else if is_same(q, a) {
        Some([p, r, s])
    } else if is_same(r, a) {
        Some([p, q, s])
    } else if is_same(s, a) {
        Some([p, q, r])
    } else {
        None
    }
}

/// The corners of a tetrahedron across from its corner `a`, if it has it.
pub(crate) fn face_across(corners: [Place; 4], a: Place) -> Option<[Place; 3]>
    requires { are_ascending place_cmp corners ≡ true }
    ensures some { IfSome result (λ face. face ≡ besides (a ∷ []) corners) }
    ensures none { IfNone result (has place_cmp a corners ≡ false) }
{
    let [p, q, r, s] = corners;
    face_of(p, q, r, s, a)
}

fn is_seen(corners: [Place; 4], a: Place, v: Place) -> bool
    requires { are_ascending place_cmp corners ≡ true }
    ensures { result ≡ same_sign (side_of (besides (a ∷ []) corners) v) (side_of (besides (a ∷ []) corners) a) }
{
    match face_across(corners, a) {
        Some(face) => side(face, v) == side(face, a),
        None => true,
    }
}

fn face_is_seen(tet: &Tet, a: Place, v: Place) -> bool
    ensures { result ≡ (has place_cmp v tet.now.corners || same_sign (side_of (besides (a ∷ []) tet.now.corners) v) (side_of (besides (a ∷ []) tet.now.corners) a)) }
{
    let corners = tet.corners();
    has(&corners, v) || is_seen(corners, a, v)
}

/// Whether `v` lies on the side of `a` of each face across from `a` that lacks `v`.
pub(crate) fn faces_are_seen(star: &[Tet], a: Place, v: Place) -> bool
    ensures { result ≡ faces_are_seen star.now a v }
{
    star.iter().all(|tet| face_is_seen(tet, a, v))
}

fn is_long_from(field: &SizeField, v: Place, sized: SizedPlace, x: Place) -> bool
    requires { sized ≡ record { place = v; size = size_at field.now v } }
    ensures { result ≡ is_long field.now v x }
{
    field.is_long_between(sized, field.sized(x))
}

fn stays_short(
    field: &SizeField,
    corners: [Place; 4],
    a: Place,
    v: Place,
    sized: SizedPlace,
) -> bool
    requires { sized ≡ record { place = v; size = size_at field.now v } }
    ensures { result ≡ list_all (λ x. is_same x a || not (is_long field.now v x)) corners }
{
    corners
        .iter()
        .all(|x| is_same(*x, a) || !is_long_from(field, v, sized, *x))
}

fn edges_stay_short_of(field: &SizeField, tet: &Tet, a: Place, v: Place, sized: SizedPlace) -> bool
    requires { sized ≡ record { place = v; size = size_at field.now v } }
    ensures { result ≡ (has place_cmp v tet.now.corners || list_all (λ x. not (is_long field.now v x)) (besides (a ∷ []) tet.now.corners)) }
{
    let corners = tet.corners();
    has(&corners, v) || stays_short(field, corners, a, v, sized)
}

/// Whether no edge is long from `v` to another corner of a tetrahedron that lacks `v`. The size at
/// `v` is looked up once.
pub(crate) fn edges_stay_short(field: &SizeField, star: &[Tet], a: Place, v: Place) -> bool
    ensures { result ≡ edges_stay_short field.now star.now a v }
{
    let sized = field.sized(v);
    star.iter()
        .all(|tet| edges_stay_short_of(field, tet, a, v, sized))
}

fn has_or_lacks(tet: &Tet, v: Place, x: Place) -> bool
    ensures { result ≡ (has place_cmp v tet.now.corners || not (has place_cmp x tet.now.corners)) }
{
    let corners = tet.corners();
    has(&corners, v) || !has(&corners, x)
}

fn is_beside(star: &[Tet], v: Place, x: Place) -> bool
    ensures { result ≡ list_all (λ tet. has place_cmp v tet.corners || not (has place_cmp x tet.corners)) star.now }
{
    star.iter().all(|tet| has_or_lacks(tet, v, x))
}

fn edge_stays_short(field: &SizeField, star: &[Tet], v: Place, sized: SizedPlace, x: Place) -> bool
    requires { sized ≡ record { place = v; size = size_at field.now v } }
    ensures { result ≡ edge_stays_short field.now star.now v x }
{
    !is_long_from(field, v, sized, x) || is_beside(star, v, x)
}

fn all_stay_short(field: &SizeField, star: &[Tet], others: &[Place], v: Place) -> bool
    ensures { result ≡ list_all (edge_stays_short field.now star.now v) others.now }
{
    let sized = field.sized(v);
    others
        .iter()
        .all(|x| edge_stays_short(field, star, v, sized, *x))
}

/// The same as `edges_stay_short`, by the other corners around `a`, so that each is looked at once.
pub(crate) fn edges_to_others_stay_short(
    field: &SizeField,
    star: &[Tet],
    others: &[Place],
    a: Place,
    v: Place,
) -> bool
    requires { others.now ≡ others_of (a ∷ []) star.now }
    ensures { result ≡ edges_stay_short field.now star.now a v }
{
    all_stay_short(field, star, others, v)
}
