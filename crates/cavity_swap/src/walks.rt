// The walk along the edges across from an edge, and the test that it goes round.
ghost use Rattle.std.specs.Prelude.{◌≡◌, ◌+◌, ◌++◌, ◌≤◌, length, MatchOption, ◌==◌, nat_le, ◌&&◌, ◌∷◌};
ghost use Rattle.std.specs.List.{list_all, list_any};
ghost use Rattle.std.specs.Ordering.{is_lt};
ghost use Rattle.arrayvec.specs.ArrayVec.{array_vec_len};
ghost use Rattle.ma_geom.specs.Coordinates.{place_cmp};
ghost use Rattle.ma_cells.specs.Ascending.{are_distinct};
ghost use Rattle.cavity_collapse.specs.Curves.{end_across};
ghost use Rattle.cavity_swap.specs.Rings.{IsNoRing, IsRing, closes, is_along, is_path, is_ring, joins, last_of, starts_least};
ghost use Rattle.cavity_swap.specs.Steps.{followed, least_corner, least_end, least_next, lesser, next, unless_same, walked, walked_from};

use crate::places::{has, is_below, is_same};
use arrayvec::ArrayVec;
use ma_geom::Place;

fn joins(p: Place, q: Place, edge: [Place; 2]) -> bool
    ensures { result ≡ joins p q edge }
{
    let [x, y] = edge;
    (is_same(x, p) && is_same(y, q)) || (is_same(x, q) && is_same(y, p))
}

fn end_across(c: Place, edge: [Place; 2]) -> Option<Place>
    ensures { result ≡ end_across c edge }
{
    let [p, q] = edge;
    if is_same(p, c) {
        Some(q)
    } else if is_same(q, c) {
        Some(p)
    } else {
        None
    }
}

fn unless_same(found: Option<Place>, p: Place, other: Option<Place>) -> Option<Place>
    ensures { result ≡ unless_same found p other }
{
    match found {
        None => other,
        Some(d) => { if is_same(d, p) { other } else { Some(d) } }
    }
}

/// The place after p and c: the first that an edge joins with c, besides p.
fn next(p: Place, c: Place, edges: &[[Place; 2]]) -> Option<Place>
    ensures { result ≡ next p c edges.now }
{
    match edges {
        [] => None,
        [edge, rest @ ..] => unless_same(end_across(c, *edge), p, next(p, c, rest)),
    }
}

fn lesser(a: Option<Place>, b: Option<Place>) -> Option<Place>
    ensures { result ≡ lesser a b }
{
    match (a, b) {
        (None, b) => b,
        (a, None) => a,
        (Some(p), Some(q)) => { if q < p { Some(q) } else { Some(p) } }
    }
}

fn least_end(edge: [Place; 2]) -> Option<Place>
    ensures { result ≡ least_end edge }
{
    let [x, y] = edge;
    lesser(Some(x), Some(y))
}

fn least_corner(edges: &[[Place; 2]]) -> Option<Place>
    ensures { result ≡ least_corner edges.now }
{
    match edges {
        [] => None,
        [edge, rest @ ..] => lesser(least_end(*edge), least_corner(rest)),
    }
}

fn least_next(c: Place, edges: &[[Place; 2]]) -> Option<Place>
    ensures { result ≡ least_next c edges.now }
{
    match edges {
        [] => None,
        [edge, rest @ ..] => lesser(end_across(c, *edge), least_next(c, rest)),
    }
}

fn follow(
    ring: &mut ArrayVec<Place, 7>,
    fuel: &[[Place; 2]],
    edges: &[[Place; 2]],
    c: Place,
    n: Option<Place>,
)
    requires { array_vec_len ring.old + length fuel.now ≤ 7 }
    ensures value { ring.new.items ≡ ring.old.items ++ followed fuel.now edges.now c n }
{
    match fuel {
        [] => {}
        [_, rest @ ..] => {
            if let Some(n) = n {
                ring.push(n);
                follow(ring, rest, edges, n, next(c, n, edges));
            }
        }
    }
}

fn walk_from(fuel: &[[Place; 2]], edges: &[[Place; 2]]) -> ArrayVec<Place, 7>
    requires { length fuel.now + 2 ≤ 7 }
    ensures { result.items ≡ walked_from fuel.now edges.now (least_corner edges.now) }
{
    let mut ring = ArrayVec::new();
    if let Some(a) = least_corner(edges)
        && let Some(b) = least_next(a, edges)
    {
        ring.push(a);
        ring.push(b);
        follow(&mut ring, fuel, edges, b, next(a, b, edges));
    }
    ring
}

fn walked(edges: &[[Place; 2]]) -> ArrayVec<Place, 7>
    requires { length edges.now ≤ 7 }
    ensures { result.items ≡ walked edges.now }
{
    match edges {
        [_, _, fuel @ ..] => walk_from(fuel, edges),
        _ => ArrayVec::new(),
    }
}

fn is_joined(p: Place, q: Place, edges: &[[Place; 2]]) -> bool
    ensures { result ≡ list_any (joins p q) edges.now }
{
    edges.iter().any(|edge| joins(p, q, *edge))
}

fn last_of(p: Place, rest: &[Place]) -> Place
    ensures { result ≡ last_of p rest.now }
{
    match rest {
        [] => p,
        [q, rest @ ..] => last_of(*q, rest),
    }
}

fn is_path(edges: &[[Place; 2]], end: Place, path: &[Place]) -> bool
    ensures { result ≡ is_path edges.now end path.now }
{
    match path {
        [] => true,
        [p] => is_joined(*p, end, edges),
        [p, q, ..] => is_joined(*p, *q, edges) && is_path(edges, end, &path[1..]),
    }
}

fn is_along(end: Place, path: &[Place], edge: [Place; 2]) -> bool
    ensures { result ≡ is_along end path.now edge }
{
    match path {
        [] => false,
        [p] => joins(*p, end, edge),
        [p, q, ..] => joins(*p, *q, edge) || is_along(end, &path[1..], edge),
    }
}

fn are_along(edges: &[[Place; 2]], end: Place, path: &[Place]) -> bool
    ensures { result ≡ list_all (is_along end path.now) edges.now }
{
    edges.iter().all(|edge| is_along(end, path, *edge))
}

fn is_first(p: Place, rest: &[Place]) -> bool
    ensures { result ≡ list_all (λ r. is_lt (place_cmp p r)) rest.now }
{
    rest.iter().all(|r| is_below(p, *r))
}

fn are_distinct(places: &[Place]) -> bool
    ensures { result ≡ are_distinct place_cmp places.now }
{
    match places {
        [] => true,
        [first, rest @ ..] => !has(rest, *first) && are_distinct(rest),
    }
}

fn is_least(p: Place, q: Place, rest: &[Place]) -> bool
    ensures { result ≡ list_all (λ r. is_lt (place_cmp p r)) (q ∷ rest.now) }
{
    is_below(p, q) && is_first(p, rest)
}

fn starts(p: Place, q: Place, rest: &[Place]) -> bool
    ensures { result ≡ starts_least (p ∷ q ∷ rest.now) }
{
    is_least(p, q, rest) && is_below(q, last_of(q, rest))
}

fn starts_least(corners: &[Place]) -> bool
    ensures { result ≡ starts_least corners.now }
{
    match corners {
        [p, q, rest @ ..] => starts(*p, *q, rest),
        _ => false,
    }
}

fn closes(edges: &[[Place; 2]], corners: &[Place]) -> bool
    ensures { result ≡ closes edges.now corners.now }
{
    match corners {
        [] => false,
        [p, ..] => is_path(edges, *p, corners) && are_along(edges, *p, corners),
    }
}

fn has_as_many(edges: &[[Place; 2]], corners: &[Place]) -> bool
    ensures { result ≡ (nat_le 3 (length corners.now) && nat_le (length corners.now) 7 && length edges.now == length corners.now) }
{
    3 <= corners.len() && corners.len() <= 7 && edges.len() == corners.len()
}

fn is_ring(edges: &[[Place; 2]], corners: &[Place]) -> bool
    ensures { result ≡ is_ring edges.now corners.now }
{
    has_as_many(edges, corners)
        && are_distinct(corners)
        && starts_least(corners)
        && closes(edges, corners)
}

/// The corners of the ring that these edges make, if they make one.
pub(crate) fn corners_around(edges: &[[Place; 2]]) -> Option<ArrayVec<Place, 7>>
    ensures { MatchOption result (IsNoRing edges.now) (λ ring. IsRing edges.now ring.items) }
{
    if edges.len() > 7 {
        return None;
    }
    let ring = walked(edges);
    if is_ring(edges, ring.as_slice()) {
        Some(ring)
    } else {
        None
    }
}
