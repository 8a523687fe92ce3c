// Rings of tetrahedra around an edge.
ghost use Rattle.std.specs.Prelude.{◌≡◌, ◌+◌, ◌++◌, ◌≤◌, ◌==◌, ◌∷◌, [], true, false, length, MatchOption, IfOk, IfSome, IfNone, IsOk};
ghost use Rattle.std.specs.List.{list_all};
ghost use Rattle.arrayvec.specs.ArrayVec.{array_vec_len};
ghost use Rattle.ma_cells.specs.Stars.{besides};
ghost use Rattle.cavity_swap.specs.Rings.{IsNoRing, IsNoRingOf, IsRing, IsRingOf, RingsAreAlone, edges_across, in_order};
ghost use Rattle.cavity_swap.specs.Steps.{is_pair};

use crate::places::{has, in_order};
use crate::sets::cavity_of;
use crate::walks::corners_around;
use arrayvec::ArrayVec;
use ma_cells::Tet;
use ma_geom::{Memory, Place};
use std::marker::Model;

/// A closed ring of 3 to 7 tetrahedra around an edge: the ends of the edge, the lesser first, and the
/// corners around it, in cyclic order from the least one towards the lesser of its two neighbours.
#[derive(Clone, Debug, Drop)]
pub struct Ring {
    ends: [Place; 2],
    corners: ArrayVec<Place, 7>,
}

impl Model for Ring {
    ghost use Rattle.cavity_swap.specs.Rings.{RingAround};

    ghost Value = { RingAround };

    ghost view = { λ r. record { ends = r.ends; corners = r.corners.items } };
}

impl Ring {
    /// The ends of the edge, the lesser first.
    pub fn ends(&self) -> [Place; 2]
        ensures { result ≡ self.now.ends }
    {
        self.ends
    }

    /// The corners around the edge, 3 to 7.
    pub fn corners(&self) -> &[Place]
        ensures { result.now ≡ self.now.corners }
    {
        self.corners.as_slice()
    }
}

fn push_besides(left: &mut ArrayVec<Place, 4>, corners: &[Place], ends: [Place; 2])
    requires { array_vec_len left.old + length corners.now ≤ 4 }
    ensures { left.new.items ≡ left.old.items ++ besides ends corners.now }
{
    match corners {
        [] => {}
        [first, rest @ ..] => {
            if !has(&ends, *first) {
                left.push(*first);
            }
            push_besides(left, rest, ends);
        }
    }
}

fn pair(places: &[Place]) -> Option<[Place; 2]>
    ensures { MatchOption result (is_pair places.now ≡ false) (λ pair. pair ≡ places.now) }
{
    match places {
        [p, q] => Some([*p, *q]),
        _ => None,
    }
}

/// The two corners besides these ends, if there are two.
fn edge_across(corners: [Place; 4], ends: [Place; 2]) -> Option<[Place; 2]>
    ensures { MatchOption result (is_pair (besides ends corners) ≡ false) (λ edge. edge ≡ besides ends corners) }
{
    let mut left = ArrayVec::new();
    push_besides(&mut left, &corners, ends);
    pair(left.as_slice())
}

/// Appends the edges across from these ends, up to a tetrahedron that has none. Whether each has one.
fn push_edges(edges: &mut ArrayVec<[Place; 2], 7>, cavity: &[Tet], ends: [Place; 2]) -> bool
    requires { array_vec_len edges.old + length cavity.now ≤ 7 }
    ensures all { result ≡ true → edges.new.items ≡ edges.old.items ++ edges_across ends cavity.now }
    ensures not_all { result ≡ false → list_all is_pair (edges_across ends cavity.now) ≡ false }
{
    match cavity {
        [] => true,
        [first, rest @ ..] => match edge_across(first.corners(), ends) {
            Some(edge) => {
                edges.push(edge);
                push_edges(edges, rest, ends)
            }
            None => false,
        },
    }
}

fn corners_of(cavity: &[Tet], ends: [Place; 2]) -> Option<ArrayVec<Place, 7>>
    requires { length cavity.now ≤ 7 }
    ensures { MatchOption result (IsNoRing (edges_across ends cavity.now)) (λ corners. IsRing (edges_across ends cavity.now) corners.items) }
{
    let mut edges = ArrayVec::new();
    if push_edges(&mut edges, cavity, ends) {
        corners_around(edges.as_slice())
    } else {
        None
    }
}

fn corners_of_star(star: &[Tet], ends: [Place; 2]) -> Option<ArrayVec<Place, 7>>
    ensures { MatchOption result (IsNoRingOf star.now ends) (λ corners. IsRingOf star.now (record { ends = ends; corners = corners.items })) }
{
    match cavity_of(star) {
        Some(cavity) => corners_of(cavity.as_slice(), ends),
        None => None,
    }
}

/// The ring that these tetrahedra make around the edge from `a` to `b`, as `ring_of` gives it.
pub fn ring_around(star: &[Tet], a: Place, b: Place) -> Option<Ring>
    ensures ring { IfSome result (λ ring. IsRingOf star.now ring) }
    ensures ends { IfSome result (λ ring. ring.ends ≡ in_order a b) }
    ensures none { IfNone result (IsNoRingOf star.now (in_order a b)) }
{
    let ends = in_order(a, b);
    match corners_of_star(star, ends) {
        Some(corners) => Some(Ring { ends, corners }),
        None => None,
    }
}

/// The ring that these tetrahedra make around the edge from `a` to `b`, which may be given in either
/// order. None where they aren't a single closed ring of 3 to 7, as where one of them lacks the
/// edge. `star` is to have all tetrahedra at the edge; one that is listed twice counts once. Answers
/// always, and takes no memory.
pub fn ring_of(star: &[Tet], a: Place, b: Place) -> Result<Option<Ring>, Memory>
    ensures always { IsOk result }
    ensures ring { IfOk result (λ found. IfSome found (λ ring. IsRingOf star.now ring)) }
    ensures ends { IfOk result (λ found. IfSome found (λ ring. ring.ends ≡ in_order a b)) }
    ensures none { IfOk result (λ found. IfNone found (IsNoRingOf star.now (in_order a b))) }
    // The same edges make no other ring.
    ensures alone { RingsAreAlone }
{
    Ok(ring_around(star, a, b))
}
