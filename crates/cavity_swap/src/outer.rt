//! The outer faces of a cavity, found once for all places from which it may be filled.
ghost use Rattle.std.specs.Prelude.{◌≡◌, ◌++◌, ◌∷◌, None, OnOk, Some, if◌then◌else◌, map, nat_lt};
ghost use Rattle.std.specs.List.{flat_map, list_all};
ghost use Rattle.ma_geom.specs.Quality.{quality};
ghost use Rattle.ma_cells.specs.Tetrahedron.{tetrahedron_of};
ghost use Rattle.ma_cells.specs.Worst.{worst};
ghost use Rattle.cavity_collapse.specs.Steps.{each_passes};
ghost use Rattle.cavity_swap.specs.Outer.{may_be_taken, outer_of, quality_from, sees, with_corners};
ghost use Rattle.cavity_swap.specs.Steps.{are_above, is_seen_from, outer_at, passes_from};
ghost use Rattle.cavity_swap.specs.Swapping.{outer_faces};

use crate::filling::{cone, is_outer, new_worst};
use crate::judging::has_one_region;
use crate::seen::{is_bare, is_seen_from};
use ma_cells::{Mark, Tet};
use ma_geom::{Memory, Place, quality};

/// A face that one tetrahedron of a cavity alone has, and the corners of that one.
#[derive(Clone, Copy, Debug)]
pub struct OuterFace {
    pub face: [Place; 3],
    pub corners: [Place; 4],
}

fn push_if_outer(
    outer: &mut Vec<OuterFace>,
    cavity: &[Tet],
    corners: [Place; 4],
    face: [Place; 3],
) -> Result<(), Memory>
    ensures { OnOk result (outer.new.items ≡ outer.old.items ++ outer_at cavity.now corners face) }
{
    if is_outer(cavity, face) {
        outer.push(OuterFace { face, corners })?;
    }
    Ok(())
}

fn push_faces(
    outer: &mut Vec<OuterFace>,
    cavity: &[Tet],
    corners: [Place; 4],
    faces: &[[Place; 3]],
) -> Result<(), Memory>
    ensures { OnOk result (outer.new.items ≡ outer.old.items ++ flat_map (outer_at cavity.now corners) faces.now) }
{
    for face in faces {
        push_if_outer(outer, cavity, corners, *face)?;
    }
    Ok(())
}

fn push_outer_of(outer: &mut Vec<OuterFace>, cavity: &[Tet], tet: &Tet) -> Result<(), Memory>
    ensures { OnOk result (outer.new.items ≡ outer.old.items ++ map (with_corners tet.now.corners) (outer_faces cavity.now tet.now)) }
{
    push_faces(outer, cavity, tet.corners(), &tet.faces())
}

/// Puts down the outer faces of a cavity. It takes n^2 steps for n tetrahedra.
pub fn find_outer(outer: &mut Vec<OuterFace>, cavity: &[Tet]) -> Result<(), Memory>
    ensures { OnOk result (outer.new.items ≡ outer_of cavity.now) }
{
    outer.clear();
    for tet in cavity {
        push_outer_of(outer, cavity, tet)?;
    }
    Ok(())
}

/// Whether a swap of the edge or the face `at` passes the tests that don't hang on the place from
/// which the cavity is filled, with the least quality of the tetrahedra around it, each listed once.
/// Takes no memory.
pub fn may_be_taken(cavity: &[Tet], marks: &[Mark], at: &[Place], old: u32) -> bool
    requires { old ≡ worst cavity.now }
    ensures { result ≡ may_be_taken cavity.now marks.now at.now }
{
    has_one_region(cavity) && old < 1 << 28 && is_bare(marks, at, cavity)
}

fn are_seen_from(v: Place, outer: &[OuterFace]) -> bool
    ensures { result ≡ list_all (λ one. is_seen_from v one.corners one.face) outer.now }
{
    outer
        .iter()
        .all(|one| is_seen_from(v, one.corners, one.face))
}

/// Whether the cavity with these outer faces may be filled from `v` with no tetrahedron turned over:
/// `v` lies on the side of its tetrahedron of each face that lacks it. Of the tests of a swap this
/// refuses most, and needs no quality.
pub fn sees(outer: &[OuterFace], v: Place) -> bool
    ensures { result ≡ sees outer.now v }
{
    are_seen_from(v, outer)
}

/// Whether there is no tetrahedron, or one of more than this quality.
fn is_above(old: u32, tet: Option<Tet>) -> bool
    ensures { result ≡ each_passes (λ tet. nat_lt old (quality tet.corners)) tet }
{
    match tet {
        Some(tet) => old < quality(tet.corners()),
        None => true,
    }
}

fn cone_is_above(old: u32, first: &Tet, v: Place, face: [Place; 3]) -> bool
    ensures { result ≡ each_passes (λ tet. nat_lt old (quality tet.corners)) (tetrahedron_of (v ∷ face) first.now.phys first.now.elem) }
{
    is_above(old, cone(v, face, first))
}

/// Whether the tetrahedron over each of these faces is of more than this quality.
fn are_above(old: u32, first: &Tet, v: Place, outer: &[OuterFace]) -> bool
    ensures { result ≡ are_above old first.now v outer.now }
{
    outer
        .iter()
        .all(|one| cone_is_above(old, first, v, one.face))
}

/// Whether `v` sees each face, and each tetrahedron over one of them is of more than this quality.
/// Most places are refused at the first face that they don't see.
fn passes_from(old: u32, first: &Tet, v: Place, outer: &[OuterFace]) -> bool
    ensures { result ≡ passes_from old first.now v outer.now }
{
    are_seen_from(v, outer) && are_above(old, first, v, outer)
}

/// The quality, if it is greater than the old one.
fn if_greater(old: u32, new: u32) -> Option<u32>
    ensures { result ≡ (if nat_lt old new then Some new else None) }
{
    if old < new { Some(new) } else { None }
}

/// The least quality of what fills a cavity from `v`, if the tests pass that hang on `v`, by the
/// outer faces of the cavity and its least quality. Where `may_be_taken` is so too, the swap is
/// legal. Takes no memory.
pub fn quality_from(cavity: &[Tet], outer: &[OuterFace], v: Place, old: u32) -> Option<u32>
    requires outer { outer.now ≡ outer_of cavity.now }
    requires old { old ≡ worst cavity.now }
    ensures { result ≡ quality_from cavity.now v }
{
    match cavity {
        [] => None,
        [first, ..] => {
            if passes_from(old, first, v, outer) {
                if_greater(old, new_worst(cavity, v))
            } else {
                None
            }
        }
    }
}
