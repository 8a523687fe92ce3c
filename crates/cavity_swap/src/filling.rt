// What a swap leaves in the place of a cavity.
ghost use Rattle.std.specs.Prelude.{◌≡◌, ◌==◌, ◌++◌, ◌∷◌, [], OnOk, IfOk, filter, if◌then◌else◌};
ghost use Rattle.std.specs.List.{flat_map};
ghost use Rattle.std.specs.Option.{option_to_list};
ghost use Rattle.ma_geom.specs.Quality.{quality};
ghost use Rattle.ma_cells.specs.Ascending.{ascending_of};
ghost use Rattle.ma_cells.specs.Faces.{faces_of};
ghost use Rattle.ma_cells.specs.Stars.{cone};
ghost use Rattle.ma_cells.specs.Tetrahedron.{tet_cmp, tetrahedron_of};
ghost use Rattle.ma_cells.specs.Worst.{worst};
ghost use Rattle.cavity_collapse.specs.Steps.{worst_with};
ghost use Rattle.cavity_swap.specs.Steps.{outer_cone, worst_over, worst_over_faces};
ghost use Rattle.cavity_swap.specs.Swapping.{had_by, outer_faces, swapped};

use ma_cells::{Ascending, Tet};
use ma_geom::{Memory, Place, quality};
use std::alloc::Global;

/// How many of the tetrahedra have a face.
pub(crate) fn had_by(cavity: &[Tet], face: [Place; 3]) -> usize
    ensures { result ≡ had_by cavity.now face }
{
    cavity.iter().filter(|tet| tet.holds(&face)).count()
}

/// Whether one tetrahedron alone has a face.
pub(crate) fn is_outer(cavity: &[Tet], face: [Place; 3]) -> bool
    ensures { result ≡ (had_by cavity.now face == 1) }
{
    had_by(cavity, face) == 1
}

/// The tetrahedron with these corners and the region of another one.
fn alike(corners: [Place; 4], first: &Tet) -> Option<Tet>
    ensures { result ≡ tetrahedron_of corners first.now.phys first.now.elem }
{
    Tet::new(corners, first.phys(), first.elem())
}

pub(crate) fn cone(v: Place, face: [Place; 3], first: &Tet) -> Option<Tet>
    ensures { result ≡ tetrahedron_of (v ∷ face) first.now.phys first.now.elem }
{
    let [x, y, z] = face;
    alike([v, x, y, z], first)
}

/// The tetrahedron from `v` over an outer face, with the region of another one, unless it is flat.
fn outer_cone(cavity: &[Tet], first: &Tet, v: Place, face: [Place; 3]) -> Option<Tet>
    ensures { result ≡ outer_cone cavity.now first.now v face }
{
    if is_outer(cavity, face) {
        cone(v, face, first)
    } else {
        None
    }
}

fn quality_with(worst: Option<u32>, tet: Option<Tet>) -> Option<u32>
    ensures { result ≡ worst_with worst tet }
{
    match (worst, tet) {
        (worst, None) => worst,
        (None, Some(tet)) => Some(quality(tet.corners())),
        (Some(worst), Some(tet)) => Some(worst.min(quality(tet.corners()))),
    }
}

/// The least of a quality and those of the tetrahedra over these faces.
fn worst_over_faces(
    cavity: &[Tet],
    first: &Tet,
    v: Place,
    worst: Option<u32>,
    faces: &[[Place; 3]],
) -> Option<u32>
    ensures { result ≡ worst_over_faces cavity.now first.now v worst faces.now }
{
    match faces {
        [] => worst,
        [face, rest @ ..] => {
            let worst = quality_with(worst, outer_cone(cavity, first, v, *face));
            worst_over_faces(cavity, first, v, worst, rest)
        }
    }
}

/// The same over the faces of these tetrahedra.
fn worst_over(
    cavity: &[Tet],
    first: &Tet,
    v: Place,
    worst: Option<u32>,
    tets: &[Tet],
) -> Option<u32>
    ensures { result ≡ worst_over cavity.now first.now v worst tets.now }
{
    match tets {
        [] => worst,
        [tet, rest @ ..] => {
            let worst = worst_over_faces(cavity, first, v, worst, &tet.faces());
            worst_over(cavity, first, v, worst, rest)
        }
    }
}

/// The least quality of the tetrahedra that fill a cavity, 0 where there is none.
#[tactic(auto, unfolding(ma_cells::specs::Worst::worst))]
pub(crate) fn new_worst(cavity: &[Tet], v: Place) -> u32
    ensures { result ≡ worst (swapped v cavity.now) }
{
    match cavity {
        [] => 0,
        [first, ..] => worst_over(cavity, first, v, None, cavity).unwrap_or(0),
    }
}

fn push_if_any(tets: &mut Vec<Tet>, tet: Option<Tet>) -> Result<(), Memory>
    ensures { OnOk result (tets.new.items ≡ tets.old.items ++ option_to_list tet) }
{
    if let Some(tet) = tet {
        tets.push(tet)?;
    }
    Ok(())
}

fn push_cones(
    tets: &mut Vec<Tet>,
    cavity: &[Tet],
    first: &Tet,
    v: Place,
    faces: &[[Place; 3]],
) -> Result<(), Memory>
    ensures { OnOk result (tets.new.items ≡ tets.old.items ++ flat_map (λ face. option_to_list (outer_cone cavity.now first.now v face)) faces.now) }
{
    match faces {
        [] => Ok(()),
        [face, rest @ ..] => {
            push_if_any(tets, outer_cone(cavity, first, v, *face))?;
            push_cones(tets, cavity, first, v, rest)
        }
    }
}

fn push_cones_of(
    tets: &mut Vec<Tet>,
    cavity: &[Tet],
    first: &Tet,
    v: Place,
    tet: &Tet,
) -> Result<(), Memory>
    ensures { OnOk result (tets.new.items ≡ tets.old.items ++ flat_map (cone v first.now.phys first.now.elem) (outer_faces cavity.now tet.now)) }
{
    push_cones(tets, cavity, first, v, &tet.faces())
}

fn cones(alloc: Global, cavity: &[Tet], first: &Tet, v: Place) -> Result<Vec<Tet>, Memory>
    ensures { IfOk result (λ tets. tets.items ≡ flat_map (λ tet. flat_map (cone v first.now.phys first.now.elem) (outer_faces cavity.now tet)) cavity.now) }
{
    let mut tets = Vec::with_capacity(alloc, cavity.len())?;
    for tet in cavity {
        push_cones_of(&mut tets, cavity, first, v, tet)?;
    }
    Ok(tets)
}

fn fill(alloc: Global, cavity: &[Tet], v: Place) -> Result<Ascending<Tet>, Memory>
    ensures { IfOk result (λ tets. tets ≡ swapped v cavity.now) }
{
    match cavity {
        [] => Ok(Ascending::new(alloc)),
        [first, ..] => {
            let tets = cones(alloc, cavity, first, v)?;
            Ok(Ascending::gather(tets))
        }
    }
}

fn set_of(alloc: Global, tets: &[Tet]) -> Result<Ascending<Tet>, Memory>
    ensures { IfOk result (λ set. set ≡ ascending_of tet_cmp tets.now) }
{
    let mut items = Vec::with_capacity(alloc, tets.len())?;
    items.extend_from_slice(tets)?;
    Ok(Ascending::gather(items))
}

/// What a swap leaves in the place of a cavity, in ascending order: the tetrahedra from `v` over each
/// face that one tetrahedron of the cavity alone has, with the region of its least one. One that
/// would be flat is left out, as over a face that has `v`. A tetrahedron that is listed twice counts
/// once. It takes n^2 steps for n tetrahedra, of which a ring has seven at most.
pub fn result(alloc: Global, cavity: &[Tet], v: Place) -> Result<Vec<Tet>, Memory>
    ensures { IfOk result (λ tets. tets.items ≡ swapped v (ascending_of tet_cmp cavity.now)) }
{
    let cavity = set_of(alloc, cavity)?;
    let tets = fill(alloc, cavity.as_slice(), v)?;
    Ok(tets.into_vec())
}
