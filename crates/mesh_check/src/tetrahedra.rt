// The tetrahedra of a raw mesh as sets of places.
ghost use Rattle.std.specs.Prelude.{true, ◌≡◌, ◌≤◌, ◌∷◌, [], IfOk, map};
ghost use Rattle.ma_cells.specs.Tetrahedron.{are_tetrahedra};
ghost use Rattle.std.specs.List.Sorted.{IsStrictlySortedBy};
ghost use Rattle.std.specs.Ordering.{nat_cmp};
ghost use Rattle.std.specs.Cmp.Lexicographic.{slice_cmp};
ghost use Rattle.ma_geom.specs.Coordinates.{place_cmp};
ghost use Rattle.ma_cells.specs.Meshes.{are_listed_once, corner_sets};
ghost use Rattle.msh_read.specs.Raw.{raw};
ghost use Rattle.msh_read.specs.Trying.{each};
ghost use Rattle.mesh_check.specs.Answer.{Answers};
ghost use Rattle.mesh_check.specs.Pairs.{first_pair, numbered_from};
ghost use Rattle.mesh_check.specs.steps.Tetrahedra.{counted, numbered_tet, placed, places_of, found_tet, distinct_tets, found_tets};

use crate::fault::MeshFault;
use crate::pairs::first_pair;
use crate::places::{corner_positions, numbered_places, place};
use ma_cells::Tet;
use ma_geom::{Memory, Place};
use msh_read::{RawMesh, RawTet};
use std::alloc::Global;

/// How many tetrahedra a mesh may have.
const MOST_ACCEPTED_TETS: usize = 200_000;

/// The places of four nodes after the shift, if all are in range.
fn four_places(nodes: &[Place], shift: u32, a: u32, b: u32, c: u32, d: u32) -> Option<[Place; 4]>
    requires { shift ≤ 30 }
    ensures { result ≡ places_of nodes.now shift (a ∷ b ∷ c ∷ d ∷ []) }
{
    let a = place(nodes, shift, a)?;
    let b = place(nodes, shift, b)?;
    let c = place(nodes, shift, c)?;
    let d = place(nodes, shift, d)?;
    Some([a, b, c, d])
}

fn corners(nodes: &[Place], shift: u32, at: [u32; 4]) -> Option<[Place; 4]>
    requires { shift ≤ 30 }
    ensures { result ≡ places_of nodes.now shift at }
{
    four_places(nodes, shift, at[0], at[1], at[2], at[3])
}

/// A tetrahedron after the shift. None where it is flat or a corner is out of range.
#[tactic(auto, unfolding(crate::specs::steps::Tetrahedra::found_tet))]
fn tetrahedron(nodes: &[Place], shift: u32, tet: RawTet) -> Option<Tet>
    requires { shift ≤ 30 }
    ensures { result ≡ found_tet nodes.now shift tet }
{
    let corners = corners(nodes, shift, tet.at)?;
    Tet::new(corners, tet.phys, tet.elem)
}

/// The same, where the tetrahedron has this number.
fn numbered_tet(nodes: &[Place], shift: u32, tet: RawTet, number: u64) -> Result<Tet, MeshFault>
    requires { shift ≤ 30 }
    ensures { Answers (λ tet. tet) result (numbered_tet nodes.now shift (tet, number)) }
{
    match tetrahedron(nodes, shift, tet) {
        Some(tet) => Ok(tet),
        None => Err(MeshFault::Flat(number)),
    }
}

/// All tetrahedra after the shift.
fn numbered_tets(
    alloc: Global,
    nodes: &[Place],
    shift: u32,
    tets: &[RawTet],
) -> Result<Vec<Tet>, MeshFault>
    requires { shift ≤ 30 }
    ensures { Answers (λ tetrahedra. tetrahedra.items) result (each (numbered_tet nodes.now shift) (numbered_from 1 tets.now)) }
{
    let mut tetrahedra = Vec::with_capacity(alloc, tets.len())?;
    for (index, tet) in tets.iter().enumerate() {
        let tetrahedron = numbered_tet(nodes, shift, *tet, index as u64 + 1)?;
        tetrahedra.push(tetrahedron)?;
    }
    Ok(tetrahedra)
}

/// The corners of each tetrahedron with its number.
fn numbered_corners(alloc: Global, tetrahedra: &[Tet]) -> Result<Vec<([Place; 4], u64)>, Memory>
    ensures { IfOk result (λ sets. sets.items ≡ numbered_from 1 (corner_sets tetrahedra.now)) }
{
    let mut sets = Vec::with_capacity(alloc, tetrahedra.len())?;
    for (index, tetrahedron) in tetrahedra.iter().enumerate() {
        sets.push((tetrahedron.corners(), index as u64 + 1))?;
    }
    Ok(sets)
}

/// Tests how many tetrahedra there are.
#[tactic(auto, unfolding(crate::specs::steps::Tetrahedra::counted))]
fn counted(tets: &[RawTet]) -> Result<(), MeshFault>
    ensures { Answers (λ _. tt) result (counted tets.now) }
{
    if tets.is_empty() {
        Err(MeshFault::NoTets)
    } else if tets.len() > MOST_ACCEPTED_TETS {
        Err(MeshFault::TooManyTets(tets.len() as u64))
    } else {
        Ok(())
    }
}

fn first_at_one_place(places: Vec<(Place, u64)>) -> Option<(u64, u64)>
    requires { IsStrictlySortedBy nat_cmp (map (λ item. item.1) places.items) }
    ensures { result ≡ first_pair place_cmp places.items }
{
    first_pair(places)
}

fn first_with_same_corners(sets: Vec<([Place; 4], u64)>) -> Option<(u64, u64)>
    requires { IsStrictlySortedBy nat_cmp (map (λ item. item.1) sets.items) }
    ensures { result ≡ first_pair (slice_cmp place_cmp) sets.items }
{
    first_pair(sets)
}

/// Tests where the nodes of tetrahedra are.
#[tactic(auto, unfolding(crate::specs::steps::Tetrahedra::placed))]
fn placed(alloc: Global, mesh: &RawMesh, shift: u32) -> Result<(), MeshFault>
    requires { shift ≤ 30 }
    ensures { Answers (λ _. tt) result (placed (raw mesh.now) shift) }
{
    let positions = corner_positions(alloc, mesh.tets.as_slice())?;
    let places = numbered_places(alloc, mesh.nodes.as_slice(), shift, positions.as_slice())?;
    match first_at_one_place(places) {
        Some(pair) => Err(MeshFault::SamePlace(pair.0, pair.1)),
        None => Ok(()),
    }
}

/// The tetrahedra, none of which is flat, and no two of which have the same corners.
#[tactic(auto, unfolding(crate::specs::steps::Tetrahedra::distinct_tets))]
fn distinct_tets(alloc: Global, mesh: &RawMesh, shift: u32) -> Result<Vec<Tet>, MeshFault>
    requires { shift ≤ 30 }
    ensures value { Answers (λ tetrahedra. tetrahedra.items) result (distinct_tets (raw mesh.now) shift) }
    ensures once { IfOk result (λ tetrahedra. are_listed_once tetrahedra.items ≡ true) }
    ensures not_flat { IfOk result (λ tetrahedra. are_tetrahedra tetrahedra.items ≡ true) }
{
    let tetrahedra = numbered_tets(alloc, mesh.nodes.as_slice(), shift, mesh.tets.as_slice())?;
    let sets = numbered_corners(alloc, tetrahedra.as_slice())?;
    match first_with_same_corners(sets) {
        Some(pair) => Err(MeshFault::Repeated(pair.0, pair.1)),
        None => Ok(tetrahedra),
    }
}

/// The tetrahedra in file order, or the first fault.
#[tactic(auto, unfolding(crate::specs::steps::Tetrahedra::found_tets))]
pub fn tets(alloc: Global, mesh: &RawMesh, shift: u32) -> Result<Vec<Tet>, MeshFault>
    requires { shift ≤ 30 }
    ensures value { Answers (λ tets. tets.items) result (found_tets (raw mesh.now) shift) }
    ensures once { IfOk result (λ tets. are_listed_once tets.items ≡ true) }
    ensures not_flat { IfOk result (λ tets. are_tetrahedra tets.items ≡ true) }
{
    counted(mesh.tets.as_slice())?;
    placed(alloc, mesh, shift)?;
    let tets = distinct_tets(alloc, mesh, shift)?;
    Ok(tets)
}
