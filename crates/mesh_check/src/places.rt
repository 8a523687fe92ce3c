// Nodes of tetrahedra, and their places after a shift.
ghost use Rattle.std.specs.Prelude.{◌≡◌, ◌≤◌, ◌^◌, ◌*ℤ◌, pos, IfOk, Some, None, if◌then◌else◌};
ghost use Rattle.msh_read.specs.Raw.{node_at};
ghost use Rattle.msh_read.specs.Trying.{each};
ghost use Rattle.mesh_check.specs.Answer.{Answers};
ghost use Rattle.mesh_check.specs.Places.{corner_positions, is_near, shifted};
ghost use Rattle.mesh_check.specs.steps.ShiftedPlaces.{numbered_place, place_of, within_range};

use crate::fault::MeshFault;
use ma_cells::Ascending;
use ma_geom::{Memory, Place};
use msh_read::RawTet;
use std::alloc::Global;

/// 2^shift.
fn factor(shift: u32) -> i32
    requires { shift ≤ 30 }
    ensures { result ≡ pos (2 ^ shift) }
{
    1 << shift
}

/// The coordinate, if it is in range.
fn near(c: i32) -> Option<i32>
    ensures { result ≡ (if is_near c then Some c else None) }
{
    if c.unsigned_abs() <= 1 << 30 {
        Some(c)
    } else {
        None
    }
}

/// A coordinate times 2^shift, if that is in range.
fn coordinate(c: i32, shift: u32) -> Option<i32>
    requires { shift ≤ 30 }
    ensures { result ≡ (if is_near (c *ℤ pos (2 ^ shift)) then Some (c *ℤ pos (2 ^ shift)) else None) }
{
    let scaled = c.checked_mul(factor(shift))?;
    near(scaled)
}

/// The place with these coordinates, if they are in range.
fn place_with(x: i32, y: i32, z: i32) -> Option<Place>
    ensures { result ≡ within_range (record { x = x; y = y; z = z }) }
{
    Place::new(x, y, z)
}

/// The place after the shift, if it is in range.
fn moved(place: Place, shift: u32) -> Option<Place>
    requires { shift ≤ 30 }
    ensures { result ≡ within_range (shifted shift place) }
{
    let x = coordinate(place.x(), shift)?;
    let y = coordinate(place.y(), shift)?;
    let z = coordinate(place.z(), shift)?;
    place_with(x, y, z)
}

fn node(nodes: &[Place], at: u32) -> Place
    ensures { result ≡ node_at nodes.now at }
{
    match nodes.get(at as usize) {
        Some(place) => *place,
        None => Place::default(),
    }
}

/// The place of a node after the shift, if it is in range.
#[tactic(auto, unfolding(crate::specs::steps::ShiftedPlaces::place_of))]
pub fn place(nodes: &[Place], shift: u32, at: u32) -> Option<Place>
    requires { shift ≤ 30 }
    ensures { result ≡ place_of nodes.now shift at }
{
    moved(node(nodes, at), shift)
}

/// The nodes of tetrahedra, by their positions.
pub fn corner_positions(alloc: Global, tets: &[RawTet]) -> Result<Ascending<u32>, Memory>
    ensures { IfOk result (λ positions. positions ≡ corner_positions tets.now) }
{
    let mut positions = Vec::new(alloc);
    for tet in tets {
        positions.extend_from_slice(&tet.at)?;
    }
    Ok(Ascending::gather(positions))
}

/// The place of a node with its number, counted from 1.
#[tactic(auto, unfolding(crate::specs::steps::ShiftedPlaces::numbered_place))]
fn numbered_place(nodes: &[Place], shift: u32, at: u32) -> Result<(Place, u64), MeshFault>
    requires { shift ≤ 30 }
    ensures { Answers (λ item. item) result (numbered_place nodes.now shift at) }
{
    let number = u64::from(at) + 1;
    match place(nodes, shift, at) {
        Some(place) => Ok((place, number)),
        None => Err(MeshFault::TooFar(number)),
    }
}

/// The places of these nodes with their numbers.
pub fn numbered_places(
    alloc: Global,
    nodes: &[Place],
    shift: u32,
    positions: &[u32],
) -> Result<Vec<(Place, u64)>, MeshFault>
    requires { shift ≤ 30 }
    ensures { Answers (λ items. items.items) result (each (numbered_place nodes.now shift) positions.now) }
{
    let mut items = Vec::with_capacity(alloc, positions.len())?;
    for at in positions {
        let item = numbered_place(nodes, shift, *at)?;
        items.push(item)?;
    }
    Ok(items)
}
