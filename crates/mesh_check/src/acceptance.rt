// Acceptance of a mesh that was read.
ghost use Rattle.std.specs.Prelude.{◌≡◌, ◌≤◌, IfOk, true};
ghost use Rattle.ma_cells.specs.Tetrahedron.{are_tetrahedra};
ghost use Rattle.msh_read.specs.Raw.{raw};
ghost use Rattle.mesh_check.specs.Accepted.{IsAcceptedMesh, accepted_of, apart};
ghost use Rattle.mesh_check.specs.Answer.{Answers};
ghost use Rattle.mesh_check.specs.steps.FoundMarks.{found_of};
ghost use Rattle.ma_cover.specs.Sound.{IsSound};

use crate::fault::MeshFault;
use crate::marks::marks;
use crate::tetrahedra::tets;
use ma_cells::{Mesh, Tet};
use ma_geom::Memory;
use msh_read::RawMesh;
use overlap_check::first_overlap;
use std::alloc::Global;

/// Tests whether two tetrahedra overlap.
fn apart(alloc: Global, tets: &[Tet]) -> Result<(), MeshFault>
    ensures { Answers (λ _. tt) result (apart tets.now) }
{
    match first_overlap(alloc, tets) {
        Ok(Some((first, second))) => {
            Err(MeshFault::Overlap(first as u64 + 1, second as u64 + 1))
        }
        Ok(None) => Ok(()),
        Err(Memory) => Err(MeshFault::Memory),
    }
}

#[tactic(auto, unfolding(crate::specs::steps::FoundMarks::found_of))]
fn found(alloc: Global, mesh: &RawMesh, shift: u32) -> Result<Mesh, MeshFault>
    requires { shift ≤ 30 }
    ensures value { Answers (λ mesh. mesh) result (found_of (raw mesh.now) shift) }
    ensures not_flat { IfOk result (λ mesh. are_tetrahedra mesh.tets ≡ true) }
    ensures sound { IfOk result (λ mesh. IsSound mesh.tets mesh.marks) }
    ensures accepted { IfOk result (λ mesh. IsAcceptedMesh mesh.tets mesh.marks) }
{
    let tets = tets(alloc, mesh, shift)?;
    apart(alloc, tets.as_slice())?;
    let (marks, loose) = marks(alloc, mesh, shift, tets.as_slice())?;
    Ok(Mesh::new(tets, marks, loose))
}

/// The mesh after a shift, by which each coordinate is multiplied by 2^shift, or its first fault.
///
/// The tetrahedra of the mesh come in the order of the file. Its marks are those of the file that
/// are on a point, an edge or a face of a tetrahedron, and one with tag (0, 0) on each face that no
/// other tetrahedron of the same region has. The other marks of the file are loose; they are counted
/// and dropped. A node's position that no node has counts as one of a node at the origin.
pub fn accept(alloc: Global, mesh: &RawMesh, shift: u32) -> Result<Mesh, MeshFault>
    requires { shift ≤ 30 }
    ensures exact { Answers (λ mesh. mesh) result (accepted_of (raw mesh.now) shift) }
    ensures not_flat { IfOk result (λ mesh. are_tetrahedra mesh.tets ≡ true) }
    ensures sound { IfOk result (λ mesh. IsSound mesh.tets mesh.marks) }
    ensures accepted { IfOk result (λ mesh. IsAcceptedMesh mesh.tets mesh.marks) }
{
    found(alloc, mesh, shift)
}
