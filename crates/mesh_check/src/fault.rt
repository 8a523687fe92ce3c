// Why a mesh is not accepted.
ghost use Rattle.std.specs.Prelude.{◌≡◌};
ghost use Rattle.mesh_check.specs.declared.fault.MeshFault.TheVariants as faults;

use std::alloc::{AllocError, AllocFailed};

/// Why a mesh that was read is not accepted. Nodes and tetrahedra are named by their positions in
/// the file, counted from 1. The faults are tested in this order.
#[derive(Clone, Copy, Debug, PartialEq, Eq)]
pub enum MeshFault {
    /// There is no tetrahedron.
    NoTets,
    /// There are so many tetrahedra, which is more than 200,000.
    TooManyTets(u64),
    /// This node of a tetrahedron is the first that is out of range after the shift.
    TooFar(u64),
    /// These two nodes of tetrahedra are at one place. No such pair has a lower first node, or the
    /// same first and a lower second.
    SamePlace(u64, u64),
    /// This tetrahedron is the first that is flat.
    Flat(u64),
    /// These two tetrahedra have the same corners. No such pair has a lower first tetrahedron, or
    /// the same first and a lower second.
    Repeated(u64, u64),
    /// These two tetrahedra overlap, so far as none of the forms that are tried separates them. No
    /// such pair has a lower first tetrahedron, or the same first and a lower second.
    Overlap(u64, u64),
    Memory,
}

impl From<AllocError> for MeshFault {
    ghost from_gives = { λ _ e. e ≡ faults.Memory };

    fn from(_error: AllocError) -> MeshFault {
        MeshFault::Memory
    }
}

impl<T: Drop> From<AllocFailed<T>> for MeshFault {
    ghost from_gives = { λ _ e. e ≡ faults.Memory };

    fn from(_error: AllocFailed<T>) -> MeshFault {
        MeshFault::Memory
    }
}

impl From<ma_geom::Memory> for MeshFault {
    ghost from_gives = { λ _ e. e ≡ faults.Memory };

    fn from(_error: ma_geom::Memory) -> MeshFault {
        MeshFault::Memory
    }
}
