// Nodes and their numbers.
ghost use Rattle.std.specs.Prelude.{◌≡◌, true, All, IfOk};
ghost use Rattle.std.specs.List.Sorted.{IsStrictlySortedBy};
ghost use Rattle.ma_geom.specs.Coordinates.{place_cmp};
ghost use Rattle.ma_cells.specs.Ascending.{are_ascending};
ghost use Rattle.msh_write.specs.Text.{nodes_of, number_among};

use ma_cells::{Ascending, Tet};
use ma_geom::{Memory, Place};
use std::alloc::Global;

/// The nodes of a mesh with these tetrahedra.
pub fn nodes_of(alloc: Global, tets: &[Tet]) -> Result<Ascending<Place>, Memory>
    ensures nodes { IfOk result (λ nodes. nodes ≡ nodes_of tets.now) }
    ensures corners { IfOk result (λ _. All (λ t. are_ascending place_cmp t.corners ≡ true) tets.now) }
{
    let mut corners = Vec::new(alloc);
    for tet in tets {
        corners.extend_from_slice(&tet.corners())?;
    }
    Ok(Ascending::gather(corners))
}

/// The number of a node, which is its place among the nodes, counted from 1. What isn't among them has
/// the number behind the last.
pub(crate) fn number_of(nodes: &[Place], node: Place) -> usize
    requires { IsStrictlySortedBy place_cmp nodes.now }
    ensures { result ≡ number_among nodes.now node }
{
    match nodes.binary_search(&node) {
        Ok(index) => index + 1,
        Err(_) => nodes.len() + 1,
    }
}
