// The edges and faces of tetrahedra that are bad enough to be swapped.
ghost use Rattle.std.specs.Prelude.{◌≡◌, ◌++◌, ◌∷◌, [], true, IfOk, OnOk, if◌then◌else◌};
ghost use Rattle.ma_cells.specs.Tetrahedron.{are_corners, are_tetrahedra};
ghost use Rattle.legal_moves.specs.Around.{bad_among, is_bad_tet, parts_of};

use ma_cells::{Ascending, Tet};
use ma_geom::{Memory, Place, quality};
use std::alloc::Global;

fn is_bad(tet: &Tet) -> bool
    ensures bad { result ≡ is_bad_tet tet.now }
    ensures corners { are_corners tet.now.corners ≡ true }
{
    quality(tet.corners()) < 1 << 28
}

fn push_if_bad(bad: &mut Vec<Tet>, tet: &Tet) -> Result<(), Memory>
    ensures bad { OnOk result (bad.new.items ≡ bad.old.items ++ (if is_bad_tet tet.now then tet.now ∷ [] else [])) }
    ensures corners { OnOk result (are_corners tet.now.corners ≡ true) }
{
    if is_bad(tet) {
        bad.push(*tet)?;
    }
    Ok(())
}

/// Those of the tetrahedra that are bad enough to be swapped.
pub(crate) fn bad_among(alloc: Global, tets: &[Tet]) -> Result<Vec<Tet>, Memory>
    ensures bad { IfOk result (λ bad. bad.items ≡ bad_among tets.now) }
    ensures solid { OnOk result (are_tetrahedra tets.now ≡ true) }
{
    let mut bad = Vec::new(alloc);
    for tet in tets {
        push_if_bad(&mut bad, tet)?;
    }
    Ok(bad)
}

/// The edges of these tetrahedra.
pub(crate) fn edges_of(alloc: Global, tets: &[Tet]) -> Result<Ascending<[Place; 2]>, Memory>
    ensures { IfOk result (λ edges. edges ≡ parts_of 2 tets.now) }
{
    let mut edges = Vec::with_capacity(alloc, 6 * tets.len())?;
    for tet in tets {
        edges.extend_from_slice(&tet.edges())?;
    }
    Ok(Ascending::gather(edges))
}

/// The faces of these tetrahedra.
pub(crate) fn faces_of(alloc: Global, tets: &[Tet]) -> Result<Ascending<[Place; 3]>, Memory>
    ensures { IfOk result (λ faces. faces ≡ parts_of 3 tets.now) }
{
    let mut faces = Vec::with_capacity(alloc, 4 * tets.len())?;
    for tet in tets {
        faces.extend_from_slice(&tet.faces())?;
    }
    Ok(Ascending::gather(faces))
}
