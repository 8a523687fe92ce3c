//! Laws of refinement, each the contract of a function that does nothing.
ghost use Rattle.refinement.specs.Laws.{RefinementHalvesTheGrid, RefinementIsNotFlat, RefinementKeepsCover, RefinementKeepsFaces};

/// A refined mesh has no flat tetrahedron.
pub fn refinement_is_not_flat()
    ensures { RefinementIsNotFlat }
{}

/// Refinement keeps the cover of each region.
pub fn refinement_keeps_cover()
    ensures { RefinementKeepsCover }
{}

/// The faces of a refined mesh make up those of the mesh, and others.
pub fn refinement_keeps_faces()
    ensures { RefinementKeepsFaces }
{}

/// Refinement takes a mesh from one grid to the next finer one.
pub fn refinement_halves_the_grid()
    ensures { RefinementHalvesTheGrid }
{}
