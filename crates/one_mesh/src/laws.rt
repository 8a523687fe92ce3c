//! Laws of rounds, each the contract of a function that does nothing.
ghost use Rattle.one_mesh.specs.Laws.{RoundsAdapt, RoundsAreNotFlat, RoundsHalveTheGrid, StagesAdapt};

/// After any number of rounds no tetrahedron is flat.
pub fn rounds_are_not_flat()
    ensures { RoundsAreNotFlat }
{}

/// Each round takes a mesh to the next finer grid.
pub fn rounds_halve_the_grid()
    ensures { RoundsHalveTheGrid }
{}

/// Each stage of each round keeps a sound mesh sound, its cover and its classification.
pub fn stages_adapt()
    ensures { StagesAdapt }
{}

/// Any number of rounds keeps a sound mesh sound, its cover and its classification.
pub fn rounds_adapt()
    ensures { RoundsAdapt }
{}
