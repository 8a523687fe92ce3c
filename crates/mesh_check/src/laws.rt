//! Laws of acceptance, each the contract of a function that does nothing.
ghost use Rattle.mesh_check.specs.Laws.{AcceptedIsFair};

/// What is accepted has no flat tetrahedron and none twice, and is sound.
pub fn accepted_is_fair()
    ensures { AcceptedIsFair }
{}
