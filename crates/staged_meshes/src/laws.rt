//! Each law is the contract of a function that does nothing.
ghost use Rattle.staged_meshes.specs.Laws.{OpenedIsShared, OpenedMarksStay, PassedIsNotFlat, PassedIsShared, RoundsAreAdapted, RoundsAreOne, SoundMarksStay, StagesAreAdapted, StagesAreAsMany, StagesAreOne};

/// Without labels, each stage is that of the mesh in one piece.
pub fn stages_are_one()
    ensures { StagesAreOne }
{}

/// So is what rounds leave.
pub fn rounds_are_one()
    ensures { RoundsAreOne }
{}

/// Each stage of a sound mesh is adapted.
pub fn stages_are_adapted()
    ensures { StagesAreAdapted }
{}

/// So is what rounds leave of it.
pub fn rounds_are_adapted()
    ensures { RoundsAreAdapted }
{}

/// No tetrahedron comes to have two labels.
pub fn stages_are_as_many()
    ensures { StagesAreAsMany }
{}

/// In a pass over a sound mesh, marks stay on cells.
pub fn sound_marks_stay()
    ensures { SoundMarksStay }
{}

/// Parts share what passes leave, where they do.
pub fn passed_is_shared()
    ensures { PassedIsShared }
{}

/// No tetrahedron is flat behind passes.
pub fn passed_is_not_flat()
    ensures { PassedIsNotFlat }
{}

/// Parts share what a round begins with.
pub fn opened_is_shared()
    ensures { OpenedIsShared }
{}

/// Marks stay on cells in all passes of a round.
pub fn opened_marks_stay()
    ensures { OpenedMarksStay }
{}
