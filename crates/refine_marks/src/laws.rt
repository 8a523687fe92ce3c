//! Each law is the contract of a function that does nothing.
ghost use Rattle.refine_marks.specs.Marks.{RefinementKeepsCells, RefinementKeepsClassification};

/// The marks of a refined mesh are on cells.
pub fn refinement_keeps_cells()
    ensures { RefinementKeepsCells }
{}

/// A refined mesh has the points of the marks.
pub fn refinement_keeps_classification()
    ensures { RefinementKeepsClassification }
{}
