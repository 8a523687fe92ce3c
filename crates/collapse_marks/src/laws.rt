//! Each law is the contract of a function that does nothing.
ghost use Rattle.collapse_marks.specs.Legal.{LegalCollapseKeepsClassification};
ghost use Rattle.collapse_marks.specs.Marks.{MovedMarksKeepClassification};

/// Where the tests of a collapse that look at marks pass, the moved marks classify each point as before.
pub fn moved_marks_keep_classification()
    ensures { MovedMarksKeepClassification }
{}

/// So a legal collapse in a sound mesh keeps the classification.
pub fn legal_collapse_keeps_classification()
    ensures { LegalCollapseKeepsClassification }
{}
