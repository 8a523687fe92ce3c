//! Laws of separated tetrahedra, each the contract of a function that does nothing.
ghost use Rattle.overlap_check.specs.Laws.{NoOverlapCoversOnce, SeparatedCoverOnce, SeparatedLieOnBothSides, SeparatedShareNoPoint};

/// No point is within both of two separated tetrahedra.
pub fn separated_share_no_point()
    ensures { SeparatedShareNoPoint }
{}

/// No point is within more than one of tetrahedra of which every two are separated.
pub fn separated_cover_once()
    ensures { SeparatedCoverOnce }
{}

/// Where no two tetrahedra overlap, no point is within more than one.
pub fn no_overlap_covers_once()
    ensures { NoOverlapCoversOnce }
{}

/// Two separated tetrahedra with a face in common lie on different sides of it.
pub fn separated_lie_on_both_sides()
    ensures { SeparatedLieOnBothSides }
{}
