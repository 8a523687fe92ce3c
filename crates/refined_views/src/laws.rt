//! Each law is the contract of a function that does nothing.
ghost use Rattle.refined_views.specs.Laws.{
  PiecesLieOnPieces,
  RefinedHalvesTheGrid,
  RefinedIsAtMostEightfold,
  RefinedIsLabelled,
  RefinedIsNotFlat,
  RefinedIsRefinement,
  RefinedIsShared,
  RefinedMarksAreCarried,
  RefinedStores,
};
ghost use Rattle.refined_views.specs.LaterRounds.{RefiningRoundEndsInViews, RoundsEndInViews};
ghost use Rattle.refined_views.specs.Repeated.{
  RefinedTimesIsAdapted,
  RefinedTimesIsAsMany,
  RefinedTimesIsRefinement,
  RefinedTimesIsShared,
};

/// The pieces of a cell lie on the pieces of each tetrahedron that has it.
pub fn pieces_lie_on_pieces()
    ensures { PiecesLieOnPieces }
{}

/// A refined labelled mesh without its labels is the refined mesh.
pub fn refined_is_refinement()
    ensures { RefinedIsRefinement }
{}

/// It has no flat tetrahedron.
pub fn refined_is_not_flat()
    ensures { RefinedIsNotFlat }
{}

/// It has at most eight times as many tetrahedra.
pub fn refined_is_at_most_eightfold()
    ensures { RefinedIsAtMostEightfold }
{}

/// It is labelled by as many parts.
pub fn refined_is_labelled()
    ensures { RefinedIsLabelled }
{}

/// It is on the next finer grid.
pub fn refined_halves_the_grid()
    ensures { RefinedHalvesTheGrid }
{}

/// All its marks are carried by parts that refine by themselves, and no others.
pub fn refined_marks_are_carried()
    ensures { RefinedMarksAreCarried }
{}

/// A part that refines by itself holds what the refined mesh says of the beginning of a round.
pub fn refined_stores()
    ensures { RefinedStores }
{}

/// So the laws of a round hold of the next round over the refined mesh.
pub fn refined_is_shared()
    ensures { RefinedIsShared }
{}

/// However often a labelled mesh is refined, without its labels it is the mesh refined as often.
pub fn refined_times_is_refinement()
    ensures { RefinedTimesIsRefinement }
{}

/// So a sound mesh is adapted, whatever its labels.
pub fn refined_times_is_adapted()
    ensures { RefinedTimesIsAdapted }
{}

/// And it has as many tetrahedra as without its labels.
pub fn refined_times_is_as_many()
    ensures { RefinedTimesIsAsMany }
{}

/// And the laws of a round hold of each round that the grid allows.
pub fn refined_times_is_shared()
    ensures { RefinedTimesIsShared }
{}

/// Whatever is drawn, a round that the parts begin by refining ends with their views of the refined mesh.
pub fn refining_round_ends_in_views()
    ensures { RefiningRoundEndsInViews }
{}

/// And so each round does, from the start on.
pub fn rounds_end_in_views()
    ensures { RoundsEndInViews }
{}
