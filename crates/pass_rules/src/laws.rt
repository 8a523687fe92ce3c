//! Laws of passes. These functions do nothing: what they ensure is a theorem.
ghost use Rattle.pass_rules.specs.Changes.{AnyOrderIsAtOnce};
ghost use Rattle.pass_rules.specs.Choosing.{PartsDecide, WinnersAreApart};
ghost use Rattle.pass_rules.specs.Keeping.{PassesAreNotFlat, PassesStayOnTheGrid};

/// No tetrahedron is in the cavities of two winners.
pub fn winners_are_apart()
    ensures { WinnersAreApart }
{}

/// What the parts of a mesh say, each of its own tetrahedra, tells which operations win.
pub fn parts_decide()
    ensures { PartsDecide }
{}

/// Changes of a set, one after the other in any order, are all at once, if none takes what an
/// earlier one adds.
pub fn any_order_is_at_once()
    ensures { AnyOrderIsAtOnce }
{}

/// A pass leaves no flat tetrahedron.
pub fn passes_are_not_flat()
    ensures { PassesAreNotFlat }
{}

/// A pass keeps a mesh on its grid.
pub fn passes_stay_on_the_grid()
    ensures { PassesStayOnTheGrid }
{}
