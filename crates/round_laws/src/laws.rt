//! Each law is the contract of a function that does nothing.
ghost use Rattle.round_laws.specs.Ends.{RoundsEndInViews};
ghost use Rattle.round_laws.specs.Truths.{RulesFollow, RulesStop};

/// The rules lead from phase to phase as the mesh says.
pub fn rules_follow()
    ensures { RulesFollow }
{}

/// They stop where there are too many tetrahedra.
pub fn rules_stop()
    ensures { RulesStop }
{}

/// Each round ends with the parts' views, whatever is drawn.
pub fn rounds_end_in_views()
    ensures { RoundsEndInViews }
{}
