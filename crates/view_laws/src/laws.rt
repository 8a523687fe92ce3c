//! Each law is the contract of a function that does nothing.
ghost use Rattle.view_laws.specs.Truths.{RulesFollow, RulesStop};
ghost use Rattle.view_laws.specs.Views.{FirstRoundEndsInViews, UnionIsMesh};

/// The rules of a part lead where the mesh says.
pub fn rules_follow()
    ensures { RulesFollow }
{}

/// They stop where the mesh has too many tetrahedra.
pub fn rules_stop()
    ensures { RulesStop }
{}

/// Whatever is drawn, each part ends round 0 with its view.
pub fn first_round_ends_in_views()
    ensures { FirstRoundEndsInViews }
{}

/// The views of all parts together are the mesh.
pub fn union_is_mesh()
    ensures { UnionIsMesh }
{}
