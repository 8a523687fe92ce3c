//! Each law is the contract of a function that does nothing.
ghost use Rattle.collapse_laws.specs.Collapses.{LegalCollapseAdapts, LegalCollapseKeepsMesh};

/// A legal collapse leaves a sound mesh, with the same cover of each region.
pub fn legal_collapse_keeps_mesh()
    ensures { LegalCollapseKeepsMesh }
{}

/// The mesh that it leaves is adapted from the one before.
pub fn legal_collapse_adapts()
    ensures { LegalCollapseAdapts }
{}
