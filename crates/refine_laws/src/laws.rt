//! Each law is the contract of a function that does nothing.
ghost use Rattle.refine_laws.specs.Sound.{RefinementAdapts, RefinementKeepsSound};

/// A refined sound mesh is sound.
pub fn refinement_keeps_sound()
    ensures { RefinementKeepsSound }
{}

/// It is adapted: it covers the same, and keeps the classification.
pub fn refinement_adapts()
    ensures { RefinementAdapts }
{}
