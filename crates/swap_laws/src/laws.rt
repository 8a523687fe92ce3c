//! Each law is the contract of a function that does nothing.
ghost use Rattle.swap_laws.specs.Swaps.{LegalSwapAdapts};

/// The mesh that a legal swap of a sound mesh leaves is adapted from the one before.
pub fn legal_swap_adapts()
    ensures { LegalSwapAdapts }
{}
