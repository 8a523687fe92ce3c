//! Each law is the contract of a function that does nothing.
ghost use Rattle.swap_passes.specs.SwapPasses.{SwapPassAdapts, SwapsGoInAnyOrder};

/// The mesh that a pass of swaps over a sound mesh leaves is adapted from the one before.
pub fn swap_pass_adapts()
    ensures { SwapPassAdapts }
{}

/// The chosen swaps leave the same mesh one after the other, in any order, as all at once.
pub fn swaps_go_in_any_order()
    ensures { SwapsGoInAnyOrder }
{}
