//! Each law is the contract of a function that does nothing.
ghost use Rattle.cavity_laws.specs.Balance.{FacesAreBalanced};
ghost use Rattle.cavity_laws.specs.Cavity.{CavityKeepsCover};
ghost use Rattle.cavity_laws.specs.Filled.{FillingKeepsCover};
ghost use Rattle.cavity_laws.specs.Parity.{CavityKeepsParity};
ghost use Rattle.cavity_laws.specs.Replaced.{ReplacedStaysSound, SwapCanReplace};
ghost use Rattle.cavity_laws.specs.Swap.{SwapKeepsCover, SwapKeepsParity};

/// The cones that replace a cavity have a point within them as often as its tetrahedra.
pub fn cavity_keeps_cover()
    ensures { CavityKeepsCover }
{}

/// So have tetrahedra that list the corners of the cones in any order.
pub fn filling_keeps_cover()
    ensures { FillingKeepsCover }
{}

/// The cones of a cavity, the flat ones with them, have the same faces an odd number of times as its tetrahedra.
pub fn cavity_keeps_parity()
    ensures { CavityKeepsParity }
{}

/// A face that two tetrahedra have, on both sides of it, is balanced, and no more have it.
pub fn faces_are_balanced()
    ensures { FacesAreBalanced }
{}

/// A swap keeps the cover.
pub fn swap_keeps_cover()
    ensures { SwapKeepsCover }
{}

/// It keeps which faces an odd number of tetrahedra have.
pub fn swap_keeps_parity()
    ensures { SwapKeepsParity }
{}

/// A part of a sound mesh can be replaced by what covers the same, has the same faces an odd number of times and has its marked cells.
pub fn replaced_stays_sound()
    ensures { ReplacedStaysSound }
{}

/// In one region a swap does so, if it has the marked cells.
pub fn swap_can_replace()
    ensures { SwapCanReplace }
{}
