//! Each law is the contract of a function that does nothing.
ghost use Rattle.cavity_fillings.specs.Fillings.{FillingsAreApart};

/// What fills a chosen cavity of a sound mesh is in the mesh only within that cavity, and fills no
/// other.
pub fn fillings_are_apart()
    ensures { FillingsAreApart }
{}
