//! Each law is the contract of a function that does nothing.
ghost use Rattle.pass_counts.specs.Fourfold.{PassesAreAtMostFourfold};

/// A pass leaves at most four times as many tetrahedra as there were.
pub fn passes_are_at_most_fourfold()
    ensures { PassesAreAtMostFourfold }
{}
