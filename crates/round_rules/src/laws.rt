//! Each law is the contract of a function that does nothing.
ghost use Rattle.round_rules.specs.Laws.{PassesAreShared, PhasesComeInTurn};

/// The kinds of phases go round in seven.
pub fn phases_come_in_turn()
    ensures { PhasesComeInTurn }
{}

/// After each pass, parts come to share what it leaves.
pub fn passes_are_shared()
    ensures { PassesAreShared }
{}
