//! Each law is the contract of a function that does nothing.
ghost use Rattle.vote_laws.specs.Chosen.{OrdersAreOwed, ProposalsAreLed, ProposalsAreOwed, VotesAreOwed, WonAreChosen, WonAreLed};

/// A part proposes the legal operations of the mesh that it leads.
pub fn proposals_are_led()
    ensures { ProposalsAreLed }
{}

/// It proposes to each part what it owes it.
pub fn proposals_are_owed()
    ensures { ProposalsAreOwed }
{}

/// By what was proposed to it, its ballots are the votes that it owes.
pub fn votes_are_owed()
    ensures { VotesAreOwed }
{}

/// By the votes that come, it wins the chosen operations that it leads.
pub fn won_are_led()
    ensures { WonAreLed }
{}

/// It orders of each part what it owes it.
pub fn orders_are_owed()
    ensures { OrdersAreOwed }
{}

/// What all parts win is what the pass chooses.
pub fn won_are_chosen()
    ensures { WonAreChosen }
{}
