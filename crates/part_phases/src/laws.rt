//! Each law is the contract of a function that does nothing.
ghost use Rattle.part_phases.specs.Balance.{BalanceIsKept};
ghost use Rattle.part_phases.specs.Inboxes.{BodiesComeInAnyOrder, FullInboxIsWhatAllSent};
ghost use Rattle.part_phases.specs.Owed.{RoundBegunOwesAllLetters, TakenLetterLowersWhatIsOwed};

/// The order in which bodies of different senders come changes nothing.
pub fn bodies_come_in_any_order<B>()
    ensures { BodiesComeInAnyOrder B }
{}

/// An inbox in which no body is missing is what all sent.
pub fn full_inbox_is_what_all_sent<B>()
    ensures { FullInboxIsWhatAllSent B }
{}

/// A letter that is taken lowers by one what the part is owed, however far the part goes on.
pub fn taken_letter_lowers_what_is_owed<S, B, W>()
    ensures { TakenLetterLowersWhatIsOwed S B W }
{}

/// A part that has begun a round is owed a letter of each phase from each other part.
pub fn round_begun_owes_all_letters<S, B, W>()
    ensures { RoundBegunOwesAllLetters S B W }
{}

/// A letter that is taken, with those that are then sent, keeps the balance of letters.
pub fn balance_is_kept<S, B, W>()
    ensures { BalanceIsKept S B W }
{}
