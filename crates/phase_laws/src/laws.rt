//! Each law is the contract of a function that does nothing.
ghost use Rattle.phase_laws.specs.Drawing.{AllEndWhateverIsDrawn, StartIsRight, TurnsStayRight};
ghost use Rattle.phase_laws.specs.Lockstep.{LockstepIsFollowed};
ghost use Rattle.phase_laws.specs.Truth.{EventStaysRight, NoneWaitsJustAtTheEnd};

/// Each letter that waits is taken by the part that it names, and all stands right again.
pub fn event_stays_right<S, B, W>()
    ensures { EventStaysRight S B W }
{}

/// Where all stands right, no letter waits just if all parts have ended.
pub fn none_waits_just_at_the_end<S, B, W>()
    ensures { NoneWaitsJustAtTheEnd S B W }
{}

/// Where all parts have begun a round, all stands right.
pub fn start_is_right<S, B, W>()
    ensures { StartIsRight S B W }
{}

/// Whatever is drawn, all stands right.
pub fn turns_stay_right<S, B, W>()
    ensures { TurnsStayRight S B W }
{}

/// After as many turns as there are letters all parts have ended the round, whatever is drawn.
pub fn all_end_whatever_is_drawn<S, B, W>()
    ensures { AllEndWhateverIsDrawn S B W }
{}

/// Rules that don't look ahead follow the run in which all parts go from phase to phase together.
pub fn lockstep_is_followed<S, B, W>()
    ensures { LockstepIsFollowed S B W }
{}
