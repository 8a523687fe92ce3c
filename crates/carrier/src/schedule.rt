//! In which order letters are taken.
ghost use Rattle.std.specs.Prelude.{◌≡◌};
ghost use Rattle.carrier.specs.Schedule.{after_pick, next_of};

use std::marker::Model;

/// Picks, which are used one after another. A pick names the letter at place `pick mod n` of the n
/// letters that wait.
#[derive(Debug, Drop)]
pub struct Schedule {
    picks: Vec<u64>,
    next: usize,
}

impl Model for Schedule {
    ghost use Rattle.std.specs.Prelude.{◌≤◌, length};
    ghost use Rattle.carrier.specs.Schedule.{Picks};

    ghost Value = { Picks };

    ghost view = { λ s. record { picks = s.picks.items; next = s.next } };

    ghost invariant = { λ s. s.next ≤ length s.picks.items };
}

impl Schedule {
    /// A schedule of which no pick was used. Takes no memory.
    pub fn new(picks: Vec<u64>) -> Schedule
        ensures { result ≡ record { picks = picks.items; next = 0 } }
    {
        Schedule { picks, next: 0 }
    }

    /// The next pick, and 0 when they have run out. Takes no memory.
    pub fn next_pick(&mut self) -> u64
        ensures pick { result ≡ next_of self.old }
        ensures after { self.new ≡ after_pick self.old }
    {
        if self.next < self.picks.len() {
            let pick = self.picks[self.next];
            self.next += 1;
            pick
        } else {
            0
        }
    }
}
