// A part.
ghost use Rattle.std.specs.Prelude.{◌≡◌, ◌+◌, ◌-◌, ◌<◌, ◌≤◌, nat_lt, IfOk};
ghost use Rattle.part_core.specs.Parts.{Answers, IsMemory, IsRunning, Leaves, MayBegin, first_part, taken};
ghost use Rattle.part_phases.specs.Phases.{begun, handed};
ghost use Rattle.round_rules.specs.Rounds.{rules};

use crate::answers::{PartFault, Step};
use crate::inbox::Inbox;
use letters::Letter;
use ma_cells::{Label, Mark, Tet};
use ma_geom::Memory;
use part_rules::{Course, first_off};
use part_store::Store;
use round_rules::last_phase;
use std::alloc::Global;
use std::marker::Model;

mod beginning;
mod ending;
mod going;
mod sending;

/// A part of a mesh, with the letters that it has got.
#[derive(Debug, Drop)]
pub struct Part {
    course: Course,
    me: Label,
    round: u32,
    phase: u32,
    store: Store,
    current: Inbox,
    early: Inbox,
    kept: Vec<Inbox>,
    begun: u32,
    spent: bool,
}

impl Model for Part {
    ghost use Rattle.std.specs.Prelude.{◌+◌, ◌<◌, ◌≤◌};
    ghost use Rattle.part_core.specs.Parts.{PartState};
    ghost use Rattle.round_rules.specs.Rounds.{rules};

    ghost Value = { PartState };

    ghost view = { λ p. record { course = p.course; standing = record { me = p.me; round = p.round; phase = p.phase; holds = p.store; now = p.current; early = p.early; kept = p.kept.items }; begun = p.begun; spent = p.spent } };

    ghost invariant = { λ p. (p.me < p.course.parts) × (p.course.parts ≤ 64) × (p.course.grid ≤ 30) × (p.course.collapse ≤ 16) × (p.course.swap ≤ 16) × (p.round ≤ p.course.grid) × (p.phase ≤ (rules p.course).last p.round + 1) × (p.begun ≤ p.course.grid + 1) };
}

impl Part {
    /// A part with these tetrahedra, each once, and the marks on their cells. No round is begun.
    pub fn start(
        alloc: Global,
        me: Label,
        course: Course,
        own: &[Tet],
        marks: &[Mark],
    ) -> Result<Part, Memory>
        requires me { me < course.parts }
        requires parts { course.parts ≤ 64 }
        requires grid { course.grid ≤ 30 }
        requires collapses { course.collapse ≤ 16 }
        requires swaps { course.swap ≤ 16 }
        ensures { IfOk result (λ part. part ≡ first_part me course own.now marks.now) }
    {
        let store = Store::start(alloc, me, own, marks)?;
        Ok(Part {
            course,
            me,
            round: 0,
            phase: 3,
            store,
            current: Inbox::new(alloc),
            early: Inbox::new(alloc),
            kept: Vec::new(alloc),
            begun: 0,
            spent: false,
        })
    }

    /// Begins the next round and appends the letters of its first phase. From round 1 on it first
    /// refines its own tetrahedra and the marks on their cells by itself. A part that is alone ends
    /// the round.
    pub fn begin(
        &mut self,
        alloc: Global,
        round: u32,
        out: &mut Vec<Letter>,
    ) -> Result<Step, PartFault>
        requires may { MayBegin self.old round }
        ensures fault { IsMemory result }
        ensures answer { Answers result (begun (rules self.old.course) round self.old.standing).answer }
        ensures leaves { Leaves result (begun (rules self.old.course) round self.old.standing) (round + 1) self.old self.new out.old.items out.new.items }
    {
        match self.begin_round(alloc, round, out) {
            Ok(step) => Ok(step),
            Err(_) => {
                self.spent = true;
                Err(PartFault::Memory)
            }
        }
    }

    /// Takes a letter, and goes on as far as the letters allow. Letters that it then sends are
    /// appended by phase and target. A letter that isn't owed, or that has a place that isn't on the
    /// grid of the round, changes nothing.
    pub fn accept(
        &mut self,
        alloc: Global,
        letter: Letter,
        out: &mut Vec<Letter>,
    ) -> Result<Step, PartFault>
        requires running { IsRunning self.old }
        ensures answer { Answers result (handed (rules self.old.course) self.old.standing (taken letter)).answer }
        ensures leaves { Leaves result (handed (rules self.old.course) self.old.standing (taken letter)) self.old.begun self.old self.new out.old.items out.new.items }
    {
        if !self.is_owed(&letter) {
            let phase = self.phase;
            return Err(PartFault::NotExpected { phase });
        }
        if let Some(place) = first_off(self.exponent(), &letter.body) {
            return Err(PartFault::OffGrid(place));
        }
        match self.go_on_with(alloc, letter, out) {
            Ok(step) => Ok(step),
            Err(_) => {
                self.spent = true;
                Err(PartFault::Memory)
            }
        }
    }

    /// What the part has of the mesh. Takes no memory.
    pub fn store(&self) -> &Store
        ensures { result.now ≡ self.now.standing.holds }
    {
        &self.store
    }

    /// Whether it can go on no more, since memory ran out or there are too many tetrahedra. Takes no
    /// memory.
    pub fn is_spent(&self) -> bool
        ensures { result ≡ self.now.spent }
    {
        self.spent
    }

    /// The phase in which it stands, which is past the last where no round runs. Takes no memory.
    pub fn phase(&self) -> u32
        ensures { result ≡ self.now.standing.phase }
    {
        self.phase
    }
}

impl Part {
    /// The number of the part. Takes no memory.
    pub fn number(&self) -> Label
        ensures { result ≡ self.now.standing.me }
    {
        self.me
    }

    /// The round in which it stands. Takes no memory.
    pub fn round(&self) -> u32
        ensures { result ≡ self.now.standing.round }
    {
        self.round
    }

    /// The last phase of that round.
    pub(crate) fn last_phase(&self) -> u32
        ensures value { result ≡ (rules self.now.course).last self.now.standing.round }
        ensures few { result ≤ 226 }
    {
        last_phase(&self.course, self.round)
    }

    /// How many rounds it has begun. Takes no memory.
    pub fn begun(&self) -> u32
        ensures { result ≡ self.now.begun }
    {
        self.begun
    }

    /// Whether no round runs: it stands past the last phase. Takes no memory.
    pub fn is_done(&self) -> bool
        ensures { result ≡ nat_lt ((rules self.now.course).last self.now.standing.round) self.now.standing.phase }
    {
        self.phase > self.last_phase()
    }
}
