// How a part goes from phase to phase.
ghost use Rattle.std.specs.Prelude.{◌≡◌, ◌<◌, ◌≤◌, IfOk, OnErr, OnOk};
ghost use Rattle.part_core.specs.Parts.{PartState, is_over, taken};
ghost use Rattle.part_core.specs.steps.Going.{Came, Gone, standing_at, step_after};
ghost use Rattle.part_phases.specs.Phases.{gone_on, is_complete, is_owed, phases_left, with_letter};
ghost use Rattle.round_rules.specs.Rounds.{rules};

use crate::answers::Step;
use crate::part::Part;
use letters::Letter;
use ma_geom::Memory;
use round_rules::{is_of_kind, phase_kind};
use std::alloc::Global;

/// The answer of a part that entered a phase and then gave this one.
pub(crate) fn step_after(phase: u32, step: Step) -> Step
    ensures { result ≡ step_after phase step }
{
    match step {
        Step::Waiting => Step::Moved(phase),
        Step::Moved(later) => Step::Moved(later),
        Step::RoundDone => Step::RoundDone,
        Step::Over { phase, total } => Step::Over { phase, total },
    }
}

fn is_over(step: Step) -> bool
    ensures { result ≡ is_over step }
{
    matches!(step, Step::Over { .. })
}

impl Part {
    /// Whether a letter is still owed.
    pub(crate) fn is_owed(&self, letter: &Letter) -> bool
        ensures { result ≡ is_owed (rules self.now.course) self.now.standing (taken letter.now) }
    {
        letter.round == self.round
            && letter.target == self.me
            && letter.sender < self.course.parts
            && letter.sender != self.me
            && letter.phase <= self.last_phase()
            && is_of_kind(phase_kind(letter.phase), &letter.body)
            && ((letter.phase == self.phase && self.current.lacks(letter.sender))
                || (letter.phase == self.phase + 1 && self.early.lacks(letter.sender)))
    }

    /// Puts a letter among those of its phase.
    fn take_in(&mut self, letter: Letter) -> Result<(), Memory>
        requires { letter.sender < self.old.course.parts }
        ensures { OnOk result (self.new ≡ standing_at self.old (with_letter self.old.standing (taken letter))) }
    {
        if letter.phase == self.phase {
            self.current.put_in(letter.sender, letter.body)
        } else {
            self.early.put_in(letter.sender, letter.body)
        }
    }

    /// Whether the letters of the phase are all there.
    fn is_complete(&self) -> bool
        ensures { result ≡ is_complete (rules self.now.course) self.now.standing }
    {
        self.current.missing(self.course.parts, self.me) == 0
    }

    /// Goes on as far as the letters at hand allow.
    pub(crate) fn go_on(&mut self, alloc: Global, out: &mut Vec<Letter>) -> Result<Step, Memory>
        requires { self.old.standing.phase ≤ (rules self.old.course).last self.old.standing.round }
        ensures { IfOk result (λ step. Gone step self.old self.new out.old.items out.new.items) }
    {
        if !self.is_complete() {
            return Ok(Step::Waiting);
        }
        let over = self.end_phase(alloc)?;
        let phase = self.phase();
        match over {
            Some(total) => return Ok(Step::Over { phase, total }),
            None => {}
        }
        if phase > self.last_phase() {
            return Ok(Step::RoundDone);
        }
        self.enter(alloc, out)?;
        let step = self.go_on(alloc, out)?;
        Ok(step_after(phase, step))
    }

    /// A part that found too many tetrahedra is spent.
    pub(crate) fn close(&mut self, step: Step)
        ensures { self.new ≡ record { course = self.old.course; standing = self.old.standing; begun = self.old.begun; spent = is_over step } }
    {
        self.spent = is_over(step);
    }

    /// Takes a letter that is owed, and goes on. Its letters are appended at the end, so that none is
    /// where memory runs out.
    pub(crate) fn go_on_with(
        &mut self,
        alloc: Global,
        letter: Letter,
        out: &mut Vec<Letter>,
    ) -> Result<Step, Memory>
        requires running { self.old.standing.phase ≤ (rules self.old.course).last self.old.standing.round }
        requires sender { letter.sender < self.old.course.parts }
        ensures ok { IfOk result (λ step. Came step (gone_on (rules self.old.course) (phases_left (rules self.old.course) self.old.standing) (with_letter self.old.standing (taken letter))) self.old.begun self.old self.new out.old.items out.new.items) }
        ensures err { OnErr result (out.new.items ≡ out.old.items) }
    {
        let mut letters = Vec::new(alloc);
        self.take_in(letter)?;
        let step = self.go_on(alloc, &mut letters)?;
        out.append(&mut letters)?;
        self.close(step);
        Ok(step)
    }
}
