// How a part begins a round.
ghost use Rattle.std.specs.Prelude.{◌≡◌, ◌+◌, ◌≤◌, IfOk, OnErr, OnOk};
ghost use Rattle.part_core.specs.steps.Beginning.{holding, opening};
ghost use Rattle.part_core.specs.steps.Going.{Came};
ghost use Rattle.part_phases.specs.Phases.{begun};
ghost use Rattle.part_rules.specs.Begins.{begins_with, refined_store};
ghost use Rattle.round_rules.specs.Rounds.{rules};

use crate::answers::Step;
use crate::inbox::Inbox;
use crate::part::Part;
use crate::part::going::step_after;
use letters::Letter;
use ma_cells::Batch;
use ma_geom::Memory;
use part_store::Store;
use refinement::refined;
use std::alloc::Global;

impl Part {
    /// Puts the pieces of the part's own tetrahedra, and of the marks on their cells, in place of all
    /// that it has.
    fn refine(&mut self, alloc: Global) -> Result<(), Memory>
        ensures { OnOk result (self.new ≡ holding self.old (refined_store self.old.course.field self.old.standing.holds)) }
    {
        let own = Batch {
            tets: self.store.own_tets(alloc)?,
            marks: self.store.own_marks(alloc)?,
        };
        let pieces = refined(alloc, &own, &self.course.field)?;
        let part = self.store.part();
        self.store = Store::start(alloc, part, pieces.tets.as_slice(), pieces.marks.as_slice())?;
        Ok(())
    }

    /// Refines what the part has, unless the round is the first.
    fn refine_for(&mut self, alloc: Global, round: u32) -> Result<(), Memory>
        ensures { OnOk result (self.new ≡ holding self.old (begins_with self.old.course.field round self.old.standing.holds)) }
    {
        if round > 0 {
            self.refine(alloc)?;
        }
        Ok(())
    }

    /// Stands in the first phase of a round, without a body.
    fn open(&mut self, alloc: Global, round: u32)
        requires { round ≤ self.old.course.grid }
        ensures { self.new ≡ opening self.old round }
    {
        self.round = round;
        self.phase = 0;
        self.current = Inbox::new(alloc);
        self.early = Inbox::new(alloc);
        self.kept = Vec::new(alloc);
        self.begun = round + 1;
    }

    /// Begins a round, and goes on. Its letters are appended at the end.
    pub(crate) fn begin_round(
        &mut self,
        alloc: Global,
        round: u32,
        out: &mut Vec<Letter>,
    ) -> Result<Step, Memory>
        requires { round ≤ self.old.course.grid }
        ensures ok { IfOk result (λ step. Came step (begun (rules self.old.course) round self.old.standing) (round + 1) self.old self.new out.old.items out.new.items) }
        ensures err { OnErr result (out.new.items ≡ out.old.items) }
    {
        let mut letters = Vec::new(alloc);
        self.refine_for(alloc, round)?;
        self.open(alloc, round);
        self.enter(alloc, &mut letters)?;
        let gone = self.go_on(alloc, &mut letters)?;
        let step = step_after(0, gone);
        out.append(&mut letters)?;
        self.close(step);
        Ok(step)
    }
}
