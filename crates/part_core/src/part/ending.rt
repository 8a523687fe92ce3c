// How a phase ends.
ghost use Rattle.std.specs.Prelude.{◌≡◌, ◌<◌, ◌≤◌, None, IfOk, OnOk};
ghost use Rattle.letters.specs.declared.letter.LetterKind.TheVariants as kinds;
ghost use Rattle.part_core.specs.steps.Going.{Ended, advanced, standing_at, turned};
ghost use Rattle.round_rules.specs.Rounds.{is_kept, left_by, rules};
ghost use Rattle.round_rules.specs.Stages.{phase_kind};

use crate::ends::{over, take_ghosts, take_replies};
use crate::inbox::Inbox;
use crate::part::Part;
use crate::passes::take_deliveries;
use letters::LetterKind;
use ma_geom::Memory;
use round_rules::phase_kind;
use std::alloc::Global;

impl Part {
    /// Goes to the next phase, and hands out the letters of the one that ends. None is kept.
    fn turn(&mut self, alloc: Global) -> Inbox
        requires { self.old.standing.phase ≤ (rules self.old.course).last self.old.standing.round }
        ensures letters { result ≡ self.old.standing.now }
        ensures leaves { self.new ≡ standing_at self.old (turned self.old.standing) }
    {
        self.phase += 1;
        self.kept = Vec::new(alloc);
        let early = std::mem::replace(&mut self.early, Inbox::new(alloc));
        std::mem::replace(&mut self.current, early)
    }

    /// Goes to the next phase, and keeps the letters of the one that ends.
    fn keep(&mut self, alloc: Global) -> Result<(), Memory>
        requires { self.old.standing.phase ≤ (rules self.old.course).last self.old.standing.round }
        ensures { OnOk result (self.new ≡ standing_at self.old (advanced self.old.standing)) }
    {
        self.phase += 1;
        let early = std::mem::replace(&mut self.early, Inbox::new(alloc));
        let letters = std::mem::replace(&mut self.current, early);
        self.kept.insert(0, letters)?;
        Ok(())
    }

    fn end_posts(&mut self, alloc: Global) -> Result<Option<u64>, Memory>
        requires within { self.old.standing.phase ≤ (rules self.old.course).last self.old.standing.round }
        requires kind { phase_kind self.old.standing.phase ≡ kinds.Post }
        ensures { IfOk result (λ total. Ended total self.old self.new) }
    {
        let total = over(&self.store, &self.current);
        if total.is_none() {
            self.keep(alloc)?;
        }
        Ok(total)
    }

    fn end_replies(&mut self, alloc: Global) -> Result<(), Memory>
        requires within { self.old.standing.phase ≤ (rules self.old.course).last self.old.standing.round }
        requires kind { phase_kind self.old.standing.phase ≡ kinds.Reply }
        ensures { OnOk result (Ended None self.old self.new) }
    {
        let replies = self.turn(alloc);
        take_replies(alloc, &mut self.store, replies)
    }

    fn end_ghosts(&mut self, alloc: Global) -> Result<(), Memory>
        requires within { self.old.standing.phase ≤ (rules self.old.course).last self.old.standing.round }
        requires kind { phase_kind self.old.standing.phase ≡ kinds.Ghosts }
        ensures { OnOk result (Ended None self.old self.new) }
    {
        let batches = self.turn(alloc);
        take_ghosts(alloc, &mut self.store, batches)
    }

    fn end_deliveries(&mut self, alloc: Global) -> Result<(), Memory>
        requires within { self.old.standing.phase ≤ (rules self.old.course).last self.old.standing.round }
        requires kind { phase_kind self.old.standing.phase ≡ kinds.Deliver }
        ensures { OnOk result (Ended None self.old self.new) }
    {
        let orders = self.kept_orders(alloc)?;
        let letters = self.turn(alloc);
        take_deliveries(alloc, &mut self.store, &orders, letters)?;
        Ok(())
    }

    /// Ends the phase, unless it has posts that tell too many tetrahedra.
    pub(crate) fn end_phase(&mut self, alloc: Global) -> Result<Option<u64>, Memory>
        requires { self.old.standing.phase ≤ (rules self.old.course).last self.old.standing.round }
        ensures { IfOk result (λ total. Ended total self.old self.new) }
    {
        match phase_kind(self.phase) {
            LetterKind::Post => return self.end_posts(alloc),
            LetterKind::Reply => self.end_replies(alloc)?,
            LetterKind::Ghosts => self.end_ghosts(alloc)?,
            LetterKind::Deliver => self.end_deliveries(alloc)?,
            _ => self.keep(alloc)?,
        }
        Ok(None)
    }
}
