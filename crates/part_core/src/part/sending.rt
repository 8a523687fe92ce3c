// The letters of a phase.
ghost use Rattle.pass_letters.specs.Sending.{addressed_to, votes_to};
ghost use Rattle.std.specs.Prelude.{◌≡◌, ℕ, ◌<◌, ◌≤◌, ◌-◌, ◌++◌, map, IfOk, OnOk};
ghost use Rattle.part_core.specs.Parts.{sent};
ghost use Rattle.part_core.specs.steps.Going.{IsPrepared, standing_at};
ghost use Rattle.part_phases.specs.Phases.{entered, letters_of};
ghost use Rattle.part_rules.specs.Bodies.{posts_in};
ghost use Rattle.part_rules.specs.Rounds.{latest, shown_to};
ghost use Rattle.part_store.specs.Stores.{view_in};
ghost use Rattle.part_vote.specs.Voting.{proposed_to, voted_to};
ghost use Rattle.round_rules.specs.Bodies.{orders_in, proposals_in, votes_in};
ghost use Rattle.round_rules.specs.Rounds.{latest_but_one, ordered_of, rules};
ghost use Rattle.round_rules.specs.Stages.{pass_kind, passes_before};

use crate::ends::directory;
use crate::part::Part;
use crate::passes::{Lists, ordered_by, orders, proposals, votes};
use directory::{Directory, everything, for_home};
use ghost_layer::ghosts_among;
use letters::{Body, Letter, LetterKind, Post};
use ma_cells::{Ascending, Batch, Label, Tet};
use ma_geom::Memory;
use pass_letters::{Addressed, Votes, delivered_to, proposed, voted};
use round_rules::{pass_kind, passes_before, phase_kind};
use std::alloc::Global;

/// What the letters of a phase are made from: all that there is to post, the posts that came, the
/// part's own tetrahedra, operations with those that they go to, or the orders that came.
#[derive(Debug, Drop)]
pub(crate) enum Prepared {
    Posts(Post),
    Replies(Directory),
    Ghosts(Ascending<Tet>),
    Proposals(Addressed),
    Votes(Votes),
    Orders(Addressed),
    Deliveries(Lists),
}

impl Part {
    /// The exponent of the grid of the round.
    pub(crate) fn exponent(&self) -> u32
        ensures value { result ≡ self.now.course.grid - self.now.standing.round }
        ensures most { result ≤ 30 }
    {
        self.course.grid - self.round
    }

    /// The directory of the posts that were kept.
    fn kept_posts(&self, alloc: Global) -> Result<Directory, Memory>
        ensures { IfOk result (λ posts. posts ≡ posts_in (latest self.now.standing.kept)) }
    {
        match self.kept.as_slice() {
            [posts, ..] => directory(alloc, posts),
            [] => Ok(Directory::new(alloc)),
        }
    }

    /// The proposals of the phase before.
    fn kept_proposals(&self, alloc: Global) -> Result<Lists, Memory>
        ensures { IfOk result (λ lists. lists.items ≡ proposals_in (latest self.now.standing.kept)) }
    {
        match self.kept.as_slice() {
            [letters, ..] => proposals(alloc, letters),
            [] => Ok(Vec::new(alloc)),
        }
    }

    /// The votes of the phase before.
    fn kept_votes(&self, alloc: Global) -> Result<Lists, Memory>
        ensures { IfOk result (λ lists. lists.items ≡ votes_in (latest self.now.standing.kept)) }
    {
        match self.kept.as_slice() {
            [letters, ..] => votes(alloc, letters),
            [] => Ok(Vec::new(alloc)),
        }
    }

    /// The proposals of the phase before that.
    fn voted_proposals(&self, alloc: Global) -> Result<Lists, Memory>
        ensures { IfOk result (λ lists. lists.items ≡ proposals_in (latest_but_one self.now.standing.kept)) }
    {
        match self.kept.as_slice() {
            [_, letters, ..] => proposals(alloc, letters),
            _ => Ok(Vec::new(alloc)),
        }
    }

    /// The orders of the phase before.
    pub(crate) fn kept_orders(&self, alloc: Global) -> Result<Lists, Memory>
        ensures { IfOk result (λ lists. lists.items ≡ orders_in (latest self.now.standing.kept)) }
    {
        match self.kept.as_slice() {
            [letters, ..] => orders(alloc, letters),
            [] => Ok(Vec::new(alloc)),
        }
    }

    /// What the part proposes.
    fn proposed(&self, alloc: Global) -> Result<Addressed, Memory>
        ensures { IfOk result (λ letters. (part : ℕ) → addressed_to letters part ≡ proposed_to (pass_kind self.now.course (passes_before self.now.standing.phase)) self.now.course.field (view_in self.now.standing.holds) part) }
    {
        let kind = pass_kind(&self.course, passes_before(self.phase));
        proposed(alloc, &self.store, &self.course.field, kind)
    }

    /// For what it votes.
    fn voted(&self, alloc: Global) -> Result<Votes, Memory>
        ensures { IfOk result (λ letters. (part : ℕ) → votes_to letters part ≡ voted_to (view_in self.now.standing.holds) (proposals_in (latest self.now.standing.kept)) part) }
    {
        let lists = self.kept_proposals(alloc)?;
        voted(alloc, &self.store, lists)
    }

    /// What it orders.
    fn ordered(&self, alloc: Global) -> Result<Addressed, Memory>
        ensures { IfOk result (λ letters. (part : ℕ) → addressed_to letters part ≡ ordered_of self.now.standing part) }
    {
        let lists = self.voted_proposals(alloc)?;
        let votes = self.kept_votes(alloc)?;
        let letters = ordered_by(alloc, &self.store, &lists, &votes)?;
        Ok(letters)
    }

    fn prepare(&self, alloc: Global) -> Result<Prepared, Memory>
        ensures { IfOk result (λ prepared. IsPrepared prepared self.now.course self.now.standing) }
    {
        let prepared = match phase_kind(self.phase) {
            LetterKind::Post => Prepared::Posts(everything(alloc, &self.store)?),
            LetterKind::Reply => Prepared::Replies(self.kept_posts(alloc)?),
            LetterKind::Ghosts => Prepared::Ghosts(self.store.own_tets(alloc)?),
            LetterKind::Propose => Prepared::Proposals(self.proposed(alloc)?),
            LetterKind::Vote => Prepared::Votes(self.voted(alloc)?),
            LetterKind::Order => Prepared::Orders(self.ordered(alloc)?),
            LetterKind::Deliver => Prepared::Deliveries(self.kept_orders(alloc)?),
        };
        Ok(prepared)
    }

    fn shown_to(&self, alloc: Global, own: &Ascending<Tet>, target: Label) -> Result<Batch, Memory>
        requires { own.now ≡ self.now.standing.holds.own }
        ensures { IfOk result (λ batch. batch ≡ shown_to self.now.standing.holds target) }
    {
        if target == self.store.part() {
            Ok(Batch {
                tets: Ascending::new(alloc),
                marks: Ascending::new(alloc),
            })
        } else {
            ghosts_among(alloc, &self.store, own, target)
        }
    }

    /// The body for a part, also for the part itself.
    fn body_for(&self, alloc: Global, prepared: &Prepared, target: Label) -> Result<Body, Memory>
        requires { IsPrepared prepared.now self.now.course self.now.standing }
        ensures { IfOk result (λ body. body ≡ (rules self.now.course).sends self.now.standing target) }
    {
        let body = match prepared {
            Prepared::Posts(all) => {
                let parts = self.course.parts;
                Body::Post(for_home(alloc, all, target, self.exponent(), parts)?)
            }
            Prepared::Replies(posts) => Body::Reply(posts.reply(alloc, target)?),
            Prepared::Ghosts(own) => Body::Ghosts(self.shown_to(alloc, own, target)?),
            Prepared::Proposals(letters) => Body::Propose(letters.to(alloc, target)?),
            Prepared::Votes(letters) => Body::Vote(letters.to(alloc, target)?),
            Prepared::Orders(letters) => Body::Order(letters.to(alloc, target)?),
            Prepared::Deliveries(orders) => {
                Body::Deliver(delivered_to(alloc, &self.store, orders.as_slice(), target)?)
            }
        };
        Ok(body)
    }

    /// Appends the letters of the phase, one for each other part.
    fn send_all(
        &self,
        alloc: Global,
        prepared: &Prepared,
        out: &mut Vec<Letter>,
    ) -> Result<(), Memory>
        requires { IsPrepared prepared.now self.now.course self.now.standing }
        ensures { OnOk result (out.new.items ≡ out.old.items ++ map sent (letters_of (rules self.now.course) self.now.standing)) }
    {
        for target in 0..self.course.parts {
            if target != self.me {
                let body = self.body_for(alloc, prepared, target)?;
                out.push(Letter {
                    round: self.round,
                    phase: self.phase,
                    sender: self.me,
                    target,
                    body,
                })?;
            }
        }
        Ok(())
    }

    /// Sends the letters of the phase, and keeps the part's own body.
    pub(crate) fn enter(&mut self, alloc: Global, out: &mut Vec<Letter>) -> Result<(), Memory>
        ensures sent { OnOk result (out.new.items ≡ out.old.items ++ map sent (letters_of (rules self.old.course) self.old.standing)) }
        ensures entered { OnOk result (self.new ≡ standing_at self.old (entered (rules self.old.course) self.old.standing)) }
    {
        let prepared = self.prepare(alloc)?;
        self.send_all(alloc, &prepared, out)?;
        let own = self.body_for(alloc, &prepared, self.me)?;
        self.current.put_in(self.me, own)
    }
}
