// A part's ballots for what others proposed.
ghost use Rattle.std.specs.Prelude.{◌≡◌, ℕ, filter, IfOk};
ghost use Rattle.std.specs.List.{flat_map};
ghost use Rattle.ma_cells.specs.Ascending.{ascending_of, has};
ghost use Rattle.cavity_rank.specs.Operations.{rank};
ghost use Rattle.part_store.specs.Stores.{view_in};
ghost use Rattle.part_vote.specs.Voting.{voted_to};
ghost use Rattle.pass_letters.specs.Sending.{votes_to};

use crate::listed::{from_part, push_all_if, push_if};
use cavity_rank::Operation;
use ma_cells::{Ascending, Label};
use ma_geom::Memory;
use part_store::Store;
use part_vote::ballots;
use std::alloc::Global;
use std::marker::Model;

/// The ballots of a part over all that was proposed, and the proposals with their senders, so that
/// each sender is answered for its own.
#[derive(Debug, Drop)]
pub struct Votes {
    ballots: Ascending<Operation>,
    proposed: Vec<(Label, Ascending<Operation>)>,
}

impl Model for Votes {
    ghost use Rattle.pass_letters.specs.Sending.{VotesState};

    ghost Value = { VotesState };

    ghost view = { λ v. record { ballots = v.ballots; proposed = v.proposed.items } };
}

fn op_set(ops: Vec<Operation>) -> Ascending<Operation>
    ensures { result ≡ ascending_of rank ops.items }
{
    Ascending::gather(ops)
}

/// All operations of the lists.
fn all_listed(
    alloc: Global,
    lists: &[(Label, Ascending<Operation>)],
) -> Result<Vec<Operation>, Memory>
    ensures { IfOk result (λ ops. ops.items ≡ flat_map (λ list. list.1) lists.now) }
{
    let mut ops = Vec::new(alloc);
    for list in lists {
        push_all_if(&mut ops, &list.1, true)?;
    }
    Ok(ops)
}

fn has(ops: &Ascending<Operation>, op: &Operation) -> bool
    ensures { result ≡ has rank op.now ops.now }
{
    ops.contains(op)
}

/// Those of the operations that are in a set.
fn among(
    alloc: Global,
    ops: &[Operation],
    set: &Ascending<Operation>,
) -> Result<Vec<Operation>, Memory>
    ensures { IfOk result (λ kept. kept.items ≡ filter (λ op. has rank op set.now) ops.now) }
{
    let mut kept = Vec::new(alloc);
    for op in ops {
        push_if(&mut kept, op, has(set, op))?;
    }
    Ok(kept)
}

impl Votes {
    /// What goes to a part, in order of rank: the ballots for what it proposed. The lists are gone
    /// through once, and each ballot is then looked up in those of the part.
    pub fn to(&self, alloc: Global, part: Label) -> Result<Ascending<Operation>, Memory>
        ensures { IfOk result (λ ops. ops ≡ votes_to self.now part) }
    {
        let listed = op_set(from_part(alloc, self.proposed.as_slice(), part)?);
        let voted = among(alloc, self.ballots.as_slice(), &listed)?;
        Ok(Ascending::from_vec(voted))
    }
}

/// How a part votes on what all parts proposed, itself included. It takes n log n steps for all
/// parts together, where no cavity has more than a bounded number of tetrahedra.
pub fn voted(
    alloc: Global,
    store: &Store,
    proposed: Vec<(Label, Ascending<Operation>)>,
) -> Result<Votes, Memory>
    ensures { IfOk result (λ letters. (part : ℕ) → votes_to letters part ≡ voted_to (view_in store.now) proposed.items part) }
{
    let all = op_set(all_listed(alloc, proposed.as_slice())?);
    let ballots = ballots(alloc, store, &all)?;
    Ok(Votes { ballots, proposed })
}
