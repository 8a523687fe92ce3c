// Which of its operations a part wins.
ghost use Rattle.std.specs.Prelude.{◌≡◌, ◌&&◌, ◌||◌, ◌==◌, filter, IfOk};
ghost use Rattle.std.specs.List.{list_all};
ghost use Rattle.ma_cells.specs.Ascending.{has};
ghost use Rattle.cavity_rank.specs.Operations.{rank};
ghost use Rattle.part_store.specs.Stores.{view_in};
ghost use Rattle.part_vote.specs.Voting.{has_all_votes, is_from, won};

use crate::cavities::{Cavities, push_if};
use cavity_rank::Operation;
use ma_cells::{Ascending, Label};
use ma_geom::Memory;
use part_store::Store;
use std::alloc::Global;

fn has(ops: &Ascending<Operation>, op: &Operation) -> bool
    ensures { result ≡ has rank op.now ops.now }
{
    ops.contains(op)
}

/// Whether this list is of a part, and has an operation.
fn is_in(list: &(Label, Ascending<Operation>), op: &Operation, part: Label) -> bool
    ensures { result ≡ ((list.now.0 == part) && has rank op.now list.now.1) }
{
    list.0 == part && has(&list.1, op)
}

/// Whether a part sent an operation.
fn is_from(lists: &[(Label, Ascending<Operation>)], op: &Operation, part: Label) -> bool
    ensures { result ≡ is_from lists.now op.now part }
{
    lists.iter().any(|list| is_in(list, op, part))
}

/// Whether a part is this one, or has voted for an operation.
fn agrees(
    votes: &[(Label, Ascending<Operation>)],
    op: &Operation,
    part: Label,
    label: Label,
) -> bool
    ensures { result ≡ ((label == part) || is_from votes.now op.now label) }
{
    label == part || is_from(votes, op, label)
}

/// Whether all of these parts but this one have voted for an operation.
fn all_agree(
    votes: &[(Label, Ascending<Operation>)],
    op: &Operation,
    part: Label,
    labels: &[Label],
) -> bool
    ensures { result ≡ list_all (λ label. (label == part) || is_from votes.now op.now label) labels.now }
{
    labels.iter().all(|label| agrees(votes, op, part, *label))
}

/// Whether an operation is in the part's own vote, and each other part in the cavity has voted for it.
fn is_won(
    alloc: Global,
    cavities: &Cavities,
    part: Label,
    op: &Operation,
    mine: &Ascending<Operation>,
    votes: &[(Label, Ascending<Operation>)],
) -> Result<bool, Memory>
    ensures { IfOk result (λ won. won ≡ has_all_votes cavities.now part mine.now votes.now op.now) }
{
    let labels = cavities.labels(alloc, op)?;
    Ok(has(mine, op) && all_agree(votes, op, part, labels.as_slice()))
}

/// Those of the operations that are won.
fn won_among(
    alloc: Global,
    cavities: &Cavities,
    part: Label,
    led: &[Operation],
    mine: &Ascending<Operation>,
    votes: &[(Label, Ascending<Operation>)],
) -> Result<Vec<Operation>, Memory>
    ensures { IfOk result (λ won. won.items ≡ filter (has_all_votes cavities.now part mine.now votes.now) led.now) }
{
    let mut won = Vec::new(alloc);
    for op in led {
        let is_wanted = is_won(alloc, cavities, part, op, mine, votes)?;
        push_if(&mut won, op, is_wanted)?;
    }
    Ok(won)
}

/// Of the operations that a part leads those in its own vote for which each other part in the cavity
/// has voted. It takes n log n steps, where no cavity has more than a bounded number of tetrahedra.
pub fn won(
    alloc: Global,
    store: &Store,
    led: &Ascending<Operation>,
    mine: &Ascending<Operation>,
    votes: &[(Label, Ascending<Operation>)],
) -> Result<Ascending<Operation>, Memory>
    ensures { IfOk result (λ ops. ops ≡ won (view_in store.now) led.now mine.now votes.now) }
{
    let view = store.view(alloc)?;
    let cavities = Cavities::of(alloc, &view)?;
    let won = won_among(alloc, &cavities, view.part, led.as_slice(), mine, votes)?;
    Ok(Ascending::from_vec(won))
}
