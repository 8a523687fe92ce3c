// Operations that go to each part with a tetrahedron in their cavity.
ghost use Rattle.std.specs.Prelude.{◌≡◌, ℕ, filter, IfOk};
ghost use Rattle.std.specs.List.{zip};
ghost use Rattle.part_store.specs.Agreement.{all_in};
ghost use Rattle.part_store.specs.Stores.{view_in};
ghost use Rattle.part_vote.specs.Leading.{reaches};
ghost use Rattle.part_vote.specs.Voting.{ordered_to, proposed_to};
ghost use Rattle.pass_letters.specs.Sending.{addressed_to};

use crate::listed::push_if;
use cavity_rank::{Kind, Operation};
use ma_cells::{Ascending, Label};
use ma_geom::Memory;
use part_store::Store;
use part_vote::{cavity_labels, proposals, won};
use size_marks::SizeField;
use std::alloc::Global;
use std::marker::Model;

/// Operations in order of rank, each with the labels of its cavity, so that what goes to a part is
/// found without a look at the mesh.
#[derive(Debug, Drop)]
pub struct Addressed {
    entries: Vec<(Operation, Ascending<Label>)>,
}

impl Model for Addressed {
    ghost use Rattle.std.specs.Prelude.{map};
    ghost use Rattle.std.specs.List.Sorted.{IsStrictlySortedBy};
    ghost use Rattle.cavity_rank.specs.Operations.{rank};
    ghost use Rattle.pass_letters.specs.Sending.{AddressedState};

    ghost Value = { AddressedState };

    ghost view = { λ a. record { entries = a.entries.items } };

    ghost invariant = { λ a. IsStrictlySortedBy rank (map (λ entry. entry.0) a.entries.items) };
}

/// Each operation with its labels.
fn joined(
    alloc: Global,
    ops: Vec<Operation>,
    labels: Vec<Ascending<Label>>,
) -> Result<Vec<(Operation, Ascending<Label>)>, Memory>
    ensures { IfOk result (λ entries. entries.items ≡ zip ops.items labels.items) }
{
    let entries = ops.into_iter().zip(labels.into_iter()).collect(alloc)?;
    Ok(entries)
}

/// The operations that have the label of a part.
fn with_label(
    alloc: Global,
    entries: &[(Operation, Ascending<Label>)],
    part: Label,
) -> Result<Vec<Operation>, Memory>
    ensures { IfOk result (λ ops. ops.items ≡ addressed_to (record { entries = entries.now }) part) }
{
    let mut ops = Vec::new(alloc);
    for entry in entries {
        push_if(&mut ops, &entry.0, entry.1.contains(&part))?;
    }
    Ok(ops)
}

impl Addressed {
    /// What goes to a part, in order of rank.
    pub fn to(&self, alloc: Global, part: Label) -> Result<Ascending<Operation>, Memory>
        ensures { IfOk result (λ ops. ops ≡ addressed_to self.now part) }
    {
        let ops = with_label(alloc, self.entries.as_slice(), part)?;
        Ok(Ascending::from_vec(ops))
    }
}

/// These operations, addressed to all parts that have a tetrahedron in their cavity, by what a part
/// sees.
fn by_cavities(alloc: Global, store: &Store, ops: Ascending<Operation>) -> Result<Addressed, Memory>
    ensures { IfOk result (λ letters. (part : ℕ) → addressed_to letters part ≡ filter (reaches (all_in (view_in store.now)) part) ops) }
{
    let labels = cavity_labels(alloc, store, ops.as_slice())?;
    let entries = joined(alloc, ops.into_vec(), labels)?;
    Ok(Addressed { entries })
}

/// What a part proposes to each other part: of the legal operations that it leads those that have a
/// tetrahedron of the other in their cavity. It takes n log n steps for all parts together, where no
/// vertex has more than a bounded number of tetrahedra.
pub fn proposed(
    alloc: Global,
    store: &Store,
    field: &SizeField,
    kind: Kind,
) -> Result<Addressed, Memory>
    ensures { IfOk result (λ letters. (part : ℕ) → addressed_to letters part ≡ proposed_to kind field.now (view_in store.now) part) }
{
    let ops = proposals(alloc, store, field, kind)?;
    by_cavities(alloc, store, ops)
}

/// What a part orders of each other part: of the operations that it leads and wins, by its own vote
/// and those that came, the ones that have a tetrahedron of the other in their cavity. It takes
/// n log n steps for all parts together, where no cavity has more than a bounded number of
/// tetrahedra.
pub fn ordered(
    alloc: Global,
    store: &Store,
    led: &Ascending<Operation>,
    mine: &Ascending<Operation>,
    votes: &[(Label, Ascending<Operation>)],
) -> Result<Addressed, Memory>
    ensures { IfOk result (λ letters. (part : ℕ) → addressed_to letters part ≡ ordered_to (view_in store.now) led.now mine.now votes.now part) }
{
    let ops = won(alloc, store, led, mine, votes)?;
    by_cavities(alloc, store, ops)
}
