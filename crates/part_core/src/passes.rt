// What the letters of a pass have, out of inboxes.
ghost use Rattle.pass_letters.specs.Sending.{addressed_to};
ghost use Rattle.part_store.specs.Stores.{view_in};
ghost use Rattle.part_vote.specs.Voting.{ordered_to};
ghost use Rattle.std.specs.Prelude.{◌≡◌, ℕ, ◌∷◌, [], ◌++◌, IfOk, OnOk};
ghost use Rattle.part_gather.specs.Ordered.{after_orders};
ghost use Rattle.round_rules.specs.Bodies.{deliveries_in, delivery_from, order_from, orders_in, proposal_from, proposals_in, sent_by, vote_from, votes_in};

use crate::inbox::Inbox;
use cavity_rank::Operation;
use letters::Body;
use ma_cells::{Ascending, Batch, Label};
use ma_geom::Memory;
use part_store::Store;
use pass_letters::{Addressed, ordered};
use std::alloc::Global;

/// Operations, each list with its sender.
pub(crate) type Lists = Vec<(Label, Ascending<Operation>)>;

/// Appends a copy of an operation.
fn push_copy(into: &mut Vec<Operation>, op: &Operation) -> Result<(), Memory>
    ensures { OnOk result (into.new.items ≡ into.old.items ++ op.now ∷ []) }
{
    into.push(op.clone()?)?;
    Ok(())
}

/// The same operations, in a list of their own.
fn copied_list(alloc: Global, ops: &[Operation]) -> Result<Vec<Operation>, Memory>
    ensures { IfOk result (λ copy. copy.items ≡ ops.now) }
{
    let mut copy = Vec::new(alloc);
    for op in ops {
        push_copy(&mut copy, op)?;
    }
    Ok(copy)
}

fn copied(alloc: Global, ops: &Ascending<Operation>) -> Result<Ascending<Operation>, Memory>
    ensures { IfOk result (λ copy. copy ≡ ops.now) }
{
    let copy = copied_list(alloc, ops.as_slice())?;
    Ok(Ascending::from_vec(copy))
}

/// Appends a copy of some operations, with their sender.
fn push_list(
    alloc: Global,
    lists: &mut Lists,
    sender: Label,
    ops: &Ascending<Operation>,
) -> Result<(), Memory>
    ensures { OnOk result (lists.new.items ≡ lists.old.items ++ (sender, ops.now) ∷ []) }
{
    lists.push((sender, copied(alloc, ops)?))?;
    Ok(())
}

fn put_proposal(alloc: Global, lists: &mut Lists, sender: Label, body: &Body) -> Result<(), Memory>
    ensures { OnOk result (lists.new.items ≡ lists.old.items ++ proposal_from sender body.now) }
{
    match body {
        Body::Propose(ops) => push_list(alloc, lists, sender, ops),
        _ => Ok(()),
    }
}

fn put_vote(alloc: Global, lists: &mut Lists, sender: Label, body: &Body) -> Result<(), Memory>
    ensures { OnOk result (lists.new.items ≡ lists.old.items ++ vote_from sender body.now) }
{
    match body {
        Body::Vote(ops) => push_list(alloc, lists, sender, ops),
        _ => Ok(()),
    }
}

fn put_order(alloc: Global, lists: &mut Lists, sender: Label, body: &Body) -> Result<(), Memory>
    ensures { OnOk result (lists.new.items ≡ lists.old.items ++ order_from sender body.now) }
{
    match body {
        Body::Order(ops) => push_list(alloc, lists, sender, ops),
        _ => Ok(()),
    }
}

fn put_delivery(got: &mut Vec<(Label, Batch)>, sender: Label, body: Body) -> Result<(), Memory>
    ensures { OnOk result (got.new.items ≡ got.old.items ++ delivery_from sender body) }
{
    if let Body::Deliver(batch) = body {
        got.push((sender, batch))?;
    }
    Ok(())
}

/// The proposals among these letters.
pub(crate) fn proposals(alloc: Global, inbox: &Inbox) -> Result<Lists, Memory>
    ensures { IfOk result (λ lists. lists.items ≡ proposals_in inbox.now) }
{
    let mut lists = Vec::new(alloc);
    for (sender, body) in inbox.iter() {
        put_proposal(alloc, &mut lists, *sender, body)?;
    }
    Ok(lists)
}

/// The votes among them.
pub(crate) fn votes(alloc: Global, inbox: &Inbox) -> Result<Lists, Memory>
    ensures { IfOk result (λ lists. lists.items ≡ votes_in inbox.now) }
{
    let mut lists = Vec::new(alloc);
    for (sender, body) in inbox.iter() {
        put_vote(alloc, &mut lists, *sender, body)?;
    }
    Ok(lists)
}

/// The orders among them.
pub(crate) fn orders(alloc: Global, inbox: &Inbox) -> Result<Lists, Memory>
    ensures { IfOk result (λ lists. lists.items ≡ orders_in inbox.now) }
{
    let mut lists = Vec::new(alloc);
    for (sender, body) in inbox.iter() {
        put_order(alloc, &mut lists, *sender, body)?;
    }
    Ok(lists)
}

/// The deliveries among them, out of the inbox.
fn deliveries(alloc: Global, inbox: Inbox) -> Result<Vec<(Label, Batch)>, Memory>
    ensures { IfOk result (λ got. got.items ≡ deliveries_in inbox) }
{
    let mut got = Vec::new(alloc);
    for (sender, body) in inbox.into_iter() {
        put_delivery(&mut got, sender, body)?;
    }
    Ok(got)
}

/// The operations of one sender, none where there is no list of it.
pub(crate) fn sent_by(
    alloc: Global,
    lists: &[(Label, Ascending<Operation>)],
    sender: Label,
) -> Result<Ascending<Operation>, Memory>
    ensures { IfOk result (λ ops. ops ≡ sent_by lists.now sender) }
{
    for list in lists {
        if list.0 == sender {
            return copied(alloc, &list.1);
        }
    }
    Ok(Ascending::new(alloc))
}

/// What a part orders, by these proposals and votes, its own among them.
pub(crate) fn ordered_by(
    alloc: Global,
    store: &Store,
    lists: &Lists,
    votes: &Lists,
) -> Result<Addressed, Memory>
    ensures { IfOk result (λ letters. (part : ℕ) → addressed_to letters part ≡ ordered_to (view_in store.now) (sent_by lists.now.items store.now.part) (sent_by votes.now.items store.now.part) votes.now.items part) }
{
    let me = store.part();
    let led = sent_by(alloc, lists.as_slice(), me)?;
    let mine = sent_by(alloc, votes.as_slice(), me)?;
    let letters = ordered(alloc, store, &led, &mine, votes.as_slice())?;
    Ok(letters)
}

/// Fills the cavities that a part leads, with what was delivered, and takes away what it gives to
/// others.
pub(crate) fn take_deliveries(
    alloc: Global,
    store: &mut Store,
    orders: &Lists,
    letters: Inbox,
) -> Result<(), Memory>
    ensures { OnOk result (store.new ≡ after_orders store.old orders.now.items (deliveries_in letters)) }
{
    let got = deliveries(alloc, letters)?;
    pass_letters::take_deliveries(alloc, store, orders.as_slice(), got)?;
    Ok(())
}
