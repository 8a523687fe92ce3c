// What the letters of a phase leave in the store.
ghost use Rattle.std.specs.Prelude.{◌≡◌, ◌≢◌, ◌<◌, ◌^◌, ◌==◌, ◌++◌, not, filter, Ok, Err, IfOk, OnOk, MatchOption};
ghost use Rattle.std.specs.List.{All, AllByRecursion, flat_map};
ghost use Rattle.part_rules.specs.Bodies.{batch_from, batches_in, post_from, posts_in, replies_in, reply_from};
ghost use Rattle.part_rules.specs.Ends.{after_ghosts, after_posts, after_replies, counted, total_by};

use crate::inbox::Inbox;
use directory::Directory;
use ghost_layer::rebuild;
use letters::{Body, Shared};
use ma_cells::{Batch, Label, Mark};
use ma_geom::Memory;
use part_store::Store;
use std::alloc::Global;

/// How many tetrahedra a mesh may have.
const MOST_TETS: u64 = 1_000_000;

/// How many tetrahedra a body tells, if it is a post of another part.
fn told(me: Label, sender: Label, body: &Body) -> u32
    ensures { result ≡ counted me (post_from sender body.now) }
{
    match body {
        Body::Post(post) => { if sender == me { 0 } else { post.count } }
        _ => 0,
    }
}

/// How many tetrahedra the other parts tell.
fn counted(me: Label, posts: &Inbox) -> u64
    ensures count { result ≡ counted me (posts_in posts.now) }
    ensures few { result < 2 ^ 39 }
{
    let mut count = 0;
    for (sender, body) in posts.iter() {
        count += u64::from(told(me, *sender, body));
    }
    count
}

fn total(store: &Store, posts: &Inbox) -> u64
    ensures { result ≡ total_by store.now (posts_in posts.now) }
{
    store.own_count() + counted(store.part(), posts)
}

/// How many tetrahedra all parts have, if that is too many.
pub(crate) fn over(store: &Store, posts: &Inbox) -> Option<u64>
    ensures { MatchOption result (after_posts store.now (posts_in posts.now) ≡ Ok store.now) (λ total. after_posts store.now (posts_in posts.now) ≡ Err total) }
{
    let total = total(store, posts);
    if total <= MOST_TETS {
        None
    } else {
        Some(total)
    }
}

/// Puts a body into a directory, if it is a post.
#[tactic(auto, using(crate::proofs::Walks::put_behind))]
fn put_post(
    alloc: Global,
    directory: &mut Directory,
    sender: Label,
    body: &Body,
) -> Result<(), Memory>
    requires sender { sender < 64 }
    requires last { AllByRecursion (λ post. post.0 < sender) directory.old }
    ensures { OnOk result (directory.new ≡ directory.old ++ post_from sender body.now) }
{
    match body {
        Body::Post(post) => directory.take_post(alloc, sender, post),
        _ => Ok(()),
    }
}

/// The directory of these posts.
pub(crate) fn directory(alloc: Global, posts: &Inbox) -> Result<Directory, Memory>
    ensures { IfOk result (λ directory. directory ≡ posts_in posts.now) }
{
    let mut directory = Directory::new(alloc);
    for (sender, body) in posts.iter() {
        put_post(alloc, &mut directory, *sender, body)?;
    }
    Ok(directory)
}

/// Appends what a body tells, if it is a reply.
fn put_reply(
    shared: &mut Vec<Shared>,
    marks: &mut Vec<Mark>,
    sender: Label,
    body: Body,
) -> Result<(), Memory>
    ensures shared { OnOk result (shared.new.items ≡ shared.old.items ++ flat_map (λ entry. entry.1.shared) (reply_from sender body)) }
    ensures marks { OnOk result (marks.new.items ≡ marks.old.items ++ flat_map (λ entry. entry.1.marks) (reply_from sender body)) }
{
    if let Body::Reply(reply) = body {
        shared.append(&mut reply.shared.into_vec())?;
        marks.extend_from_slice(reply.marks.as_slice())?;
    }
    Ok(())
}

/// Puts the shared places of all replies into the store, and joins their marks.
pub(crate) fn take_replies(alloc: Global, store: &mut Store, replies: Inbox) -> Result<(), Memory>
    ensures { OnOk result (store.new ≡ after_replies store.old (replies_in replies)) }
{
    let mut shared = Vec::new(alloc);
    let mut marks = Vec::new(alloc);
    for (sender, body) in replies.into_iter() {
        put_reply(&mut shared, &mut marks, sender, body)?;
    }
    store.set_shared(shared)?;
    store.add_marks(alloc, marks.as_slice())
}

/// Appends a body with its sender, if it is a batch of another part.
fn put_batch(
    got: &mut Vec<(Label, Batch)>,
    me: Label,
    sender: Label,
    body: Body,
) -> Result<(), Memory>
    ensures { OnOk result (got.new.items ≡ got.old.items ++ filter (λ entry. not (entry.0 == me)) (batch_from sender body)) }
{
    if let Body::Ghosts(batch) = body {
        if sender != me {
            got.push((sender, batch))?;
        }
    }
    Ok(())
}

/// What others showed to a part.
fn shown(alloc: Global, me: Label, batches: Inbox) -> Result<Vec<(Label, Batch)>, Memory>
    ensures value { IfOk result (λ got. got.items ≡ filter (λ entry. not (entry.0 == me)) (batches_in batches)) }
    ensures others { IfOk result (λ got. All (λ batch. batch.0 ≢ me) got.items) }
{
    let mut got = Vec::new(alloc);
    for (sender, body) in batches.into_iter() {
        put_batch(&mut got, me, sender, body)?;
    }
    Ok(got)
}

/// Puts what others showed in place of the ghosts.
pub(crate) fn take_ghosts(alloc: Global, store: &mut Store, batches: Inbox) -> Result<(), Memory>
    ensures { OnOk result (store.new ≡ after_ghosts store.old (batches_in batches)) }
{
    let got = shown(alloc, store.part(), batches)?;
    rebuild(alloc, store, got.as_slice())
}
