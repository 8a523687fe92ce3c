//! A carrier in memory.
ghost use Rattle.std.specs.Prelude.{◌≡◌, ◌+◌, ◌<◌, ◌≤◌, ◌++◌, ◌∷◌, [], length, OnOk, OnErr, Some, vec_len, vec_capacity, ◌^◌};
ghost use Rattle.ma_io.specs.Count.{Counts};
ghost use Rattle.carrier.specs.Post.{is_failed};
ghost use Rattle.carrier.specs.Take.{TakeLeaves, is_dry};
ghost use Rattle.carrier.specs.Queue.{PostAnswers, TakeAnswers, after_posting, after_taking, is_post_to_fail, is_take_to_fail, new_queue};
ghost use Rattle.carrier.specs.steps.Kept.{bytes_of};

use crate::blocks::{Waiting, WaitingLetters};
use crate::faults::CarrierFault;
use crate::traits::Carrier;
use std::alloc::{AllocError, Global};
use std::marker::Model;

/// A carrier that keeps its letters in memory and tells all of them, and fails at posts and takes of
/// given numbers.
///
/// Posts are numbered from 1, and takes are. One that fails does nothing. A post for which memory
/// runs out changes nothing, and has no number. Each posted letter is kept to the end; while it waits
/// there is a second copy, which is handed out, so that a take takes no memory.
#[derive(Debug, Drop)]
pub struct QueueCarrier {
    alloc: Global,
    posted: Vec<Vec<u8>>,
    held: WaitingLetters,
    /// The numbers of the posted letters that were handed out. It has room for all that wait.
    given: Vec<usize>,
    fail_posts: Vec<u64>,
    fail_takes: Vec<u64>,
    posts: u64,
    takes: u64,
    faults: u64,
    dry: u64,
}

impl Model for QueueCarrier {
    ghost use Rattle.std.specs.Prelude.{◌+◌, ◌≤◌, map, length, vec_len, vec_capacity, ◌^◌};
    ghost use Rattle.carrier.specs.Queue.{QueueState};
    ghost use Rattle.carrier.specs.steps.Kept.{AreBelow, AreKept, bytes_of, letters_at, letters_of};

    ghost Value = { QueueState };

    ghost view = { λ q. record { posted = bytes_of q.posted.items; held = letters_of q.held; given = letters_at (bytes_of q.posted.items) q.given.items; fail_posts = q.fail_posts.items; fail_takes = q.fail_takes.items; posts = q.posts; takes = q.takes; faults = q.faults; dry = q.dry } };

    ghost invariant = { λ q. AreKept (bytes_of q.posted.items) q.held × AreBelow (length q.posted.items) q.given.items × (vec_len q.given + length q.held ≤ vec_capacity q.given) };
}

/// Puts one more item behind those of a list that has room for it.
fn put_last<T: Drop>(items: &mut Vec<T>, item: T)
    requires { vec_len items.old < vec_capacity items.old }
    ensures items { items.new.items ≡ items.old.items ++ item ∷ [] }
    ensures capacity { vec_capacity items.old ≤ vec_capacity items.new }
    ensures len { vec_len items.new ≡ vec_len items.old + 1 }
{
    match items.push(item) {
        Ok(()) => {}
        Err(_) => {}
    }
}

/// Makes room for one number more than letters wait.
fn make_room(given: &mut Vec<usize>, waiting: usize) -> Result<(), AllocError>
    ensures room { OnOk result (vec_len given.new + (waiting + 1) ≤ vec_capacity given.new) }
    ensures fits { OnOk result (waiting + 1 < 2 ^ 64) }
    ensures items { given.new.items ≡ given.old.items }
    ensures len { vec_len given.new ≡ vec_len given.old }
    ensures capacity { vec_capacity given.old ≤ vec_capacity given.new }
{
    match waiting.checked_add(1) {
        Some(more) => given.reserve(more),
        None => Err(AllocError),
    }
}

/// Keeps a letter twice, the copy that is handed out and the one that stays, and makes room for its
/// number among those of the letters that were handed out.
fn keep(
    alloc: Global,
    posted: &mut Vec<Vec<u8>>,
    held: &mut WaitingLetters,
    given: &mut Vec<usize>,
    bytes: Vec<u8>,
) -> Result<(), AllocError>
    ensures posted { OnOk result (bytes_of posted.new.items ≡ bytes_of posted.old.items ++ bytes.items ∷ []) }
    ensures held { OnOk result (held.new ≡ held.old ++ record { number = length posted.old.items; bytes = bytes.items } ∷ []) }
    ensures room { OnOk result (vec_len given.new + length held.new ≤ vec_capacity given.new) }
    ensures old_posted { OnErr result (posted.new.items ≡ posted.old.items) }
    ensures old_held { OnErr result (held.new ≡ held.old) }
    ensures items { given.new.items ≡ given.old.items }
    ensures len { vec_len given.new ≡ vec_len given.old }
    ensures capacity { vec_capacity given.old ≤ vec_capacity given.new }
{
    make_room(given, held.len())?;
    let copy = Vec::from_slice(alloc, bytes.as_slice())?;
    posted.reserve(1)?;
    held.push(alloc, Waiting::new(posted.len(), bytes))?;
    put_last(posted, copy);
    Ok(())
}

impl QueueCarrier {
    /// A carrier to which nothing was posted, whose posts and takes of these numbers fail. Takes no
    /// memory.
    pub fn new(alloc: Global, fail_posts: Vec<u64>, fail_takes: Vec<u64>) -> QueueCarrier
        ensures { result ≡ new_queue fail_posts.items fail_takes.items }
    {
        QueueCarrier {
            alloc,
            posted: Vec::new(alloc),
            held: WaitingLetters::new(alloc),
            given: Vec::new(alloc),
            fail_posts,
            fail_takes,
            posts: 0,
            takes: 0,
            faults: 0,
            dry: 0,
        }
    }
}

impl Carrier for QueueCarrier {
    ghost carried = { λ q. record { posted = Some q.posted; held = Some q.held; given = Some q.given; faults = q.faults; dry = q.dry } };

    fn post(&mut self, bytes: Vec<u8>) -> Result<(), CarrierFault>
        ensures answer { PostAnswers (is_post_to_fail self.old) result }
        ensures after { self.new ≡ after_posting self.old bytes.items result }
        ensures faults { Counts (is_failed result) self.old.faults self.new.faults }
    {
        let number = self.posts.saturating_add(1);
        if self.fail_posts.contains(&number) {
            self.posts = number;
            self.faults = self.faults.saturating_add(1);
            return Err(CarrierFault::Failed);
        }
        match keep(
            self.alloc,
            &mut self.posted,
            &mut self.held,
            &mut self.given,
            bytes,
        ) {
            Ok(()) => {
                self.posts = number;
                Ok(())
            }
            Err(_) => Err(CarrierFault::Memory),
        }
    }

    /// Takes no memory, and never answers `Memory`.
    fn take(&mut self, pick: u64) -> Result<Option<Vec<u8>>, CarrierFault>
        ensures answer { TakeAnswers (is_take_to_fail self.old) result }
        ensures after { self.new ≡ after_taking self.old pick result }
        ensures held { TakeLeaves self.old.held pick (Some self.new.held) result }
        ensures faults { Counts (is_failed result) self.old.faults self.new.faults }
        ensures dry { Counts (is_dry result) self.old.dry self.new.dry }
    {
        let number = self.takes.saturating_add(1);
        self.takes = number;
        if self.fail_takes.contains(&number) {
            self.faults = self.faults.saturating_add(1);
            return Err(CarrierFault::Failed);
        }
        let waiting = self.held.len();
        if waiting == 0 {
            self.dry = self.dry.saturating_add(1);
            return Ok(None);
        }
        let letter = self.held.remove((pick % waiting as u64) as usize);
        let (number, bytes) = letter.into_parts();
        put_last(&mut self.given, number);
        Ok(Some(bytes))
    }

    fn waiting(&self) -> u64
        ensures { result ≡ length self.now.held }
    {
        self.held.len() as u64
    }
}
