//! A carrier that alters a letter, to try what a receiver makes of it.
ghost use Rattle.std.specs.Prelude.{◌≡◌, ◌-◌, length, take, slice_set, None, Some};
ghost use Rattle.std.specs.Option.{option_map};
ghost use Rattle.ma_io.specs.Count.{Counts};
ghost use Rattle.carrier.specs.Post.{is_failed};
ghost use Rattle.carrier.specs.Take.{after_take, is_dry};
ghost use Rattle.carrier.specs.Queue.{TakeAnswers, after_taking, is_take_to_fail};
ghost use Rattle.carrier.specs.Tested.{TestAnswers, after_testing, altered, arriving, new_test};

use crate::faults::CarrierFault;
use crate::queue::QueueCarrier;
use crate::traits::Carrier;
use std::marker::Model;

/// What is done to a letter.
#[derive(Clone, Copy, Debug, PartialEq, Eq)]
pub enum Change {
    /// It never arrives.
    Lose,
    /// Its last byte is dropped.
    Cut,
    /// The byte at this place, counted from 0, is this one. A place past the letter changes nothing.
    Byte { place: u64, value: u8 },
}

/// A carrier over a queue that alters one of the posted letters, and tells what it hands out and its
/// counts alone.
#[derive(Debug, Drop)]
pub struct TestCarrier {
    queue: QueueCarrier,
    at: u64,
    change: Change,
    posted: u64,
}

impl Model for TestCarrier {
    ghost use Rattle.carrier.specs.Tested.{TestState};

    ghost Value = { TestState };

    ghost view = { λ t. record { queue = t.queue; at = t.at; change = t.change; posted = t.posted } };
}

impl TestCarrier {
    /// A carrier that alters the posted letter of number `at`, counted from 1. A letter that is lost
    /// is posted all the same, and never reaches the queue; one that the queue refuses has no number.
    /// Takes no memory.
    pub fn new(queue: QueueCarrier, at: u64, change: Change) -> TestCarrier
        ensures { result ≡ new_test queue at change }
    {
        TestCarrier {
            queue,
            at,
            change,
            posted: 0,
        }
    }
}

/// A letter without its last byte.
fn cut(bytes: Vec<u8>) -> Vec<u8>
    ensures { result.items ≡ take (length bytes.items - 1) bytes.items }
{
    let mut bytes = bytes;
    let _last = bytes.pop();
    bytes
}

/// A letter with another byte at a place.
fn with_byte(bytes: Vec<u8>, place: u64, value: u8) -> Vec<u8>
    ensures { result.items ≡ slice_set bytes.items place value }
{
    let mut bytes = bytes;
    let place = place as usize;
    if place < bytes.len() {
        bytes[place] = value;
    }
    bytes
}

fn altered(change: Change, bytes: Vec<u8>) -> Option<Vec<u8>>
    ensures { option_map (λ v. v.items) result ≡ altered change bytes.items }
{
    match change {
        Change::Lose => None,
        Change::Cut => Some(cut(bytes)),
        Change::Byte { place, value } => Some(with_byte(bytes, place, value)),
    }
}

impl Carrier for TestCarrier {
    ghost carried = { λ t. record { posted = None; held = None; given = Some t.queue.given; faults = t.queue.faults; dry = t.queue.dry } };

    fn post(&mut self, bytes: Vec<u8>) -> Result<(), CarrierFault>
        ensures answer { TestAnswers self.old (arriving self.old bytes.items) result }
        ensures after { self.new ≡ after_testing self.old (arriving self.old bytes.items) result }
        ensures faults { Counts (is_failed result) self.old.queue.faults self.new.queue.faults }
        ensures dry { self.new.queue.dry ≡ self.old.queue.dry }
        ensures given { Some self.new.queue.given ≡ Some self.old.queue.given }
    {
        let number = self.posted.saturating_add(1);
        let arriving = if number == self.at {
            altered(self.change, bytes)
        } else {
            Some(bytes)
        };
        match arriving {
            None => {
                self.posted = number;
                Ok(())
            }
            Some(bytes) => match self.queue.post(bytes) {
                Ok(()) => {
                    self.posted = number;
                    Ok(())
                }
                Err(fault) => Err(fault),
            },
        }
    }

    /// Takes no memory, and never answers `Memory`.
    fn take(&mut self, pick: u64) -> Result<Option<Vec<u8>>, CarrierFault>
        ensures answer { TakeAnswers (is_take_to_fail self.old.queue) result }
        ensures after { self.new ≡ record self.old { queue = after_taking self.old.queue pick result } }
        ensures faults { Counts (is_failed result) self.old.queue.faults self.new.queue.faults }
        ensures dry { Counts (is_dry result) self.old.queue.dry self.new.queue.dry }
        ensures given { Some self.new.queue.given ≡ Some (after_take self.old.queue.given result) }
    {
        self.queue.take(pick)
    }

    fn waiting(&self) -> u64
        ensures { result ≡ length self.now.queue.held }
    {
        self.queue.waiting()
    }
}
