//! The run of parts until all are done.
ghost use Rattle.std.specs.Prelude.{◌≡◌, ◌+◌, ◌<◌, ◌≤◌, ◌^◌, true, None, Some, IfOk, IfSome, OnOk};
ghost use Rattle.carrier.specs.Schedule.{after_pick, next_of};
ghost use Rattle.letters.specs.declared.letter.Body.{Body};
ghost use Rattle.part_phases.specs.Standings.{Standing};
ghost use Rattle.part_rules.specs.declared.course.Course.{Course};
ghost use Rattle.part_store.specs.Stores.{StoreState};
ghost use Rattle.phase_laws.specs.Truth.{Truth};
ghost use Rattle.world_run.specs.Drawn.{used};
ghost use Rattle.world_run.specs.Replay.{all_done, first_waiting};
ghost use Rattle.world_run.specs.Told.{HasCause};
ghost use Rattle.world_run.specs.steps.Beginning.{AreKept, AreUnspent, owed_all};
ghost use Rattle.world_run.specs.steps.Drawing.{RunDraws};
ghost use Rattle.world_run.specs.steps.Handing.{TurnReads, TurnTells};
ghost use Rattle.world_run.specs.steps.Tracking.{RunTracks};
ghost use Rattle.world_run.specs.steps.Turns.{Rests, Runs, Turns};

use crate::fault::RunFault;
use crate::handing::{Handed, hand};
use crate::posting::{post_all, take};
use carrier::{Carrier, Schedule};
use letters::Letter;
use ma_cells::Label;
use part_core::Part;
use std::alloc::Global;

/// The first part that isn't done, with its phase.
fn first_waiting(parts: &[Part]) -> Option<(Label, u32)>
    ensures { result ≡ first_waiting parts.now }
{
    for part in parts {
        if !part.is_done() {
            return Some((part.number(), part.phase()));
        }
    }
    None
}

/// Posts the letters that were sent, takes one, and hands it to the part that it names. The letters
/// that this part sends are then those that were sent.
fn turn<C: Carrier>(
    alloc: Global,
    parts: &mut [Part],
    sent: &mut Vec<Letter>,
    waiting: (Label, u32),
    carrier: &mut C,
    schedule: &mut Schedule,
) -> Result<(), RunFault>
    requires unspent { AreUnspent parts.old }
    requires waits { first_waiting parts.old ≡ Some waiting }
    ensures told { IfSome (C.carried carrier.old).given (λ before. Turns parts.old parts.new before (C.carried carrier.new).given result) }
    ensures tells { IfSome (C.carried carrier.old).held (λ held. IfSome (C.carried carrier.old).given (λ given. TurnTells parts.old parts.new sent.old.items sent.new.items held given (next_of schedule.old) (C.carried carrier.new) result)) }
    ensures reads { IfSome (C.carried carrier.old).given (λ given. TurnReads given (C.carried carrier.new).given result) }
    ensures schedule { OnOk result (schedule.new ≡ after_pick schedule.old) }
    ensures unspent { OnOk result (AreUnspent parts.new) }
    ensures kept { OnOk result (AreKept parts.old parts.new) }
    ensures lower { OnOk result (owed_all parts.new + 1 ≡ owed_all parts.old) }
    ensures faults { (C.carried carrier.old).faults ≤ (C.carried carrier.new).faults }
    ensures dry { (C.carried carrier.old).dry ≤ (C.carried carrier.new).dry }
    ensures cause { HasCause (C.carried carrier.old) (C.carried carrier.new) result }
{
    post_all(alloc, carrier, sent)?;
    let bytes = take(carrier, schedule, waiting)?;
    *sent = Vec::new(alloc);
    match hand(alloc, parts, &bytes, sent) {
        Handed::Taken => Ok(()),
        Handed::Refused => Err(RunFault::BadLetter(bytes)),
        Handed::TooMany(excess) => Err(excess.fault()),
        Handed::Memory => Err(RunFault::Memory),
    }
}

/// Runs parts until all are done, where these letters are still to be posted, and tells how many
/// letters were taken.
pub fn run<C: Carrier>(
    alloc: Global,
    parts: &mut [Part],
    mut sent: Vec<Letter>,
    carrier: &mut C,
    schedule: &mut Schedule,
) -> Result<u64, RunFault>
    requires unspent { AreUnspent parts.old }
    requires few { owed_all parts.old < 2 ^ 64 }
    ensures told { IfSome (C.carried carrier.old).given (λ before. Runs parts.old parts.new before (C.carried carrier.new).given result) }
    ensures draws { (course : Course) (truth : Truth StoreState Body) (default : Standing StoreState Body) → RunDraws course truth default parts.old parts.new sent.items (C.carried carrier.old) (C.carried carrier.new) schedule.old result }
    ensures tracks { (course : Course) → RunTracks course parts.old parts.new sent.items (C.carried carrier.old) (C.carried carrier.new) schedule.old result }
    ensures done { OnOk result (all_done parts.new ≡ true) }
    ensures unspent { OnOk result (AreUnspent parts.new) }
    ensures kept { OnOk result (AreKept parts.old parts.new) }
    ensures used { IfOk result (λ letters. schedule.new ≡ used schedule.old letters) }
    ensures letters { IfOk result (λ letters. letters ≡ owed_all parts.old) }
    ensures rests { first_waiting parts.old ≡ None → Rests parts.old parts.new (C.carried carrier.old) (C.carried carrier.new) result }
    ensures faults { (C.carried carrier.old).faults ≤ (C.carried carrier.new).faults }
    ensures dry { (C.carried carrier.old).dry ≤ (C.carried carrier.new).dry }
    ensures cause { HasCause (C.carried carrier.old) (C.carried carrier.new) result }
{
    let mut letters = 0;
    while let Some(waiting) = first_waiting(parts) {
        turn(alloc, parts, &mut sent, waiting, carrier, schedule)?;
        letters += 1;
    }
    Ok(letters)
}
