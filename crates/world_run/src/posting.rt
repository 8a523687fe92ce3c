//! Letters, posted and taken.
ghost use Rattle.std.specs.Prelude.{◌≡◌, ◌≤◌, ◌∷◌, [], IfSome};
ghost use Rattle.carrier.specs.Schedule.{after_pick, next_of};
ghost use Rattle.world_run.specs.Told.{HasCause};
ghost use Rattle.world_run.specs.steps.Handing.{Posts, TakesFrom};
ghost use Rattle.world_run.specs.steps.Turns.{EndsPosting, Takes};

use crate::fault::RunFault;
use carrier::{Carrier, CarrierFault, Schedule};
use letters::{Letter, encode};
use ma_cells::Label;
use std::alloc::Global;

/// Posts a letter.
fn post<C: Carrier>(alloc: Global, carrier: &mut C, letter: &Letter) -> Result<(), RunFault>
    ensures held { IfSome (C.carried carrier.old).held (λ held. Posts held (letter.now ∷ []) (C.carried carrier.new).held result) }
    ensures given { (C.carried carrier.new).given ≡ (C.carried carrier.old).given }
    ensures faults { (C.carried carrier.old).faults ≤ (C.carried carrier.new).faults }
    ensures dry { (C.carried carrier.old).dry ≤ (C.carried carrier.new).dry }
    ensures end { EndsPosting (C.carried carrier.old) (C.carried carrier.new) result }
{
    let bytes = encode(alloc, letter)?;
    match carrier.post(bytes) {
        Ok(()) => Ok(()),
        Err(CarrierFault::Failed) => Err(RunFault::Link),
        Err(CarrierFault::Memory) => Err(RunFault::Memory),
    }
}

/// Posts letters one after the other.
pub fn post_all<C: Carrier>(
    alloc: Global,
    carrier: &mut C,
    letters: &[Letter],
) -> Result<(), RunFault>
    ensures held { IfSome (C.carried carrier.old).held (λ held. Posts held letters.now (C.carried carrier.new).held result) }
    ensures given { (C.carried carrier.new).given ≡ (C.carried carrier.old).given }
    ensures faults { (C.carried carrier.old).faults ≤ (C.carried carrier.new).faults }
    ensures dry { (C.carried carrier.old).dry ≤ (C.carried carrier.new).dry }
    ensures end { EndsPosting (C.carried carrier.old) (C.carried carrier.new) result }
{
    for letter in letters {
        post(alloc, carrier, letter)?;
    }
    Ok(())
}

/// Takes the next letter by the schedule, where this part is the first that isn't done, in this
/// phase.
pub fn take<C: Carrier>(
    carrier: &mut C,
    schedule: &mut Schedule,
    waiting: (Label, u32),
) -> Result<Vec<u8>, RunFault>
    ensures schedule { schedule.new ≡ after_pick schedule.old }
    ensures held { IfSome (C.carried carrier.old).held (λ held. TakesFrom held (next_of schedule.old) (C.carried carrier.new).held result) }
    ensures told { IfSome (C.carried carrier.old).given (λ given. Takes given (C.carried carrier.new).given waiting result) }
    ensures faults { (C.carried carrier.old).faults ≤ (C.carried carrier.new).faults }
    ensures dry { (C.carried carrier.old).dry ≤ (C.carried carrier.new).dry }
    ensures cause { HasCause (C.carried carrier.old) (C.carried carrier.new) result }
{
    match carrier.take(schedule.next_pick()) {
        Ok(Some(bytes)) => Ok(bytes),
        Ok(None) => Err(RunFault::Starved {
            part: waiting.0,
            phase: waiting.1,
        }),
        Err(CarrierFault::Failed) => Err(RunFault::Link),
        Err(CarrierFault::Memory) => Err(RunFault::Memory),
    }
}
