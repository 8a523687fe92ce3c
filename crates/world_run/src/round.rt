//! A round of parts, from its beginning until all are done.
ghost use Rattle.std.specs.Prelude.{◌≡◌, ◌<◌, ◌≤◌, ◌^◌, ◌++◌, true, None, IfOk, IfSome, OnOk, map};
ghost use Rattle.carrier.specs.Carried.{Letters};
ghost use Rattle.letters.specs.declared.letter.Body.{Body};
ghost use Rattle.part_core.specs.Parts.{MayBegin, sent};
ghost use Rattle.part_phases.specs.Standings.{Standing};
ghost use Rattle.part_rules.specs.declared.course.Course.{Course};
ghost use Rattle.part_store.specs.Stores.{StoreState};
ghost use Rattle.phase_laws.specs.Truth.{Truth};
ghost use Rattle.world_run.specs.Drawn.{IfAllIsTold, used};
ghost use Rattle.world_run.specs.Replay.{all_done, all_next, next_begun, next_outcome};
ghost use Rattle.world_run.specs.Told.{HasCause};
ghost use Rattle.world_run.specs.steps.Beginning.{AreKept, AreUnspent, MayAllBegin, Says, SaysAll, letters_next, owed_all};
ghost use Rattle.world_run.specs.steps.Drawing.{BeginRight, ComesTo, RestsAlone};
ghost use Rattle.world_run.specs.steps.Tracking.{RunTracks};
ghost use Rattle.world_run.specs.steps.Turns.{Runs};

use crate::excess::Excess;
use crate::fault::RunFault;
use crate::running::run;
use carrier::{Carrier, Schedule};
use letters::Letter;
use ma_geom::Memory;
use part_core::Part;
use std::alloc::Global;

/// Begins the next round of a part, and tells whether it finds too many tetrahedra.
fn begin(alloc: Global, part: &mut Part, out: &mut Vec<Letter>) -> Result<Option<Excess>, Memory>
    requires { MayBegin part.old part.old.begun }
    ensures begun { OnOk result (part.new ≡ next_begun part.old) }
    ensures says { IfOk result (λ excess. Says part.new excess) }
    ensures letters { OnOk result (out.new.items ≡ out.old.items ++ map sent (next_outcome part.old).letters) }
{
    let round = part.begun();
    match part.begin(alloc, round, out) {
        Ok(step) => Ok(Excess::of(part.round(), step)),
        Err(_) => Err(Memory),
    }
}

/// Begins the next round of each part, in ascending order, and tells of the first that finds too
/// many tetrahedra. Their letters are appended.
fn begin_all(
    alloc: Global,
    parts: &mut [Part],
    out: &mut Vec<Letter>,
) -> Result<Option<Excess>, Memory>
    requires { MayAllBegin parts.old }
    ensures begun { OnOk result (parts.new ≡ all_next parts.old) }
    ensures says { IfOk result (λ excess. SaysAll parts.new excess) }
    ensures letters { OnOk result (out.new.items ≡ out.old.items ++ letters_next parts.old) }
{
    let mut excess = None;
    for number in 0..parts.len() {
        let said = begin(alloc, &mut parts[number], out)?;
        excess = excess.or(said);
    }
    Ok(excess)
}

/// Begins the next round of each part, in ascending order, runs them until all are done, and tells
/// how many letters were taken.
pub fn run_next<C: Carrier>(
    alloc: Global,
    parts: &mut [Part],
    carrier: &mut C,
    schedule: &mut Schedule,
) -> Result<u64, RunFault>
    requires may { MayAllBegin parts.old }
    requires few { owed_all (all_next parts.old) < 2 ^ 64 }
    ensures told { IfSome (C.carried carrier.old).given (λ before. Runs (all_next parts.old) parts.new before (C.carried carrier.new).given result) }
    ensures drawn { (course : Course) (truth : Truth StoreState Body) (default : Standing StoreState Body) → BeginRight course truth default parts.old → IfAllIsTold (C.carried carrier.old) (λ before. ComesTo course truth default parts.old parts.new before (C.carried carrier.new) schedule.old result) }
    ensures tracks { (course : Course) → RunTracks course (all_next parts.old) parts.new (letters_next parts.old) (C.carried carrier.old) (C.carried carrier.new) schedule.old result }
    ensures alone { (course : Course) (truth : Truth StoreState Body) (default : Standing StoreState Body) → course.parts ≡ 1 → BeginRight course truth default parts.old → RestsAlone course truth default parts.old parts.new (C.carried carrier.old) (C.carried carrier.new) result }
    ensures done { OnOk result (all_done parts.new ≡ true) }
    ensures unspent { OnOk result (AreUnspent parts.new) }
    ensures kept { OnOk result (AreKept (all_next parts.old) parts.new) }
    ensures letters { IfOk result (λ letters. letters ≡ owed_all (all_next parts.old)) }
    ensures used { IfOk result (λ letters. schedule.new ≡ used schedule.old letters) }
    ensures faults { (C.carried carrier.old).faults ≤ (C.carried carrier.new).faults }
    ensures dry { (C.carried carrier.old).dry ≤ (C.carried carrier.new).dry }
    ensures cause { HasCause (C.carried carrier.old) (C.carried carrier.new) result }
{
    let mut letters = Vec::new(alloc);
    match begin_all(alloc, parts, &mut letters)? {
        Some(excess) => Err(excess.fault()),
        None => run(alloc, parts, letters, carrier, schedule),
    }
}
