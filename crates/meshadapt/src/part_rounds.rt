// The rounds of a mesh that is handed out to parts, each with its line.
ghost use Rattle.std.specs.Prelude.{◌≡◌, ◌+◌, ◌≤◌, IfOk, IfSome, ℕ, Some, length};
ghost use Rattle.carrier.specs.Carried.{Carried};
ghost use Rattle.msh_write.specs.Text.{nodes_of};
ghost use Rattle.world_run.specs.Rounds.{MayGoOn};
ghost use Rattle.world_run.specs.Told.{WorldState};
ghost use Rattle.world_run.specs.Union.{union_in};
ghost use Rattle.meshadapt.specs.Acts.{course_of};
ghost use Rattle.meshadapt.specs.Printed.{round_line};
ghost use Rattle.meshadapt.specs.Verdict.{Handout as HandedOut, Inputs};
ghost use Rattle.meshadapt.specs.Words.{Job as Asked};
ghost use Rattle.meshadapt.specs.steps.Asking.{IsInRange, asked};
ghost use Rattle.meshadapt.specs.steps.Fetching.{HandoutFits, IsRunnable, handout_of, inputs_over};
ghost use Rattle.meshadapt.specs.steps.OverRounds.{GoesOn, HaveCome, IsWholeMesh, MayRun, RunsParts, StartsParts};
ghost use Rattle.meshadapt.specs.steps.Running.{PutsLine};

use crate::fetching::{Accepted, Handout};
use crate::halt::Halt;
use crate::rounds::put_round;
use crate::words::Job;
use carrier::{Carrier, Schedule};
use ma_cells::{Ascending, Batch};
use ma_geom::{Memory, Place};
use ma_io::Sink;
use msh_write::nodes_of;
use part_rules::Course;
use std::alloc::Global;
use world_run::{RunFault, World};

/// The mesh that parts have together, with its nodes.
#[derive(Debug, Drop)]
pub struct Whole {
    pub mesh: Batch,
    pub nodes: Ascending<Place>,
}

/// The parts after all rounds, and the mesh that they have together.
#[derive(Debug, Drop)]
pub struct Ran {
    pub world: World,
    pub whole: Whole,
}

/// Hands the mesh out to its parts, and runs round 0.
fn start_world<C: Carrier>(
    alloc: Global,
    job: &Job,
    accepted: &Accepted,
    course: Course,
    handout: &mut Handout,
    carrier: &mut C,
) -> Result<World, Halt>
    requires right { IsInRange job.now }
    requires runs { IsRunnable accepted.now.mesh accepted.now.grid }
    requires fits { HandoutFits job.now.division (length accepted.now.mesh.tets) (Some handout.old) }
    requires finer { job.now.rounds ≤ accepted.now.grid }
    requires course { course ≡ course_of (asked job.now) (inputs_over accepted.now course.field handout.old) (handout_of accepted.now.mesh handout.old) }
    ensures { StartsParts result (asked job.now) (inputs_over accepted.now course.field handout.old) (handout_of accepted.now.mesh handout.old) handout.new.schedule (C.carried carrier.old) (C.carried carrier.new) }
{
    let labels = handout.labels.as_slice();
    match World::start(
        alloc,
        course,
        &accepted.mesh,
        labels,
        carrier,
        &mut handout.schedule,
    ) {
        Ok(world) => Ok(world),
        Err(RunFault::Memory) => Err(Halt::Memory),
        Err(fault) => Err(Halt::Parts(fault)),
    }
}

/// Runs another round of the parts.
fn go_on<C: Carrier>(
    alloc: Global,
    world: &mut World,
    schedule: &mut Schedule,
    carrier: &mut C,
) -> Result<(), Halt>
    requires { MayGoOn world.old }
    ensures { (job : Asked) (inputs : Inputs) (handout : HandedOut) (worlds : ℕ → WorldState) (round : ℕ) (first : Carried) → MayRun job inputs handout → worlds round ≡ world.old → HaveCome job inputs handout worlds round schedule.old first (C.carried carrier.old) → round + 1 ≤ job.rounds → GoesOn result job inputs handout worlds round world.new schedule.new first (C.carried carrier.new) }
{
    match world.run_round(alloc, carrier, schedule) {
        Ok(()) => Ok(()),
        Err(RunFault::Memory) => Err(Halt::Memory),
        Err(fault) => Err(Halt::Parts(fault)),
    }
}

/// Puts the line of a round of the parts.
fn put_whole<S: Sink>(alloc: Global, round: u32, world: &World, out: &mut S) -> Result<Whole, Halt>
    ensures line { PutsLine result (round_line round (union_in world.now.parts)) (S.received out.old) (S.received out.new) }
    ensures whole { IfOk result (λ whole. IsWholeMesh whole world.now) }
{
    let mesh = world.reassemble(alloc)?;
    let nodes = put_round(alloc, round, &mesh, out)?;
    Ok(Whole { mesh, nodes })
}

/// What was put together last, or the mesh of the parts where nothing was.
fn last_whole(alloc: Global, world: &World, last: Option<Whole>) -> Result<Whole, Memory>
    requires { IfSome last (λ whole. IsWholeMesh whole world.now) }
    ensures { IfOk result (λ whole. IsWholeMesh whole world.now) }
{
    match last {
        Some(whole) => Ok(whole),
        None => {
            let mesh = world.reassemble(alloc)?;
            let nodes = nodes_of(alloc, mesh.tets.as_slice())?;
            Ok(Whole { mesh, nodes })
        }
    }
}

/// Runs round 0 of the parts of the mesh and all rounds of the job, each of these with its line.
pub fn run_world<C: Carrier, S: Sink>(
    alloc: Global,
    job: &Job,
    accepted: &Accepted,
    course: Course,
    handout: &mut Handout,
    carrier: &mut C,
    out: &mut S,
) -> Result<Ran, Halt>
    requires right { IsInRange job.now }
    requires runs { IsRunnable accepted.now.mesh accepted.now.grid }
    requires fits { HandoutFits job.now.division (length accepted.now.mesh.tets) (Some handout.old) }
    requires finer { job.now.rounds ≤ accepted.now.grid }
    requires course { course ≡ course_of (asked job.now) (inputs_over accepted.now course.field handout.old) (handout_of accepted.now.mesh handout.old) }
    ensures runs { RunsParts (λ ran. ran.world) result (asked job.now) (inputs_over accepted.now course.field handout.old) (handout_of accepted.now.mesh handout.old) (C.carried carrier.old) (C.carried carrier.new) (S.received out.old) (S.received out.new) }
    ensures whole { IfOk result (λ ran. IsWholeMesh ran.whole ran.world) }
{
    let mut world = start_world(alloc, job, accepted, course, handout, carrier)?;
    let mut last = None;
    for done in 0..job.rounds {
        go_on(alloc, &mut world, &mut handout.schedule, carrier)?;
        last = Some(put_whole(alloc, done + 1, &world, out)?);
    }
    let whole = last_whole(alloc, &world, last)?;
    Ok(Ran { world, whole })
}
