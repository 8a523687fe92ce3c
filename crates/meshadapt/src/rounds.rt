// The rounds of a run, each with its line.
ghost use Rattle.std.specs.Prelude.{◌≡◌, ◌≤◌, IfOk, false};
ghost use Rattle.msh_write.specs.Text.{nodes_of};
ghost use Rattle.one_mesh.specs.Adaptation.{most_passes};
ghost use Rattle.one_mesh.specs.Holding.{set_of};
ghost use Rattle.meshadapt.specs.Printed.{mesh_line, round_line};
ghost use Rattle.meshadapt.specs.steps.Fetching.{inputs_of};
ghost use Rattle.meshadapt.specs.steps.Asking.{asked};
ghost use Rattle.meshadapt.specs.steps.Running.{Begins, PutsLine, RunsRound, RunsRounds};

use crate::fetching::Fetched;
use crate::halt::Halt;
use crate::lines::{mesh_line, round_line};
use crate::putting::put_line;
use crate::words::Job;
use ma_cells::{Ascending, Batch};
use ma_geom::Place;
use ma_io::Sink;
use msh_write::nodes_of;
use one_mesh::{OneFault, OneMesh};
use size_marks::SizeField;
use std::alloc::Global;

/// Puts the line of a mesh before its rounds, of whose file so many marks were loose. The answer is the
/// nodes of the mesh, here and below.
pub fn put_mesh<S: Sink>(
    alloc: Global,
    mesh: &Batch,
    loose: u64,
    out: &mut S,
) -> Result<Ascending<Place>, Halt>
    ensures line { PutsLine result (mesh_line mesh.now loose) (S.received out.old) (S.received out.new) }
    ensures nodes { IfOk result (λ nodes. nodes ≡ nodes_of mesh.now.tets) }
{
    let nodes = nodes_of(alloc, mesh.tets.as_slice())?;
    let line = mesh_line(alloc, mesh, nodes.len(), loose)?;
    put_line(out, line.as_bytes())?;
    Ok(nodes)
}

/// Puts the line of a mesh after this round.
pub fn put_round<S: Sink>(
    alloc: Global,
    round: u32,
    mesh: &Batch,
    out: &mut S,
) -> Result<Ascending<Place>, Halt>
    ensures line { PutsLine result (round_line round mesh.now) (S.received out.old) (S.received out.new) }
    ensures nodes { IfOk result (λ nodes. nodes ≡ nodes_of mesh.now.tets) }
{
    let nodes = nodes_of(alloc, mesh.tets.as_slice())?;
    let line = round_line(alloc, round, mesh, nodes.len())?;
    put_line(out, line.as_bytes())?;
    Ok(nodes)
}

/// One round of a job, with its line.
fn run_round<S: Sink>(
    alloc: Global,
    field: &SizeField,
    job: &Job,
    round: u32,
    mesh: &mut OneMesh,
    out: &mut S,
) -> Result<Ascending<Place>, Halt>
    requires spent { mesh.old.spent ≡ false }
    requires collapses { job.now.collapses ≤ most_passes }
    requires swaps { job.now.swaps ≤ most_passes }
    ensures runs { RunsRound result round (record { field = field.now; collapses = job.now.collapses; swaps = job.now.swaps }) mesh.old.mesh mesh.new (S.received out.old) (S.received out.new) }
    ensures nodes { IfOk result (λ nodes. nodes ≡ nodes_of mesh.new.mesh.tets) }
{
    match mesh.adapt(alloc, field, round, job.collapses, job.swaps) {
        Ok(()) => put_round(alloc, round, mesh.batch(), out),
        Err(
            OneFault::Over {
                round,
                stage,
                count,
            },
        ) => Err(Halt::TooMany {
            round,
            stage,
            count,
        }),
        Err(OneFault::Memory) => Err(Halt::Memory),
    }
}

/// All rounds of a job from the first on, each with its line, of a mesh with these nodes.
fn run_rounds<S: Sink>(
    alloc: Global,
    field: &SizeField,
    job: &Job,
    mut nodes: Ascending<Place>,
    mesh: &mut OneMesh,
    out: &mut S,
) -> Result<Ascending<Place>, Halt>
    requires spent { mesh.old.spent ≡ false }
    requires collapses { job.now.collapses ≤ most_passes }
    requires swaps { job.now.swaps ≤ most_passes }
    requires nodes { nodes ≡ nodes_of mesh.old.mesh.tets }
    ensures runs { RunsRounds result (record { field = field.now; collapses = job.now.collapses; swaps = job.now.swaps }) job.now.rounds mesh.old.mesh mesh.new (S.received out.old) (S.received out.new) }
    ensures nodes { IfOk result (λ nodes. nodes ≡ nodes_of mesh.new.mesh.tets) }
{
    for done in 0..job.rounds {
        nodes = run_round(alloc, field, job, done + 1, mesh, out)?;
    }
    Ok(nodes)
}

/// Puts the line of the mesh, and runs all rounds of the job.
pub fn adapt_mesh<S: Sink>(
    alloc: Global,
    job: &Job,
    fetched: &Fetched,
    mesh: &mut OneMesh,
    out: &mut S,
) -> Result<Ascending<Place>, Halt>
    requires mesh { mesh.old ≡ record { mesh = set_of fetched.now.accepted.mesh; spent = false } }
    requires collapses { job.now.collapses ≤ most_passes }
    requires swaps { job.now.swaps ≤ most_passes }
    ensures begins { Begins result (asked job.now) (inputs_of fetched.now) mesh.new (S.received out.old) (S.received out.new) }
    ensures nodes { IfOk result (λ nodes. nodes ≡ nodes_of mesh.new.mesh.tets) }
{
    let loose = fetched.accepted.mesh.loose();
    let before = put_mesh(alloc, mesh.batch(), loose, out)?;
    let nodes = run_rounds(alloc, &fetched.field, job, before, mesh, out)?;
    Ok(nodes)
}
