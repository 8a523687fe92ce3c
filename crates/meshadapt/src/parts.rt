// The run of a mesh that is handed out to parts.
ghost use Rattle.std.specs.Prelude.{◌≡◌, ◌≤◌, ◌++◌, Some, codes, map, length};
ghost use Rattle.std.specs.Fmt.{decimal};
ghost use Rattle.msh_write.specs.PartText.{part_text};
ghost use Rattle.one_mesh.specs.Holding.{set_of};
ghost use Rattle.part_store.specs.Stores.{view_in};
ghost use Rattle.meshadapt.specs.Acts.{course_of};
ghost use Rattle.meshadapt.specs.Printed.{mesh_line};
ghost use Rattle.meshadapt.specs.steps.Asking.{IsInRange, asked};
ghost use Rattle.meshadapt.specs.steps.Fetching.{HandoutFits, IsRunnable, handout_of, inputs_over};
ghost use Rattle.meshadapt.specs.steps.Running.{PutsLine, RunsFrom, StoresOne};
ghost use Rattle.meshadapt.specs.steps.Storing.{StoresAll, view_outputs};

use crate::fetching::{Accepted, Handout};
use crate::halt::Halt;
use crate::lines::{part_name, parts_done_line};
use crate::part_rounds::{Ran, run_world};
use crate::putting::put_line;
use crate::rounds::put_mesh;
use crate::storing::{store_file, store_mesh};
use crate::words::Job;
use carrier::Carrier;
use ma_cells::View;
use ma_io::{Depot, Sink};
use msh_read::Name;
use msh_write::write_part;
use one_mesh::OneMesh;
use part_rules::Course;
use std::alloc::Global;
use world_run::World;

/// Puts the line of the mesh.
fn begin_run<S: Sink>(alloc: Global, accepted: &Accepted, out: &mut S) -> Result<(), Halt>
    ensures { PutsLine result (mesh_line (set_of accepted.now.mesh) accepted.now.mesh.loose) (S.received out.old) (S.received out.new) }
{
    let mesh = OneMesh::from_mesh(alloc, &accepted.mesh)?;
    put_mesh(alloc, mesh.batch(), accepted.mesh.loose(), out)?;
    Ok(())
}

/// Stores what a part sees, under a name with its number.
fn store_view<D: Depot>(
    alloc: Global,
    depot: &mut D,
    view: &View,
    names: &[Name],
    out: &str,
) -> Result<(), Halt>
    ensures { StoresOne result (out.now ++ codes ".p" ++ decimal view.now.part ++ codes ".msh") (part_text view.now names.now) (D.held depot.old) (D.held depot.new) }
{
    let name = part_name(alloc, out, view.part)?;
    let text = write_part(alloc, view, names)?;
    store_file(depot, name, text.as_slice())
}

/// Stores what each part sees.
fn store_views<D: Depot>(
    alloc: Global,
    depot: &mut D,
    world: &World,
    parts: u8,
    names: &[Name],
    out: &str,
) -> Result<(), Halt>
    requires { parts ≡ length world.now.parts }
    ensures { StoresAll result (view_outputs out.now names.now (map (λ part. view_in part.standing.holds) world.now.parts)) (D.held depot.old) (D.held depot.new) }
{
    for number in 0..parts {
        let view = world.view(alloc, number)?;
        store_view(alloc, depot, &view, names, out)?;
    }
    Ok(())
}

/// Does what a job over parts asks for, but for the last line of a run that is not done.
pub fn run_parts<D: Depot, C: Carrier, S: Sink>(
    alloc: Global,
    job: &Job,
    accepted: &Accepted,
    course: Course,
    handout: &mut Handout,
    depot: &mut D,
    carrier: &mut C,
    out: &mut S,
) -> Result<(), Halt>
    requires right { IsInRange job.now }
    requires runs { IsRunnable accepted.now.mesh accepted.now.grid }
    requires fits { HandoutFits job.now.division (length accepted.now.mesh.tets) (Some handout.old) }
    requires finer { job.now.rounds ≤ accepted.now.grid }
    requires course { course ≡ course_of (asked job.now) (inputs_over accepted.now course.field handout.old) (handout_of accepted.now.mesh handout.old) }
    ensures { RunsFrom result (asked job.now) (inputs_over accepted.now course.field handout.old) (C.carried carrier.old) (C.carried carrier.new) (D.held depot.old) (D.held depot.new) (S.received out.old) (S.received out.new) }
{
    begin_run(alloc, accepted, out)?;
    let parts = handout.parts;
    let Ran { world, whole } = run_world(alloc, job, accepted, course, handout, carrier, out)?;
    let names = accepted.names.as_slice();
    store_mesh(alloc, depot, &whole.mesh, &whole.nodes, names, job.out)?;
    store_views(alloc, depot, &world, parts, names, job.out)?;
    let line = parts_done_line(alloc, parts, world.letters())?;
    put_line(out, line.as_bytes())
}
