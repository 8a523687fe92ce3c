// Fetches what a run starts from.
ghost use Rattle.std.specs.Prelude.{◌≡◌, ◌≤◌, IfOk, true};
ghost use Rattle.std.specs.Option.{option_map};
ghost use Rattle.ma_cells.specs.Meshes.{MarkedMesh};
ghost use Rattle.std.specs.FinMap.{get};
ghost use Rattle.msh_read.specs.Raw.{raw};
ghost use Rattle.meshadapt.specs.declared.status.FileKind.TheVariants.{SizeFile};
ghost use Rattle.meshadapt.specs.Printed.{is_of_job};
ghost use Rattle.meshadapt.specs.Verdict.{accepted_in, accepted_in_file, bytes_in, field_in, handout_for, labels_for, labels_in, raw_in, raw_in_file, schedule_in, sizes_in, verdict, within_grid};
ghost use Rattle.meshadapt.specs.Words.{InFile};
ghost use Rattle.meshadapt.specs.steps.Fetching.{AreLabels, CanRun, CountsGrow, Fetches, Hands, IsRunnable, LabelsFit, Reads, accepted_mesh, handout_of, inputs_of};
ghost use Rattle.meshadapt.specs.steps.Asking.{HasSize, asked, sizes_asked};

use crate::halt::Halt;
use crate::status::{FileKind, Refusal};
use crate::words::{Job, Sizes};
use carrier::Schedule;
use job_files::{JobFault, read_partition, read_schedule, read_size};
use ma_cells::{Label, Mesh};
use ma_io::{Depot, FetchFault};
use mesh_check::{MeshFault, accept, grid};
use msh_read::{MshFault, Name, RawMesh, read_msh};
use size_marks::SizeField;
use std::alloc::Global;

/// How many bytes a file may have.
const LONGEST: usize = 67_108_864;

/// The mesh that is accepted, its grid exponent, and the names of its file.
#[derive(Debug, Drop)]
pub struct Accepted {
    pub mesh: Mesh,
    pub grid: u32,
    pub names: Vec<Name>,
}

/// How a mesh is handed out: the number of parts, the part of each tetrahedron in the order of the
/// file, and the picks by which letters are taken.
#[derive(Debug, Drop)]
pub struct Handout {
    pub parts: u8,
    pub labels: Vec<Label>,
    pub schedule: Schedule,
}

/// What a run starts from: the mesh, the sizes of edges, and how the mesh is handed out, if it is.
#[derive(Debug, Drop)]
pub struct Fetched {
    pub accepted: Accepted,
    pub field: SizeField,
    pub handout: Option<Handout>,
}

/// The bytes of this file of a job.
fn fetch_file<D: Depot>(
    alloc: Global,
    depot: &mut D,
    job: &Job,
    file: FileKind,
    name: &str,
) -> Result<Vec<u8>, Halt>
    requires { is_of_job (asked job.now) file ≡ true }
    ensures files { (D.held depot.new).files ≡ (D.held depot.old).files }
    ensures store_faults { (D.held depot.new).store_faults ≡ (D.held depot.old).store_faults }
    ensures counts { CountsGrow (D.held depot.old) (D.held depot.new) }
    ensures fetches { Fetches (asked job.now) (λ bytes. bytes.items) result (λ files. bytes_in file (get files name.now)) (D.held depot.old) (D.held depot.new) }
{
    let mut bytes = Vec::new(alloc);
    match depot.fetch(name, &mut bytes, LONGEST) {
        Ok(()) => Ok(bytes),
        Err(FetchFault::Failed) => Err(Halt::Unread(file)),
        Err(FetchFault::Absent) => Err(Halt::Refused(Refusal::Missing(file))),
        Err(FetchFault::TooLong) => Err(Halt::Refused(Refusal::TooLong(file))),
        Err(FetchFault::Memory) => Err(Halt::Memory),
    }
}

/// The raw mesh that the bytes are.
fn raw_in(alloc: Global, bytes: &[u8]) -> Result<RawMesh, Halt>
    ensures { Reads (λ mesh. raw mesh) result (raw_in bytes.now) }
{
    match read_msh(alloc, bytes) {
        Ok(mesh) => Ok(mesh),
        Err(MshFault::At { line, kind }) => Err(Halt::Refused(Refusal::Mesh(MshFault::At {
            line,
            kind,
        }))),
        Err(MshFault::Memory) => Err(Halt::Memory),
    }
}

/// The raw mesh in the file of the mesh. The bytes of the file end here.
fn fetch_raw<D: Depot>(alloc: Global, depot: &mut D, job: &Job) -> Result<RawMesh, Halt>
    ensures files { (D.held depot.new).files ≡ (D.held depot.old).files }
    ensures store_faults { (D.held depot.new).store_faults ≡ (D.held depot.old).store_faults }
    ensures counts { CountsGrow (D.held depot.old) (D.held depot.new) }
    ensures fetches { Fetches (asked job.now) (λ mesh. raw mesh) result (λ files. raw_in_file (get files job.now.mesh.now)) (D.held depot.old) (D.held depot.new) }
{
    let bytes = fetch_file(alloc, depot, job, FileKind::MeshFile, job.mesh)?;
    let mesh = raw_in(alloc, bytes.as_slice())?;
    Ok(mesh)
}

/// The mesh that a raw mesh is.
fn accepted_in(alloc: Global, mesh: RawMesh) -> Result<Accepted, Halt>
    ensures value { Reads (λ accepted. accepted_mesh accepted) result (accepted_in (raw mesh)) }
    ensures fit { IfOk result (λ accepted. IsRunnable accepted.mesh accepted.grid) }
{
    match accept(alloc, &mesh, 0) {
        Ok(accepted) => {
            let grid = grid(&accepted);
            Ok(Accepted {
                mesh: accepted,
                grid,
                names: mesh.names,
            })
        }
        Err(MeshFault::Memory) => Err(Halt::Memory),
        Err(fault) => Err(Halt::Refused(Refusal::Accept(fault))),
    }
}

/// The mesh in the file of the mesh. The raw mesh ends here.
fn fetch_mesh<D: Depot>(alloc: Global, depot: &mut D, job: &Job) -> Result<Accepted, Halt>
    ensures files { (D.held depot.new).files ≡ (D.held depot.old).files }
    ensures store_faults { (D.held depot.new).store_faults ≡ (D.held depot.old).store_faults }
    ensures counts { CountsGrow (D.held depot.old) (D.held depot.new) }
    ensures fetches { Fetches (asked job.now) (λ accepted. accepted_mesh accepted) result (λ files. accepted_in_file (get files job.now.mesh.now)) (D.held depot.old) (D.held depot.new) }
    ensures fit { IfOk result (λ accepted. IsRunnable accepted.mesh accepted.grid) }
{
    let mesh = fetch_raw(alloc, depot, job)?;
    let accepted = accepted_in(alloc, mesh)?;
    Ok(accepted)
}

/// The sizes that the bytes of a size file tell.
fn sizes_in(alloc: Global, bytes: &[u8]) -> Result<SizeField, Halt>
    ensures { Reads (λ field. field) result (sizes_in bytes.now) }
{
    match read_size(alloc, bytes) {
        Ok(field) => Ok(field),
        Err(JobFault::Memory) => Err(Halt::Memory),
        Err(fault) => Err(Halt::Refused(Refusal::Size(fault))),
    }
}

/// The sizes in the file of this name.
fn fetch_size_file<D: Depot>(
    alloc: Global,
    depot: &mut D,
    job: &Job,
    name: &str,
) -> Result<SizeField, Halt>
    requires { is_of_job (asked job.now) SizeFile ≡ true }
    ensures files { (D.held depot.new).files ≡ (D.held depot.old).files }
    ensures store_faults { (D.held depot.new).store_faults ≡ (D.held depot.old).store_faults }
    ensures counts { CountsGrow (D.held depot.old) (D.held depot.new) }
    ensures fetches { Fetches (asked job.now) (λ field. field) result (λ files. field_in (InFile name.now) files) (D.held depot.old) (D.held depot.new) }
{
    let bytes = fetch_file(alloc, depot, job, FileKind::SizeFile, name)?;
    let field = sizes_in(alloc, bytes.as_slice())?;
    Ok(field)
}

/// The sizes of a job.
fn fetch_sizes<D: Depot>(alloc: Global, depot: &mut D, job: &Job) -> Result<SizeField, Halt>
    requires { HasSize job.now.sizes }
    ensures files { (D.held depot.new).files ≡ (D.held depot.old).files }
    ensures store_faults { (D.held depot.new).store_faults ≡ (D.held depot.old).store_faults }
    ensures counts { CountsGrow (D.held depot.old) (D.held depot.new) }
    ensures fetches { Fetches (asked job.now) (λ field. field) result (λ files. field_in (sizes_asked job.now.sizes) files) (D.held depot.old) (D.held depot.new) }
{
    match job.sizes {
        Sizes::Uniform(size) => Ok(SizeField::uniform(alloc, size)),
        Sizes::InFile(name) => fetch_size_file(alloc, depot, job, name),
    }
}

/// The parts that the bytes of a partition file tell, of so many tetrahedra.
fn labels_in(alloc: Global, bytes: &[u8], tets: usize, parts: u8) -> Result<Vec<Label>, Halt>
    ensures value { Reads (λ labels. labels.items) result (labels_in tets parts bytes.now) }
    ensures fit { IfOk result (λ labels. AreLabels parts tets labels.items) }
{
    match read_partition(alloc, bytes, tets, parts) {
        Ok(labels) => Ok(labels),
        Err(JobFault::Memory) => Err(Halt::Memory),
        Err(fault) => Err(Halt::Refused(Refusal::Partition(fault))),
    }
}

/// The part of each of so many tetrahedra, if the mesh of the job is handed out.
fn fetch_labels<D: Depot>(
    alloc: Global,
    depot: &mut D,
    job: &Job,
    tets: usize,
) -> Result<Option<Vec<Label>>, Halt>
    ensures files { (D.held depot.new).files ≡ (D.held depot.old).files }
    ensures store_faults { (D.held depot.new).store_faults ≡ (D.held depot.old).store_faults }
    ensures counts { CountsGrow (D.held depot.old) (D.held depot.new) }
    ensures fetches { Fetches (asked job.now) (λ labels. option_map (λ l. l.items) labels) result (λ files. labels_for (asked job.now).division tets files) (D.held depot.old) (D.held depot.new) }
    ensures fit { IfOk result (λ labels. LabelsFit job.now.division tets (option_map (λ l. l.items) labels)) }
{
    let Some(division) = job.division else {
        return Ok(None);
    };
    let bytes = fetch_file(
        alloc,
        depot,
        job,
        FileKind::PartitionFile,
        division.partition,
    )?;
    let labels = labels_in(alloc, bytes.as_slice(), tets, division.parts)?;
    Ok(Some(labels))
}

/// The picks that the bytes of a schedule file tell.
fn schedule_in(alloc: Global, bytes: &[u8]) -> Result<Schedule, Halt>
    ensures { Reads (λ schedule. schedule) result (schedule_in bytes.now) }
{
    match read_schedule(alloc, bytes) {
        Ok(schedule) => Ok(schedule),
        Err(JobFault::Memory) => Err(Halt::Memory),
        Err(fault) => Err(Halt::Refused(Refusal::Schedule(fault))),
    }
}

/// How the mesh of a job is handed out with these labels, if it is.
fn fetch_handout<D: Depot>(
    alloc: Global,
    depot: &mut D,
    job: &Job,
    labels: Option<Vec<Label>>,
) -> Result<Option<Handout>, Halt>
    ensures files { (D.held depot.new).files ≡ (D.held depot.old).files }
    ensures store_faults { (D.held depot.new).store_faults ≡ (D.held depot.old).store_faults }
    ensures counts { CountsGrow (D.held depot.old) (D.held depot.new) }
    ensures fetches { (mesh : MarkedMesh) → Fetches (asked job.now) (λ handout. option_map (handout_of mesh) handout) result (λ files. handout_for mesh (asked job.now).division (option_map (λ l. l.items) labels) files) (D.held depot.old) (D.held depot.new) }
    ensures hands { IfOk result (λ handout. Hands job.now.division (option_map (λ l. l.items) labels) handout) }
{
    let Some(division) = job.division else {
        return Ok(None);
    };
    let Some(labels) = labels else {
        return Ok(None);
    };
    let bytes = fetch_file(alloc, depot, job, FileKind::ScheduleFile, division.schedule)?;
    let schedule = schedule_in(alloc, bytes.as_slice())?;
    Ok(Some(Handout {
        parts: division.parts,
        labels,
        schedule,
    }))
}

/// What a run starts from, unless more rounds are asked for than the grid of the mesh can be halved.
fn within_grid(fetched: Fetched, rounds: u32) -> Result<Fetched, Halt>
    ensures value { Reads (λ within. inputs_of within) result (within_grid rounds (inputs_of fetched)) }
    ensures same { IfOk result (λ within. within ≡ fetched) }
    ensures finer { IfOk result (λ within. rounds ≤ within.accepted.grid) }
{
    let grid = fetched.accepted.grid;
    if rounds <= grid {
        Ok(fetched)
    } else {
        Err(Halt::Refused(Refusal::Rounds { rounds, grid }))
    }
}

/// What a job's run starts from.
pub fn fetch_inputs<D: Depot>(alloc: Global, depot: &mut D, job: &Job) -> Result<Fetched, Halt>
    requires { HasSize job.now.sizes }
    ensures files { (D.held depot.new).files ≡ (D.held depot.old).files }
    ensures store_faults { (D.held depot.new).store_faults ≡ (D.held depot.old).store_faults }
    ensures fetches { Fetches (asked job.now) (λ fetched. inputs_of fetched) result (λ files. verdict files (asked job.now)) (D.held depot.old) (D.held depot.new) }
    ensures runnable { IfOk result (λ fetched. CanRun job.now.division fetched) }
    ensures finer { IfOk result (λ fetched. job.now.rounds ≤ fetched.accepted.grid) }
{
    let accepted = fetch_mesh(alloc, depot, job)?;
    let tets = accepted.mesh.tets().len();
    let labels = fetch_labels(alloc, depot, job, tets)?;
    let field = fetch_sizes(alloc, depot, job)?;
    let handout = fetch_handout(alloc, depot, job, labels)?;
    let fetched = Fetched {
        accepted,
        field,
        handout,
    };
    let within = within_grid(fetched, job.rounds)?;
    Ok(within)
}
