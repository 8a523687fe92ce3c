// The lines that a run prints, and the name of what it stores.
ghost use Rattle.std.specs.Prelude.{◌≡◌, ◌∷◌, ◌++◌, [], IfOk, codes, length, string_bytes};
ghost use Rattle.std.specs.Fmt.{decimal};
ghost use Rattle.msh_read.specs.declared.fault.MshFault.TheVariants.{At};
ghost use Rattle.msh_write.specs.Text.{nodes_of};
ghost use Rattle.meshadapt.specs.declared.status.Refusal.TheVariants.{Accept, Mesh, Missing, Rounds, TooLong};
ghost use Rattle.meshadapt.specs.Printed.{bad_letter_line, fault_text, file_name, file_text, job_text, kind_text, link_fault_line, mesh_line, parts_done_line, read_fault_line, refused_line, round_line, starved_line, too_many_line, usage_line, write_fault_line};
ghost use Rattle.meshadapt.specs.steps.Asking.{asked};

use crate::measures::{tagged_count, worst};
use crate::status::{FileKind, Refusal};
use crate::words::{Job, Sizes};
use job_files::JobFault;
use ma_cells::{Batch, Label};
use ma_geom::Memory;
use mesh_check::MeshFault;
use msh_read::{MshFault, MshKind};
use std::alloc::Global;

/// The line that tells the size of a mesh with so many nodes before its rounds, of whose file so many
/// marks were loose.
#[tactic(auto, unfolding(crate::specs::Printed::mesh_line))]
pub fn mesh_line(alloc: Global, mesh: &Batch, nodes: usize, loose: u64) -> Result<String, Memory>
    requires { nodes ≡ length (nodes_of mesh.now.tets) }
    ensures { IfOk result (λ line. string_bytes line ≡ mesh_line mesh.now loose) }
{
    let tets = mesh.tets.len();
    let marks = tagged_count(mesh.marks.as_slice());
    Ok(format!(in alloc; "mesh: tets {tets} nodes {nodes} marks {marks} loose {loose}\n")?)
}

/// The line that tells the size and the worst quality of a mesh with so many nodes after this round.
#[tactic(auto, unfolding(crate::specs::Printed::round_line))]
pub fn round_line(alloc: Global, round: u32, mesh: &Batch, nodes: usize) -> Result<String, Memory>
    requires { nodes ≡ length (nodes_of mesh.now.tets) }
    ensures { IfOk result (λ line. string_bytes line ≡ round_line round mesh.now) }
{
    let tets = mesh.tets.len();
    let worst = worst(mesh.tets.as_slice());
    Ok(format!(in alloc; "round {round}: tets {tets} nodes {nodes} worst {worst}\n")?)
}

/// The line that tells after which stage of which round a mesh has too many tetrahedra.
#[tactic(auto, unfolding(crate::specs::Printed::too_many_line))]
pub fn too_many_line(alloc: Global, round: u32, stage: u32, count: u64) -> Result<String, Memory>
    ensures { IfOk result (λ line. string_bytes line ≡ too_many_line round stage count) }
{
    Ok(format!(in alloc; "too many: round {round} stage {stage} tets {count}\n")?)
}

/// The line that tells that the words aren't those of a job.
pub fn usage_line(alloc: Global) -> Result<String, Memory>
    ensures { IfOk result (λ line. string_bytes line ≡ usage_line) }
{
    Ok(String::from_str(alloc, "usage\n")?)
}

/// The name of a file that is fetched for a job.
pub fn file_name<'a>(job: &Job<'a>, file: FileKind) -> &'a str
    ensures { result.now ≡ file_name (asked job.now) file }
{
    match file {
        FileKind::MeshFile => job.mesh,
        FileKind::PartitionFile => job.division.map_or("", |division| division.partition),
        FileKind::SizeFile => match job.sizes {
            Sizes::Uniform(_) => "",
            Sizes::InFile(name) => name,
        },
        FileKind::ScheduleFile => job.division.map_or("", |division| division.schedule),
    }
}

/// The name under which the mesh is stored.
pub fn mesh_name(alloc: Global, out: &str) -> Result<String, Memory>
    ensures { IfOk result (λ name. string_bytes name ≡ out.now ++ codes ".msh") }
{
    Ok(format!(in alloc; "{out}.msh")?)
}

/// The name under which what a part sees is stored.
#[tactic(auto, unfolding(crate::specs::Printed::part_name))]
pub fn part_name(alloc: Global, out: &str, part: Label) -> Result<String, Memory>
    ensures { IfOk result (λ name. string_bytes name ≡ out.now ++ codes ".p" ++ decimal part ++ codes ".msh") }
{
    Ok(format!(in alloc; "{out}.p{part}.msh")?)
}

/// The last line of a run over so many parts, which took so many letters.
#[tactic(auto, unfolding(crate::specs::Printed::parts_done_line))]
pub fn parts_done_line(alloc: Global, parts: u8, letters: u64) -> Result<String, Memory>
    ensures { IfOk result (λ line. string_bytes line ≡ parts_done_line parts letters) }
{
    Ok(format!(in alloc; "done: parts {parts} letters {letters}\n")?)
}

/// The line that tells that the carrier failed.
pub fn link_fault_line(alloc: Global) -> Result<String, Memory>
    ensures { IfOk result (λ line. string_bytes line ≡ link_fault_line) }
{
    Ok(String::from_str(alloc, "link fault\n")?)
}

/// The line that tells of how many bytes a letter was that is refused.
#[tactic(auto, unfolding(crate::specs::Printed::bad_letter_line))]
pub fn bad_letter_line(alloc: Global, bytes: &[u8]) -> Result<String, Memory>
    ensures { IfOk result (λ line. string_bytes line ≡ bad_letter_line bytes.now) }
{
    let count = bytes.len();
    Ok(format!(in alloc; "bad letter: {count} bytes\n")?)
}

/// The line that tells which part waits in which phase, and no letter is left.
#[tactic(auto, unfolding(crate::specs::Printed::starved_line))]
pub fn starved_line(alloc: Global, part: Label, phase: u32) -> Result<String, Memory>
    ensures { IfOk result (λ line. string_bytes line ≡ starved_line part phase) }
{
    Ok(format!(in alloc; "starved: part {part} phase {phase}\n")?)
}

/// The line that tells which fetch failed.
#[tactic(auto, unfolding(crate::specs::Printed::read_fault_line))]
pub fn read_fault_line(alloc: Global, name: &str) -> Result<String, Memory>
    ensures { IfOk result (λ line. string_bytes line ≡ read_fault_line name.now) }
{
    Ok(format!(in alloc; "read fault: {name}\n")?)
}

/// The line that tells which store failed.
#[tactic(auto, unfolding(crate::specs::Printed::write_fault_line))]
pub fn write_fault_line(alloc: Global, name: &str) -> Result<String, Memory>
    ensures { IfOk result (λ line. string_bytes line ≡ write_fault_line name.now) }
{
    Ok(format!(in alloc; "write fault: {name}\n")?)
}

/// What is told of a fault at a line.
fn kind_text(alloc: Global, kind: MshKind) -> Result<String, Memory>
    ensures { IfOk result (λ text. string_bytes text ≡ kind_text kind) }
{
    match kind {
        MshKind::NoFormat => Ok(String::from_str(alloc, "no format")?),
        MshKind::OtherVersion => Ok(String::from_str(alloc, "other version")?),
        MshKind::Binary => Ok(String::from_str(alloc, "binary")?),
        MshKind::BadLine => Ok(String::from_str(alloc, "bad line")?),
        MshKind::BadCount => Ok(String::from_str(alloc, "bad count")?),
        MshKind::NotWhole => Ok(String::from_str(alloc, "not whole")?),
        MshKind::OutOfRange => Ok(String::from_str(alloc, "out of range")?),
        MshKind::NodeTwice => Ok(String::from_str(alloc, "node twice")?),
        MshKind::NoSuchNode => Ok(String::from_str(alloc, "no such node")?),
        MshKind::OtherKind(kind) => Ok(format!(in alloc; "element type {kind}")?),
        MshKind::Truncated => Ok(String::from_str(alloc, "truncated")?),
        MshKind::NoNodes => Ok(String::from_str(alloc, "no nodes")?),
        MshKind::NoElements => Ok(String::from_str(alloc, "no elements")?),
    }
}

/// The line that tells the fault of a mesh file at a line of it.
#[tactic(auto, unfolding(crate::specs::Printed::refused_line))]
fn faulty_line(alloc: Global, line: u64, kind: MshKind) -> Result<String, Memory>
    ensures { IfOk result (λ text. string_bytes text ≡ refused_line (Mesh (At line kind))) }
{
    let kind = kind_text(alloc, kind)?;
    Ok(format!(in alloc; "refused: mesh line {line}: {kind}\n")?)
}

/// The line that tells why a mesh file can't be read.
#[tactic(auto, unfolding(crate::specs::Printed::refused_line))]
fn unread_line(alloc: Global, fault: MshFault) -> Result<String, Memory>
    ensures { IfOk result (λ line. string_bytes line ≡ refused_line (Mesh fault)) }
{
    match fault {
        MshFault::At { line, kind } => faulty_line(alloc, line, kind),
        MshFault::Memory => Ok(String::from_str(alloc, "refused: memory\n")?),
    }
}

/// What is told of a mesh that isn't accepted.
fn fault_text(alloc: Global, fault: MeshFault) -> Result<String, Memory>
    ensures { IfOk result (λ text. string_bytes text ≡ fault_text fault) }
{
    match fault {
        MeshFault::NoTets => Ok(String::from_str(alloc, "no tetrahedra")?),
        MeshFault::TooManyTets(count) => Ok(format!(in alloc; "{count} tetrahedra")?),
        MeshFault::TooFar(node) => Ok(format!(in alloc; "node {node} too far")?),
        MeshFault::SamePlace(node, other) => {
            Ok(format!(in alloc; "nodes {node} and {other} at one place")?)
        }
        MeshFault::Flat(tet) => Ok(format!(in alloc; "tetrahedron {tet} flat")?),
        MeshFault::Repeated(tet, other) => {
            Ok(format!(in alloc; "tetrahedra {tet} and {other} the same")?)
        }
        MeshFault::Overlap(tet, other) => {
            Ok(format!(in alloc; "tetrahedra {tet} and {other} overlap")?)
        }
        MeshFault::Memory => Ok(String::from_str(alloc, "memory")?),
    }
}

/// The line that tells why a mesh isn't accepted.
#[tactic(auto, unfolding(crate::specs::Printed::refused_line))]
fn unaccepted_line(alloc: Global, fault: MeshFault) -> Result<String, Memory>
    ensures { IfOk result (λ line. string_bytes line ≡ refused_line (Accept fault)) }
{
    let fault = fault_text(alloc, fault)?;
    Ok(format!(in alloc; "refused: mesh: {fault}\n")?)
}

/// The kind of a file, in a word.
fn file_text(file: FileKind) -> &'static str
    ensures { result.now ≡ file_text file }
{
    match file {
        FileKind::MeshFile => "mesh",
        FileKind::PartitionFile => "partition",
        FileKind::SizeFile => "size",
        FileKind::ScheduleFile => "schedule",
    }
}

/// What is told of a file of a job that can't be read.
fn job_text(alloc: Global, file: FileKind, fault: JobFault) -> Result<String, Memory>
    ensures { IfOk result (λ text. string_bytes text ≡ job_text file fault) }
{
    let file = file_text(file);
    match fault {
        JobFault::BadLine(line) => Ok(format!(in alloc; "{file} line {line}: bad line")?),
        JobFault::SizeOutOfRange(line) => {
            Ok(format!(in alloc; "{file} line {line}: out of range")?)
        }
        JobFault::TooManyBoxes(line) => {
            Ok(format!(in alloc; "{file} line {line}: too many boxes")?)
        }
        JobFault::PartTooBig(line) => Ok(format!(in alloc; "{file} line {line}: part too big")?),
        JobFault::WrongCount(have, want) => {
            Ok(format!(in alloc; "{file}: {have} lines for {want} tetrahedra")?)
        }
        JobFault::Memory => Ok(String::from_str(alloc, "memory")?),
    }
}

/// The line that tells why a file of a job is refused, where these words tell it.
fn told_line(alloc: Global, text: &str) -> Result<String, Memory>
    ensures { IfOk result (λ line. string_bytes line ≡ codes "refused: " ++ text.now ++ 10 ∷ []) }
{
    Ok(format!(in alloc; "refused: {text}\n")?)
}

/// The line that tells that the grid is too fine for the rounds.
#[tactic(auto, unfolding(crate::specs::Printed::refused_line))]
fn rounds_line(alloc: Global, rounds: u32, grid: u32) -> Result<String, Memory>
    ensures { IfOk result (λ line. string_bytes line ≡ refused_line (Rounds rounds grid)) }
{
    Ok(format!(in alloc; "refused: rounds {rounds} grid {grid}\n")?)
}

/// The line that tells that a file is missing.
#[tactic(auto, unfolding(crate::specs::Printed::refused_line))]
fn missing_line(alloc: Global, file: FileKind) -> Result<String, Memory>
    ensures { IfOk result (λ line. string_bytes line ≡ refused_line (Missing file)) }
{
    let file = file_text(file);
    Ok(format!(in alloc; "refused: {file}: missing\n")?)
}

/// The line that tells that a file is too long.
#[tactic(auto, unfolding(crate::specs::Printed::refused_line))]
fn too_long_line(alloc: Global, file: FileKind) -> Result<String, Memory>
    ensures { IfOk result (λ line. string_bytes line ≡ refused_line (TooLong file)) }
{
    let file = file_text(file);
    Ok(format!(in alloc; "refused: {file}: too long\n")?)
}

/// The line that tells why a job is refused.
#[tactic(auto, unfolding(crate::specs::Printed::refused_line))]
pub fn refused_line(alloc: Global, refusal: Refusal) -> Result<String, Memory>
    ensures { IfOk result (λ line. string_bytes line ≡ refused_line refusal) }
{
    match refusal {
        Refusal::Missing(file) => missing_line(alloc, file),
        Refusal::TooLong(file) => too_long_line(alloc, file),
        Refusal::Mesh(fault) => unread_line(alloc, fault),
        Refusal::Accept(fault) => unaccepted_line(alloc, fault),
        Refusal::Partition(fault) => {
            let text = job_text(alloc, FileKind::PartitionFile, fault)?;
            told_line(alloc, text.as_str())
        }
        Refusal::Size(fault) => {
            let text = job_text(alloc, FileKind::SizeFile, fault)?;
            told_line(alloc, text.as_str())
        }
        Refusal::Schedule(fault) => {
            let text = job_text(alloc, FileKind::ScheduleFile, fault)?;
            told_line(alloc, text.as_str())
        }
        Refusal::Rounds { rounds, grid } => rounds_line(alloc, rounds, grid),
    }
}
