// How a run ends.
ghost use Rattle.std.specs.Prelude.{◌≡◌};
ghost use Rattle.meshadapt.specs.Codes.{code_of};

use job_files::JobFault;
use ma_cells::Label;
use mesh_check::MeshFault;
use msh_read::MshFault;

/// A file that a job names.
#[derive(Clone, Copy, Debug, PartialEq, Eq)]
pub enum FileKind {
    MeshFile,
    PartitionFile,
    SizeFile,
    ScheduleFile,
}

/// Why a job is refused. None of these holds want of memory.
#[derive(Clone, Copy, Debug, PartialEq, Eq)]
pub enum Refusal {
    /// The depot has no file of this name.
    Missing(FileKind),
    /// The file has more than 67,108,864 bytes.
    TooLong(FileKind),
    /// The file of the mesh can't be read.
    Mesh(MshFault),
    /// The mesh in the file isn't accepted.
    Accept(MeshFault),
    /// The partition file can't be read, or isn't one of the mesh.
    Partition(JobFault),
    /// The file of sizes can't be read.
    Size(JobFault),
    /// The file of picks can't be read.
    Schedule(JobFault),
    /// All coordinates of the mesh are multiples of 2^grid, and of no greater power up to 2^30, and
    /// more rounds than `grid` are asked for.
    Rounds { rounds: u32, grid: u32 },
}

/// How a run ends.
#[derive(Debug, PartialEq, Eq, Drop)]
pub enum Status {
    Done,
    /// The words aren't those of a job.
    Usage,
    /// A fetch failed.
    ReadFault,
    /// A store failed, or a line couldn't be put.
    WriteFault,
    Refused(Refusal),
    /// After this stage of this round the mesh has `count` tetrahedra, which is more than 1,000,000.
    TooMany { round: u32, stage: u32, count: u64 },
    Memory,
    /// The carrier failed.
    LinkFault,
    /// These bytes were handed out, and are no letter, name no part or one that is done, or were
    /// refused by the part that they name.
    BadLetter(Vec<u8>),
    /// No letter was left, and this is the first part that wasn't done.
    Starved { part: Label, phase: u32 },
}

impl Status {
    /// What the program ends with.
    pub fn code(&self) -> u8
        ensures { result ≡ code_of self.now }
    {
        match self {
            Status::Done => 0,
            Status::Usage => 1,
            Status::ReadFault => 2,
            Status::WriteFault => 3,
            Status::Refused(_) => 4,
            Status::TooMany { .. } => 5,
            Status::Memory => 6,
            Status::LinkFault => 7,
            Status::BadLetter(_) => 8,
            Status::Starved { .. } => 9,
        }
    }
}
