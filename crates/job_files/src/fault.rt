//! What is wrong with a file of a job.
ghost use Rattle.std.specs.Prelude.{◌≡◌};
ghost use Rattle.job_files.specs.declared.fault.JobFault.TheVariants as job_fault;

use std::alloc::AllocFailed;
use thiserror::Error;

/// Why a file was refused. Lines are counted from 1; the end of a file without a line is line 1.
#[derive(Clone, Copy, Debug, PartialEq, Eq, Error)]
pub enum JobFault {
    /// The line of this number has not the form that it has to have.
    #[error("line {0} is no such line")]
    BadLine(u64),
    /// The size in this line is not from 1 to 2^30.
    #[error("the size in line {0} is out of range")]
    SizeOutOfRange(u64),
    /// This line has the 10,001st box.
    #[error("line {0} has one box too many")]
    TooManyBoxes(u64),
    /// The part in this line is not below the number of parts.
    #[error("the part in line {0} is too big")]
    PartTooBig(u64),
    /// No line is at fault, but there are so many, and so many are wanted.
    #[error("{0} lines in place of {1}")]
    WrongCount(u64, u64),
    /// Memory ran out.
    #[error("out of memory")]
    Memory,
}

impl From<ma_geom::Memory> for JobFault {
    ghost from_gives = { λ _ e. e ≡ job_fault.Memory };

    fn from(_error: ma_geom::Memory) -> JobFault {
        JobFault::Memory
    }
}

impl<T: Drop> From<AllocFailed<T>> for JobFault {
    ghost from_gives = { λ _ e. e ≡ job_fault.Memory };

    fn from(_error: AllocFailed<T>) -> JobFault {
        JobFault::Memory
    }
}
