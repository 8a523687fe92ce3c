// Why a file is not read.
ghost use Rattle.std.specs.Prelude.{◌≡◌};
ghost use Rattle.msh_read.specs.steps.LineAnswers.{located};
ghost use Rattle.msh_read.specs.declared.fault.Fault.TheVariants as line_faults;

use ma_geom::Memory;
use std::alloc::{AllocError, AllocFailed};

#[derive(Clone, Copy, Debug, PartialEq, Eq)]
pub enum MshFault {
    /// The first fault of the file, and the number of its line, counted from 1. What is wanting at
    /// the end of the file stands at the number behind that of the last line.
    At { line: u64, kind: MshKind },
    Memory,
}

#[derive(Clone, Copy, Debug, PartialEq, Eq)]
pub enum MshKind {
    /// There is no `$MeshFormat`, or another section of the four stands before it.
    NoFormat,
    /// The version isn't 2.2.
    OtherVersion,
    /// The file is in the binary form.
    Binary,
    /// The line isn't what stands at its place.
    BadLine,
    /// A section has more or fewer lines than its count says.
    BadCount,
    /// A coordinate isn't a whole number.
    NotWhole,
    /// A coordinate is past 2^30 in absolute value.
    OutOfRange,
    /// Two nodes have this line's number.
    NodeTwice,
    /// No node has a number that stands in the line.
    NoSuchNode,
    /// The element is of this type, which is none of those that are read.
    OtherKind(i64),
    /// The file ends within a section.
    Truncated,
    /// There is no `$Nodes`, or it has no node, or `$Elements` stands before it.
    NoNodes,
    /// There is no `$Elements`, or it has no element.
    NoElements,
}

/// Why a line is not read.
#[derive(Clone, Copy, Debug, PartialEq, Eq)]
pub enum Fault {
    Kind(MshKind),
    NoMemory,
}

impl Fault {
    /// The fault at the line with this number.
    pub fn at(self, line: u64) -> MshFault
        ensures { result ≡ located line self }
    {
        match self {
            Fault::Kind(kind) => MshFault::At { line, kind },
            Fault::NoMemory => MshFault::Memory,
        }
    }
}

impl From<MshKind> for Fault {
    ghost from_gives = { λ kind e. e ≡ line_faults.Kind kind };

    fn from(kind: MshKind) -> Fault {
        Fault::Kind(kind)
    }
}

impl From<AllocError> for Fault {
    ghost from_gives = { λ _ e. e ≡ line_faults.NoMemory };

    fn from(_error: AllocError) -> Fault {
        Fault::NoMemory
    }
}

impl<T: Drop> From<AllocFailed<T>> for Fault {
    ghost from_gives = { λ _ e. e ≡ line_faults.NoMemory };

    fn from(_error: AllocFailed<T>) -> Fault {
        Fault::NoMemory
    }
}

impl From<Memory> for Fault {
    ghost from_gives = { λ _ e. e ≡ line_faults.NoMemory };

    fn from(_error: Memory) -> Fault {
        Fault::NoMemory
    }
}
