// Why a run ends before all is done.
ghost use Rattle.std.specs.Prelude.{◌≡◌};
ghost use Rattle.meshadapt.specs.declared.halt.Halt.TheVariants as halt;

use crate::status::{FileKind, Refusal};
use world_run::RunFault;

/// Why a run ends before all is done. Its last line isn't put yet.
#[derive(Debug, Drop)]
pub enum Halt {
    /// The fetch of this file failed.
    Unread(FileKind),
    Refused(Refusal),
    /// After this stage of this round the mesh has `count` tetrahedra, which is more than 1,000,000.
    TooMany { round: u32, stage: u32, count: u64 },
    /// The store of the file of this name failed.
    Unstored(String),
    /// The put of a line failed.
    Unput,
    /// The run of parts ended early. It isn't for want of memory.
    Parts(RunFault),
    Memory,
}

impl From<ma_geom::Memory> for Halt {
    ghost from_gives = { λ _ e. e ≡ halt.Memory };

    fn from(_error: ma_geom::Memory) -> Halt {
        Halt::Memory
    }
}
