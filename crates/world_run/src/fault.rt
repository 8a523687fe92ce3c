//! Why a run of parts ended early.
ghost use Rattle.std.specs.Prelude.{◌≡◌};
ghost use Rattle.world_run.specs.declared.fault.RunFault.TheVariants.{Memory as NoMemory};

use ma_cells::Label;
use ma_geom::Memory;
use thiserror::Error;

/// Why a run of parts ended early.
#[derive(Debug, Drop, Error)]
pub enum RunFault {
    /// The carrier failed.
    #[error("the carrier failed")]
    Link,
    /// These bytes are no letter, name no part or one that is done, or are refused by the part that
    /// they name.
    #[error("a letter of {} bytes is refused", .0.len())]
    BadLetter(Vec<u8>),
    /// No letter was left, and this is the first part that isn't done.
    #[error("part {part} waits in phase {phase}, and no letter is left")]
    Starved { part: Label, phase: u32 },
    /// After a stage of a round there are more than 1,000,000 tetrahedra.
    #[error("{count} tetrahedra after stage {stage} of round {round}")]
    Over { round: u32, stage: u32, count: u64 },
    /// Memory ran out.
    #[error("out of memory")]
    Memory,
}

impl From<Memory> for RunFault {
    ghost from_gives = { λ _ fault. fault ≡ NoMemory };

    fn from(_memory: Memory) -> RunFault {
        RunFault::Memory
    }
}
