// Why bytes are no letter.
ghost use Rattle.std.specs.Prelude.{◌≡◌};
ghost use Rattle.letters.specs.declared.fault.LetterFault.TheVariants.{Memory as NoMemory};

use std::alloc::{AllocError, AllocFailed};

#[derive(Clone, Copy, Debug, PartialEq, Eq)]
pub enum LetterFault {
    /// The bytes end before a field that is still to be read.
    Short,
    /// Bytes follow a whole letter.
    Long,
    /// The first wrong field, by the place of its first byte, counted from 0.
    BadField(u64),
    Memory,
}

impl From<ma_geom::Memory> for LetterFault {
    ghost from_gives = { λ _ fault. fault ≡ NoMemory };

    fn from(_memory: ma_geom::Memory) -> LetterFault {
        LetterFault::Memory
    }
}

impl From<AllocError> for LetterFault {
    ghost from_gives = { λ _ fault. fault ≡ NoMemory };

    fn from(_error: AllocError) -> LetterFault {
        LetterFault::Memory
    }
}

impl<T: Drop> From<AllocFailed<T>> for LetterFault {
    ghost from_gives = { λ _ fault. fault ≡ NoMemory };

    fn from(_error: AllocFailed<T>) -> LetterFault {
        LetterFault::Memory
    }
}
