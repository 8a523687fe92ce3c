//! What a part answers.
use ma_geom::Place;
use thiserror::Error;

/// How far a part has got.
#[derive(Clone, Copy, Debug, PartialEq, Eq)]
pub enum Step {
    /// It waits for letters in the phase in which it was.
    Waiting,
    /// It has entered this phase, and waits there.
    Moved(u32),
    /// It has ended the round.
    RoundDone,
    /// The posts of this phase tell so many tetrahedra in all, which are too many.
    Over { phase: u32, total: u64 },
}

/// Why a part refuses a letter, or can't go on.
#[derive(Clone, Copy, Debug, PartialEq, Eq, Error)]
pub enum PartFault {
    /// It is owed no such letter in this phase or the next.
    #[error("no such letter is expected in phase {phase}")]
    NotExpected { phase: u32 },
    /// A place in the letter isn't on the grid of the round.
    #[error("a place is not on the grid")]
    OffGrid(Place),
    /// Memory ran out.
    #[error("out of memory")]
    Memory,
}
