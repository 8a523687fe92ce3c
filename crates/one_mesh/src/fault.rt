// Why a round is refused.

/// Why a round of adaptation is refused.
#[derive(Clone, Copy, Debug, PartialEq, Eq)]
pub enum OneFault {
    /// After this stage of this round the mesh has `count` tetrahedra, which is more than 1,000,000.
    /// It is the first such stage.
    Over { round: u32, stage: u32, count: u64 },
    Memory,
}
