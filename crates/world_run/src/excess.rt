//! Too many tetrahedra in all.
ghost use Rattle.std.specs.Prelude.{◌≡◌, Err};
ghost use Rattle.world_run.specs.steps.Beginning.{excess_of};
ghost use Rattle.world_run.specs.declared.fault.RunFault.TheVariants.{Over};

use crate::fault::RunFault;
use part_core::Step;

/// Phases that a stage of a round has.
const PHASES_OF_STAGE: u32 = 7;

/// How many tetrahedra there are after a stage of a round, where they are too many.
#[derive(Clone, Copy)]
pub struct Excess {
    pub round: u32,
    pub stage: u32,
    pub count: u64,
}

impl Excess {
    /// What a step of a part in this round says of too many tetrahedra. Takes no memory.
    pub fn of(round: u32, step: Step) -> Option<Excess>
        ensures { result ≡ excess_of round step }
    {
        match step {
            Step::Over { phase, total } => Some(Excess {
                round,
                stage: phase / PHASES_OF_STAGE,
                count: total,
            }),
            Step::Waiting | Step::Moved(_) | Step::RoundDone => None,
        }
    }

    /// The fault by which a run ends. Takes no memory.
    pub fn fault(self) -> RunFault
        ensures { result ≡ Over self.round self.stage self.count }
    {
        RunFault::Over {
            round: self.round,
            stage: self.stage,
            count: self.count,
        }
    }
}
