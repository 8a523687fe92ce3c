// The schedule file.
ghost use Rattle.std.specs.Prelude.{◌≡◌};
ghost use Rattle.msh_read.specs.Trying.{each};
ghost use Rattle.ma_text.specs.Lines.{numbered_lines};
ghost use Rattle.job_files.specs.Answer.{Gives};
ghost use Rattle.job_files.specs.Schedule.{pick_of, schedule_of};

use crate::fault::JobFault;
use crate::words::one_word;
use carrier::Schedule;
use ma_text::{Lines, natural};
use std::alloc::Global;

/// The pick that a line tells.
#[tactic(auto, unfolding(crate::specs::Schedule::pick_of))]
fn pick(line: u64, bytes: &[u8]) -> Result<u64, JobFault>
    ensures { result ≡ pick_of (line, bytes.now) }
{
    let Some(word) = one_word(bytes) else {
        return Err(JobFault::BadLine(line));
    };
    match natural(word) {
        Ok(pick) => Ok(pick),
        Err(_) => Err(JobFault::BadLine(line)),
    }
}

/// The picks that all lines tell.
fn read_picks(alloc: Global, bytes: &[u8]) -> Result<Vec<u64>, JobFault>
    ensures { Gives (λ v. v.items) result (each pick_of (numbered_lines bytes.now)) }
{
    let mut lines = Lines::new(bytes);
    let mut picks = Vec::new(alloc);
    while let Some(line) = lines.next_line() {
        picks.push(pick(line.number, line.bytes)?)?;
    }
    Ok(picks)
}

/// Reads a schedule file: picks of which none was used.
#[tactic(auto, unfolding(crate::specs::Schedule::schedule_of))]
pub fn read_schedule(alloc: Global, bytes: &[u8]) -> Result<Schedule, JobFault>
    ensures { Gives (λ schedule. schedule) result (schedule_of bytes.now) }
{
    Ok(Schedule::new(read_picks(alloc, bytes)?))
}
