// The partition file.
ghost use Rattle.std.specs.Prelude.{◌≡◌};
ghost use Rattle.msh_read.specs.Trying.{each};
ghost use Rattle.ma_text.specs.Lines.{numbered_lines};
ghost use Rattle.job_files.specs.Answer.{Gives};
ghost use Rattle.job_files.specs.Partition.{labels_of, part_of};

use crate::fault::JobFault;
use crate::words::one_word;
use ma_cells::Label;
use ma_text::{Lines, NumberFault, natural};
use std::alloc::Global;

/// The part that a line tells of so many parts.
#[tactic(auto, using(crate::proofs::Numbers::part_from), unfolding(crate::specs::Partition::part_of))]
fn part(parts: u8, line: u64, bytes: &[u8]) -> Result<Label, JobFault>
    ensures { result ≡ part_of parts (line, bytes.now) }
{
    let Some(word) = one_word(bytes) else {
        return Err(JobFault::BadLine(line));
    };
    match natural(word) {
        Ok(value) if value < u64::from(parts) => Ok(value as u8),
        Ok(_) | Err(NumberFault::TooBig) => Err(JobFault::PartTooBig(line)),
        Err(NumberFault::NotWhole | NumberFault::Empty) => Err(JobFault::BadLine(line)),
    }
}

/// The parts that all lines tell.
fn read_parts(alloc: Global, bytes: &[u8], parts: u8) -> Result<Vec<Label>, JobFault>
    ensures { Gives (λ v. v.items) result (each (part_of parts) (numbered_lines bytes.now)) }
{
    let mut lines = Lines::new(bytes);
    let mut labels = Vec::new(alloc);
    while let Some(line) = lines.next_line() {
        labels.push(part(parts, line.number, line.bytes)?)?;
    }
    Ok(labels)
}

/// Reads a partition file for a mesh of `tets` tetrahedra: the part of each, below `parts`. The fault
/// [`JobFault::WrongCount`] has the number of lines and that of tetrahedra.
#[tactic(auto, unfolding(crate::specs::Partition::labels_of))]
pub fn read_partition(
    alloc: Global,
    bytes: &[u8],
    tets: usize,
    parts: u8,
) -> Result<Vec<Label>, JobFault>
    ensures { Gives (λ v. v.items) result (labels_of tets parts bytes.now) }
{
    let labels = read_parts(alloc, bytes, parts)?;
    if labels.len() != tets {
        return Err(JobFault::WrongCount(labels.len() as u64, tets as u64));
    }
    Ok(labels)
}
