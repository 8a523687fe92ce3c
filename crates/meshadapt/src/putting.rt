// Puts lines, among them the last of a run.
ghost use Rattle.std.specs.Prelude.{◌≡◌, MatchResult, string_bytes};
ghost use Rattle.meshadapt.specs.steps.Asking.{asked};
ghost use Rattle.meshadapt.specs.steps.Running.{Ends, EndsAs, PutsLine, PartsEnd};

use crate::halt::Halt;
use crate::lines::{
    bad_letter_line, file_name, link_fault_line, read_fault_line, refused_line, starved_line,
    too_many_line, write_fault_line,
};
use crate::status::Status;
use crate::words::Job;
use ma_geom::Memory;
use ma_io::{Sink, SinkFault};
use std::alloc::Global;
use world_run::RunFault;

pub fn put_line<S: Sink>(out: &mut S, line: &[u8]) -> Result<(), Halt>
    ensures { PutsLine result line.now (S.received out.old) (S.received out.new) }
{
    match out.put(line) {
        Ok(()) => Ok(()),
        Err(SinkFault::Failed) => Err(Halt::Unput),
        Err(SinkFault::Memory) => Err(Halt::Memory),
    }
}

fn end_for_memory<S: Sink>(out: &mut S) -> Status
    ensures { result ≡ Status.Memory }
{
    let _told = out.put(b"memory\n");
    Status::Memory
}

/// Ends a run with this line, or for want of memory. A line whose put fails changes nothing.
pub fn end_with<S: Sink>(out: &mut S, status: Status, line: Result<String, Memory>) -> Status
    ensures { MatchResult line (λ l. EndsAs result status (string_bytes l) (S.received out.old) (S.received out.new)) (λ _. result ≡ Status.Memory) }
{
    match line {
        Ok(line) => match put_line(out, line.as_bytes()) {
            Ok(()) => status,
            Err(Halt::Unput) => status,
            Err(_) => end_for_memory(out),
        },
        Err(Memory) => end_for_memory(out),
    }
}

/// Ends a run over parts that ended early.
fn end_parts<S: Sink>(alloc: Global, out: &mut S, fault: RunFault) -> Status
    ensures { PartsEnd result fault (S.received out.old) (S.received out.new) }
{
    match fault {
        RunFault::Link => end_with(out, Status::LinkFault, link_fault_line(alloc)),
        RunFault::BadLetter(bytes) => {
            let line = bad_letter_line(alloc, bytes.as_slice());
            end_with(out, Status::BadLetter(bytes), line)
        }
        RunFault::Starved { part, phase } => {
            let line = starved_line(alloc, part, phase);
            end_with(out, Status::Starved { part, phase }, line)
        }
        RunFault::Over {
            round,
            stage,
            count,
        } => {
            let line = too_many_line(alloc, round, stage, count);
            let status = Status::TooMany {
                round,
                stage,
                count,
            };
            end_with(out, status, line)
        }
        RunFault::Memory => end_for_memory(out),
    }
}

/// Ends a run that has halted: puts its last line, unless the put of a line failed.
pub fn end_halted<S: Sink>(alloc: Global, out: &mut S, job: &Job, halt: Halt) -> Status
    ensures { Ends result halt (asked job.now) (S.received out.old) (S.received out.new) }
{
    match halt {
        Halt::Unread(file) => {
            let line = read_fault_line(alloc, file_name(job, file));
            end_with(out, Status::ReadFault, line)
        }
        Halt::Refused(refusal) => {
            let line = refused_line(alloc, refusal);
            end_with(out, Status::Refused(refusal), line)
        }
        Halt::TooMany {
            round,
            stage,
            count,
        } => {
            let line = too_many_line(alloc, round, stage, count);
            let status = Status::TooMany {
                round,
                stage,
                count,
            };
            end_with(out, status, line)
        }
        Halt::Unstored(name) => {
            let line = write_fault_line(alloc, name.as_str());
            end_with(out, Status::WriteFault, line)
        }
        Halt::Unput => Status::WriteFault,
        Halt::Parts(fault) => end_parts(alloc, out, fault),
        Halt::Memory => end_for_memory(out),
    }
}
