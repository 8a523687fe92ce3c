// A whole file.
ghost use Rattle.std.specs.Prelude.{◌≡◌, ◌≤◌, IfOk};
ghost use Rattle.std.specs.List.{All};
ghost use Rattle.std.specs.List.Sorted.{IsStrictlySortedBy};
ghost use Rattle.ma_text.specs.Lines.{numbered_lines};
ghost use Rattle.msh_read.specs.Answer.{AnswersFile, ReadsMesh};
ghost use Rattle.msh_read.specs.steps.Front.{nothing_read};
ghost use Rattle.msh_read.specs.GroupNames.{name_cmp};
ghost use Rattle.msh_read.specs.Reading.{read_of};
ghost use Rattle.msh_read.specs.steps.LinesRead.{after};

use crate::fault::MshFault;
use crate::front::Front;
use crate::raw::RawMesh;
use ma_text::Lines;
use std::alloc::Global;

/// What the lines that are left say.
fn front<'a>(alloc: Global, lines: &mut Lines<'a>) -> Result<Front<'a>, MshFault>
    ensures value { AnswersFile (λ front. front) result (after nothing_read lines.old.lines) }
    ensures end { lines.new.end ≡ lines.old.end }
{
    let mut front = Front::new(alloc);
    while let Some(line) = lines.next_line() {
        if let Err(fault) = front.step(line.bytes) {
            return Err(fault.at(line.number));
        }
    }
    Ok(front)
}

/// The mesh in a file.
pub fn read_msh(alloc: Global, bytes: &[u8]) -> Result<RawMesh, MshFault>
    ensures exact { ReadsMesh result (read_of bytes.now) }
    ensures names { IfOk result (λ mesh. IsStrictlySortedBy name_cmp mesh.names.items) }
    ensures dimensions { IfOk result (λ mesh. All (λ name. name.dimension ≤ 3) mesh.names.items) }
{
    let mut lines = Lines::new(bytes);
    let front = front(alloc, &mut lines)?;
    match front.finish() {
        Ok(mesh) => Ok(mesh),
        Err(fault) => Err(fault.at(lines.end_number())),
    }
}
