//! Letters, handed to the parts that they name.
ghost use Rattle.std.specs.Prelude.{◌≡◌, IfOk, OnOk};
ghost use Rattle.part_core.specs.Parts.{IsRunning, taken};
ghost use Rattle.part_phases.specs.Phases.{handed};
ghost use Rattle.round_rules.specs.Rounds.{rules};
ghost use Rattle.world_run.specs.Replay.{letter_in};
ghost use Rattle.world_run.specs.steps.Beginning.{AreUnspent};
ghost use Rattle.world_run.specs.steps.Handing.{GivesOut, HandsOut, Reads, ReadsHanded};
ghost use Rattle.world_run.specs.steps.Turns.{Gives, Hands};

use crate::excess::Excess;
use letters::{Letter, LetterFault, decode};
use ma_geom::Memory;
use part_core::{Part, PartFault};
use std::alloc::Global;

/// What came of a letter.
#[derive(Clone, Copy)]
pub enum Handed {
    /// It is no letter, names no part or one that is done, or is refused by the part.
    Refused,
    /// The part took it, and found too many tetrahedra in all.
    TooMany(Excess),
    /// The part took it.
    Taken,
    /// Memory ran out.
    Memory,
}

/// The letter that bytes are, if they are one.
fn letter_in(alloc: Global, bytes: &[u8]) -> Result<Option<Letter>, Memory>
    ensures is { IfOk result (λ letter. letter ≡ letter_in bytes.now) }
    ensures reads { OnOk result (Reads bytes.now) }
{
    match decode(alloc, bytes) {
        Ok(letter) => Ok(Some(letter)),
        Err(LetterFault::Memory) => Err(Memory),
        Err(LetterFault::Short | LetterFault::Long | LetterFault::BadField(_)) => Ok(None),
    }
}

/// Gives a letter to a part that isn't done.
fn give(alloc: Global, part: &mut Part, letter: Letter, out: &mut Vec<Letter>) -> Handed
    requires { IsRunning part.old }
    ensures gives { Gives result part.old part.new (handed (rules part.old.course) part.old.standing (taken letter)) }
    ensures out { GivesOut result (handed (rules part.old.course) part.old.standing (taken letter)) out.old.items out.new.items }
{
    let step = match part.accept(alloc, letter, out) {
        Ok(step) => step,
        Err(PartFault::Memory) => return Handed::Memory,
        Err(PartFault::NotExpected { .. } | PartFault::OffGrid(_)) => return Handed::Refused,
    };
    match Excess::of(part.round(), step) {
        Some(excess) => Handed::TooMany(excess),
        None => Handed::Taken,
    }
}

/// Hands a letter to the part that it names, whose letters are appended.
pub fn hand(alloc: Global, parts: &mut [Part], bytes: &[u8], out: &mut Vec<Letter>) -> Handed
    requires { AreUnspent parts.old }
    ensures hands { Hands result parts.old parts.new bytes.now }
    ensures out { HandsOut result parts.old bytes.now out.old.items out.new.items }
    ensures reads { ReadsHanded result bytes.now }
{
    let letter = match letter_in(alloc, bytes) {
        Ok(Some(letter)) => letter,
        Ok(None) => return Handed::Refused,
        Err(Memory) => return Handed::Memory,
    };
    let target = letter.target as usize;
    if target >= parts.len() {
        return Handed::Refused;
    }
    if parts[target].is_done() {
        return Handed::Refused;
    }
    give(alloc, &mut parts[target], letter, out)
}
