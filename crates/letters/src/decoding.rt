// Letters as they are read.
ghost use Rattle.std.specs.Prelude.{◌≡◌, IfOk, Ok};
ghost use Rattle.letters.specs.Letters.{Gives, IsLetter, letter, read, spelling};
ghost use Rattle.letters.specs.declared.letter.Letter.{Letter};

use crate::bodies::{body_at, kind_of_letter};
use crate::fault::LetterFault;
use crate::fields::{byte_at, word_at};
use crate::letter::Letter;
use std::alloc::Global;

fn letter_at(alloc: Global, end: usize, bytes: &[u8]) -> Result<(Letter, &[u8]), LetterFault>
    ensures { Gives (λ x. (x.0, x.1.now)) result (letter.reading end bytes.now) }
{
    let (kind, rest) = kind_of_letter(end, bytes)?;
    let (round, rest) = word_at(rest)?;
    let (phase, rest) = word_at(rest)?;
    let (sender, rest) = byte_at(rest)?;
    let (target, rest) = byte_at(rest)?;
    match body_at(alloc, kind, end, rest) {
        Ok((body, rest)) => Ok((
            Letter {
                round,
                phase,
                sender,
                target,
                body,
            },
            rest,
        )),
        Err(fault) => Err(fault),
    }
}

fn whole_letter(alloc: Global, bytes: &[u8]) -> Result<Letter, LetterFault>
    ensures { Gives (λ l. l) result (read bytes.now) }
{
    match letter_at(alloc, bytes.len(), bytes) {
        Ok((letter, rest)) => {
            if rest.is_empty() {
                Ok(letter)
            } else {
                Err(LetterFault::Long)
            }
        }
        Err(fault) => Err(fault),
    }
}

/// The letter that the bytes spell, all of the bytes; else the first fault, field by field.
pub fn decode(alloc: Global, bytes: &[u8]) -> Result<Letter, LetterFault>
    // What is read is spelled so.
    ensures found { IfOk result (λ l. IsLetter l × (bytes.now ≡ spelling l)) }
    // What is spelled so is read, unless memory runs out.
    ensures only { (l : Letter) → IsLetter l → bytes.now ≡ spelling l → Gives (λ m. m) result (Ok l) }
    // Which fault it is.
    ensures exact { Gives (λ l. l) result (read bytes.now) }
{
    whole_letter(alloc, bytes)
}
