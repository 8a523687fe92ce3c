// Lines of `$PhysicalNames`.
ghost use Rattle.std.specs.Prelude.{◌≡◌, None, Some, Ok, Err, IfOk, MatchOption, MatchResult, position, true};
ghost use Rattle.msh_read.specs.steps.LineAnswers.{Gives};
ghost use Rattle.msh_read.specs.GroupNames.{has_dimension};
ghost use Rattle.msh_read.specs.NameLines.{cut_at_quote, is_quote, name_of, number_in_front, quoted_text};

use crate::fault::{Fault, MshKind};
use crate::raw::Name;
use crate::words::{is_blank_text, is_tag, natural, number};
use ma_text::next_word;
use std::alloc::Global;

fn quote(bytes: &[u8]) -> Option<usize>
    ensures { result ≡ position is_quote bytes.now }
{
    bytes.iter().position(|byte| *byte == b'"')
}

/// What stands before the first `"`, and what behind it.
fn cut_at_quote(bytes: &[u8]) -> Option<(&[u8], &[u8])>
    ensures { MatchOption result (cut_at_quote bytes.now ≡ None) (λ cut. cut_at_quote bytes.now ≡ Some (cut.0.now, cut.1.now)) }
{
    let end = quote(bytes)?;
    Some((&bytes[..end], &bytes[end + 1..]))
}

/// The text between two `"`.
#[tactic(auto, unfolding(crate::specs::NameLines::quoted_text))]
fn text(bytes: &[u8]) -> Result<&[u8], MshKind>
    ensures { MatchResult result (λ text. quoted_text bytes.now ≡ Ok text.now) (λ kind. quoted_text bytes.now ≡ Err kind) }
{
    let Some((before, behind)) = cut_at_quote(bytes) else {
        return Err(MshKind::BadLine);
    };
    let Some((text, rest)) = cut_at_quote(behind) else {
        return Err(MshKind::BadLine);
    };
    if is_blank_text(before) && is_blank_text(rest) {
        Ok(text)
    } else {
        Err(MshKind::BadLine)
    }
}

/// The first word as a number, and what stands behind it.
#[tactic(auto, unfolding(crate::specs::NameLines::number_in_front))]
fn number_in_front(bytes: &[u8]) -> Result<(i64, &[u8]), MshKind>
    ensures { MatchResult result (λ cut. number_in_front bytes.now ≡ Ok (cut.0, cut.1.now)) (λ kind. number_in_front bytes.now ≡ Err kind) }
{
    let mut rest = bytes;
    let Some(word) = next_word(&mut rest) else {
        return Err(MshKind::BadLine);
    };
    match number(word) {
        Ok(number) => Ok((number, rest)),
        Err(kind) => Err(kind),
    }
}

/// The name in a line.
#[tactic(auto, unfolding(crate::specs::NameLines::name_of))]
pub fn name(alloc: Global, line: &[u8]) -> Result<Name, Fault>
    ensures value { Gives (λ name. name) result (name_of line.now) }
    ensures dimension { IfOk result (λ name. has_dimension name ≡ true) }
{
    let (dimension, rest) = number_in_front(line)?;
    let (number, rest) = number_in_front(rest)?;
    let text = text(rest)?;
    let dimension = natural(dimension).ok_or(MshKind::BadLine)?;
    if dimension > 3 || !is_tag(number) {
        return Err(Fault::Kind(MshKind::BadLine));
    }
    let text = Vec::from_slice(alloc, text)?;
    Ok(Name {
        dimension: dimension as u8,
        number: number as i32,
        text,
    })
}
