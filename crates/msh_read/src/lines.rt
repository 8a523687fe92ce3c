// Lines that stand in any section.
ghost use Rattle.std.specs.Prelude.{◌≡◌, None, Some, MatchOption, MatchResult, Ok, Err};
ghost use Rattle.ma_text.specs.Words.{words_of};
ghost use Rattle.msh_read.specs.Lines.{behind_dollar, closes, count_of, format_of, header_of, is_end, one_of};

use crate::fault::MshKind;
use crate::words::{begins_with, natural, number, one_word, three_words};

/// What stands behind the `$` of a header's word.
fn behind_dollar(word: &[u8]) -> Option<&[u8]>
    ensures { MatchOption result (behind_dollar word.now ≡ None) (λ name. behind_dollar word.now ≡ Some name.now) }
{
    match word {
        [b'$', name @ ..] if !name.is_empty() && !begins_with(b"End", name) => Some(name),
        _ => None,
    }
}

/// The name in a header.
#[tactic(auto, unfolding(crate::specs::Lines::header_of))]
pub fn header(line: &[u8]) -> Result<&[u8], MshKind>
    ensures { MatchResult result (λ name. header_of line.now ≡ Ok name.now) (λ kind. header_of line.now ≡ Err kind) }
{
    let Some(word) = one_word(line) else {
        return Err(MshKind::BadLine);
    };
    match behind_dollar(word) {
        Some(name) => Ok(name),
        None => Err(MshKind::BadLine),
    }
}

/// Whether a word is `$End` and the name.
fn is_end(name: &[u8], word: &[u8]) -> bool
    ensures { result ≡ is_end name.now (Some word.now) }
{
    match word.strip_prefix(b"$End") {
        Some(behind) => behind == name,
        None => false,
    }
}

/// Whether a line ends the section of this name.
#[tactic(auto, unfolding(crate::specs::Lines::closes))]
pub fn closes(name: &[u8], line: &[u8]) -> bool
    ensures { result ≡ closes name.now line.now }
{
    match one_word(line) {
        Some(word) => is_end(name, word),
        None => false,
    }
}

/// Tests the line of the format.
#[tactic(auto, unfolding(crate::specs::Lines::format_of))]
pub fn format(line: &[u8]) -> Result<(), MshKind>
    ensures { MatchResult result (λ _. format_of line.now ≡ Ok tt) (λ kind. format_of line.now ≡ Err kind) }
{
    let Some((version, file_type, size)) = three_words(line) else {
        return Err(MshKind::BadLine);
    };
    if version != b"2.2".as_slice() {
        return Err(MshKind::OtherVersion);
    }
    if file_type == b"1".as_slice() {
        return Err(MshKind::Binary);
    }
    if file_type != b"0".as_slice() || size != b"8".as_slice() {
        return Err(MshKind::BadLine);
    }
    Ok(())
}

/// The count that a line has.
#[tactic(auto, unfolding(crate::specs::Lines::count_of))]
pub fn count(line: &[u8]) -> Result<u64, MshKind>
    ensures { result ≡ count_of line.now }
{
    let word = one_word(line).ok_or(MshKind::BadLine)?;
    let number = number(word)?;
    natural(number).ok_or(MshKind::BadLine)
}
