// Words of lines.
ghost use Rattle.std.specs.Prelude.{◌≡◌, ◌<◌, ◌^◌, MatchOption, IfSome};
ghost use Rattle.ma_text.specs.Lines.{is_blank_line};
ghost use Rattle.ma_text.specs.Words.{words_of};
ghost use Rattle.msh_read.specs.Lines.{begins_with, four_of, is_number, is_tag, natural, number_in_word, one_of, three_of};

use crate::fault::MshKind;
use ma_text::{digits, next_word};

/// The only word.
pub fn one_word(line: &[u8]) -> Option<&[u8]>
    ensures { MatchOption result (one_of (words_of line.now) ≡ None) (λ word. one_of (words_of line.now) ≡ Some word.now) }
{
    let mut rest = line;
    let word = next_word(&mut rest)?;
    match next_word(&mut rest) {
        None => Some(word),
        Some(_) => None,
    }
}

/// The three words.
pub fn three_words(line: &[u8]) -> Option<(&[u8], &[u8], &[u8])>
    ensures { MatchOption result (three_of (words_of line.now) ≡ None) (λ w. three_of (words_of line.now) ≡ Some (w.0.now, w.1.now, w.2.now)) }
{
    let mut rest = line;
    let first = next_word(&mut rest)?;
    let second = next_word(&mut rest)?;
    let third = next_word(&mut rest)?;
    match next_word(&mut rest) {
        None => Some((first, second, third)),
        Some(_) => None,
    }
}

/// The four words.
pub fn four_words(line: &[u8]) -> Option<(&[u8], &[u8], &[u8], &[u8])>
    ensures { MatchOption result (four_of (words_of line.now) ≡ None) (λ w. four_of (words_of line.now) ≡ Some (w.0.now, w.1.now, w.2.now, w.3.now)) }
{
    let mut rest = line;
    let first = next_word(&mut rest)?;
    let second = next_word(&mut rest)?;
    let third = next_word(&mut rest)?;
    let fourth = next_word(&mut rest)?;
    match next_word(&mut rest) {
        None => Some((first, second, third, fourth)),
        Some(_) => None,
    }
}

/// Whether nothing but blanks stands there.
pub fn is_blank_text(bytes: &[u8]) -> bool
    ensures { result ≡ is_blank_line bytes.now }
{
    bytes.iter().all(|byte| *byte == b' ' || *byte == b'\t')
}

pub fn begins_with(front: &[u8], bytes: &[u8]) -> bool
    ensures { result ≡ begins_with front.now bytes.now }
{
    bytes.strip_prefix(front).is_some()
}

/// The number that a word writes.
#[tactic(auto, unfolding(crate::specs::Lines::number_in_word))]
pub fn number(word: &[u8]) -> Result<i64, MshKind>
    ensures { result ≡ number_in_word word.now }
{
    match digits(word) {
        Ok(number) => Ok(number),
        Err(_) => Err(MshKind::BadLine),
    }
}

/// Whether the number fits 32 bits with its sign.
pub fn is_tag(number: i64) -> bool
    ensures { result ≡ is_tag number }
{
    i32::try_from(number).is_ok()
}

/// Whether a node or an element may have the number.
pub fn is_number(number: i64) -> bool
    ensures { result ≡ is_number number }
{
    1 <= number && number <= i64::from(i32::MAX)
}

/// The number, where it isn't negative.
pub fn natural(number: i64) -> Option<u64>
    ensures value { result ≡ natural number }
    ensures bound { IfSome result (λ n. n < 2 ^ 63) }
{
    u64::try_from(number).ok()
}
