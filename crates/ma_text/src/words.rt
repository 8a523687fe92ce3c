// The words of a line.
ghost use Rattle.std.specs.Prelude.{◌≡◌, ◌∷◌, [], MatchOption, Some, None, position};
ghost use Rattle.std.specs.List.{position_or_len};
ghost use Rattle.ma_text.specs.Blanks.{is_blank};
ghost use Rattle.ma_text.specs.Words.{cut_word, without_blanks, words_of};

use crate::blanks::is_blank;

/// What is left when the blanks in front are taken away.
fn without_blanks(bytes: &[u8]) -> &[u8]
    ensures { result.now ≡ without_blanks bytes.now }
{
    let mut rest = bytes;
    while let [first, behind @ ..] = rest
        && is_blank(*first)
    {
        rest = behind;
    }
    rest
}

/// Where the first blank stands.
fn blank(bytes: &[u8]) -> Option<usize>
    ensures { result ≡ position is_blank bytes.now }
{
    bytes.iter().position(|byte| is_blank(*byte))
}

/// How many bytes stand in front of the first blank.
fn word_len(bytes: &[u8]) -> usize
    ensures { result ≡ position_or_len is_blank bytes.now }
{
    blank(bytes).unwrap_or(bytes.len())
}

/// Takes the next word off a line. Words are divided by spaces and tabs.
pub fn next_word<'a>(line: &mut &'a [u8]) -> Option<&'a [u8]>
    ensures cut { MatchOption result ((cut_word line.old.now ≡ None) × (line.new.now ≡ [])) (λ word. cut_word line.old.now ≡ Some (word.now, line.new.now)) }
    ensures words { MatchOption result (words_of line.old.now ≡ []) (λ word. words_of line.old.now ≡ word.now ∷ words_of line.new.now) }
{
    let bytes = without_blanks(*line);
    let (word, behind) = bytes.split_at(word_len(bytes));
    *line = behind;
    if word.is_empty() { None } else { Some(word) }
}
