// Words of lines.
ghost use Rattle.std.specs.Prelude.{◌≡◌, MatchOption, None, Some};
ghost use Rattle.ma_text.specs.Words.{words_of};
ghost use Rattle.msh_read.specs.Lines.{one_of};
ghost use Rattle.job_files.specs.Sizes.{begins_with_box, eight_of, two_of};

use ma_text::next_word;

/// The only word.
pub fn one_word(line: &[u8]) -> Option<&[u8]>
    ensures { MatchOption result (one_of (words_of line.now) ≡ None) (λ word. one_of (words_of line.now) ≡ Some word.now) }
{
    let mut rest = line;
    let word = next_word(&mut rest)?;
    match next_word(&mut rest) {
        None => Some(word),
        Some(_) => None,
    }
}

/// The two words.
pub fn two_words(line: &[u8]) -> Option<(&[u8], &[u8])>
    ensures { MatchOption result (two_of (words_of line.now) ≡ None) (λ w. two_of (words_of line.now) ≡ Some (w.0.now, w.1.now)) }
{
    let mut rest = line;
    let first = next_word(&mut rest)?;
    let second = next_word(&mut rest)?;
    match next_word(&mut rest) {
        None => Some((first, second)),
        Some(_) => None,
    }
}

/// Three words, as those of a corner.
#[derive(Clone, Copy)]
pub struct Corner<'a> {
    pub x: &'a [u8],
    pub y: &'a [u8],
    pub z: &'a [u8],
}

/// The words of a box.
#[derive(Clone, Copy)]
pub struct BoxWords<'a> {
    pub keyword: &'a [u8],
    pub low: Corner<'a>,
    pub high: Corner<'a>,
    pub size: &'a [u8],
}

/// The eight words.
pub fn eight_words(line: &[u8]) -> Option<BoxWords<'_>>
    ensures { MatchOption result (eight_of (words_of line.now) ≡ None) (λ w. eight_of (words_of line.now) ≡ Some (w.keyword.now, (w.low.x.now, w.low.y.now, w.low.z.now), (w.high.x.now, w.high.y.now, w.high.z.now), w.size.now)) }
{
    let mut rest = line;
    let keyword = next_word(&mut rest)?;
    let low = Corner {
        x: next_word(&mut rest)?,
        y: next_word(&mut rest)?,
        z: next_word(&mut rest)?,
    };
    let high = Corner {
        x: next_word(&mut rest)?,
        y: next_word(&mut rest)?,
        z: next_word(&mut rest)?,
    };
    let size = next_word(&mut rest)?;
    match next_word(&mut rest) {
        None => Some(BoxWords {
            keyword,
            low,
            high,
            size,
        }),
        Some(_) => None,
    }
}

/// Whether the first word is `box`.
pub fn begins_with_box(line: &[u8]) -> bool
    ensures { result ≡ begins_with_box (words_of line.now) }
{
    let mut rest = line;
    match next_word(&mut rest) {
        Some(word) => word == b"box".as_slice(),
        None => false,
    }
}
