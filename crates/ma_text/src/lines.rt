// The lines of a file.
ghost use Rattle.std.specs.Prelude.{◌≡◌, ◌==◌, ◌<◌, ◌≤◌, ◌∷◌, [], length, position, MatchOption};
ghost use Rattle.ma_text.specs.steps.LineEnds.{without_return};
ghost use Rattle.ma_text.specs.Lines.{end_number, is_blank_line, lines_of, numbered_lines};

use crate::blanks::is_blank;
use std::marker::Model;

/// A line without its end, and its number, counted from 1.
#[derive(Clone, Copy, Debug, PartialEq, Eq)]
pub struct Line<'a> {
    pub number: u64,
    pub bytes: &'a [u8],
}

/// The lines of a file that aren't blank, of which one after the other is taken. A line of spaces and
/// tabs alone, or of nothing, is blank; it counts as a line all the same.
#[derive(Drop)]
pub struct Lines<'a> {
    /// The number of the first line of the rest.
    number: u64,
    rest: &'a [u8],
}

impl<'a> Model for Lines<'a> {
    ghost use Rattle.std.specs.Prelude.{length, ◌+◌, ◌<◌, ◌^◌};
    ghost use Rattle.ma_text.specs.Lines.{LinesLeft, lines_left};

    ghost Value = { LinesLeft };

    ghost view = { λ l. lines_left l.number l.rest.now };

    ghost invariant = { λ l. l.number + length l.rest.now < 2 ^ 64 };
}

/// Where the first line feed stands.
fn line_feed(bytes: &[u8]) -> Option<usize>
    ensures { result ≡ position (λ byte. byte == 10) bytes.now }
{
    bytes.iter().position(|byte| *byte == b'\n')
}

/// The first line, and what stands behind its end.
fn cut_line(bytes: &[u8]) -> Option<(&[u8], &[u8])>
    ensures line { MatchOption result (bytes.now ≡ []) (λ cut. lines_of bytes.now ≡ cut.0.now ∷ lines_of cut.1.now) }
    ensures shorter { MatchOption result (bytes.now ≡ []) (λ cut. length cut.1.now < length bytes.now) }
{
    if bytes.is_empty() {
        return None;
    }
    match line_feed(bytes) {
        None => Some((bytes, &[])),
        Some(end) => Some((without_return(&bytes[..end]), &bytes[end + 1..])),
    }
}

/// A line that ended at a line feed, without a carriage return just before it.
#[tactic(auto, using(crate::proofs::LineCuts::chops, crate::proofs::LineCuts::keeps))]
fn without_return(line: &[u8]) -> &[u8]
    ensures { result.now ≡ without_return line.now }
{
    match line {
        [front @ .., last] if *last == b'\r' => front,
        _ => line,
    }
}

fn is_blank_line(line: &[u8]) -> bool
    ensures { result ≡ is_blank_line line.now }
{
    line.iter().all(|byte| is_blank(*byte))
}

fn count_lines(bytes: &[u8]) -> u64
    ensures count { result ≡ length (lines_of bytes.now) }
    ensures bound { result ≤ length bytes.now }
{
    let mut rest = bytes;
    let mut count = 0;
    while let Some((_, behind)) = cut_line(rest) {
        count += 1;
        rest = behind;
    }
    count
}

impl<'a> Lines<'a> {
    pub fn new(bytes: &'a [u8]) -> Lines<'a>
        ensures lines { result.lines ≡ numbered_lines bytes.now }
        ensures end { result.end ≡ end_number bytes.now }
    {
        Lines {
            number: 1,
            rest: bytes,
        }
    }

    /// The next line that isn't blank.
    pub fn next_line(&mut self) -> Option<Line<'a>>
        ensures line { MatchOption result ((self.old.lines ≡ []) × (self.new.lines ≡ [])) (λ line. self.old.lines ≡ (line.number, line.bytes.now) ∷ self.new.lines) }
        ensures end { self.new.end ≡ self.old.end }
    {
        while let Some((bytes, behind)) = cut_line(self.rest) {
            let number = self.number;
            self.number += 1;
            self.rest = behind;
            if !is_blank_line(bytes) {
                return Some(Line { number, bytes });
            }
        }
        None
    }

    /// The number that the end of the file has: the number of its lines, and one more.
    pub fn end_number(&self) -> u64
        ensures { result ≡ self.now.end }
    {
        self.number + count_lines(self.rest)
    }
}
