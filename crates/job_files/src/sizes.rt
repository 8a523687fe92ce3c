// The size file.
ghost use Rattle.std.specs.Prelude.{◌≡◌, ◌<◌, ◌≤◌, if◌then◌else◌, [], ◌∷◌, ◌++◌, IfOk, IfSome, true, unsigned_abs};
ghost use Rattle.std.specs.List.{enumerate_from};
ghost use Rattle.ma_geom.specs.Coordinates.{limit};
ghost use Rattle.msh_read.specs.Trying.{each};
ghost use Rattle.ma_text.specs.Words.{words_of};
ghost use Rattle.size_marks.specs.Field.{is_size};
ghost use Rattle.job_files.specs.declared.fault.JobFault.TheVariants.{BadLine, TooManyBoxes};
ghost use Rattle.job_files.specs.Answer.{Gives};
ghost use Rattle.job_files.specs.Sizes.{begins_with_box, box_of, coordinate_of, corner_of, default_of, field_behind, field_of, further_of, size_of};

use crate::fault::JobFault;
use crate::words::{Corner, begins_with_box, eight_words, two_words};
use ma_geom::Place;
use ma_text::{Lines, NumberFault, digits};
use size_marks::{SizeBox, SizeField};
use std::alloc::Global;

/// The coordinate that a word writes.
#[tactic(auto, using(crate::proofs::Numbers::coordinate_from))]
fn coordinate(word: &[u8]) -> Option<i32>
    ensures value { result ≡ coordinate_of word.now }
    ensures bound { IfSome result (λ c. unsigned_abs c ≤ limit) }
{
    match digits(word) {
        Ok(value) if value.unsigned_abs() <= 1 << 30 => Some(value as i32),
        _ => None,
    }
}

/// The size that a word writes in the line of this number.
#[tactic(auto, using(crate::proofs::Numbers::size_from))]
fn size(line: u64, word: &[u8]) -> Result<u32, JobFault>
    ensures value { result ≡ size_of line word.now }
    ensures range { IfOk result (λ size. is_size size ≡ true) }
{
    match digits(word) {
        Ok(value) if 1 <= value && value <= 1 << 30 => Ok(value as u32),
        Ok(_) | Err(NumberFault::TooBig) => Err(JobFault::SizeOutOfRange(line)),
        Err(NumberFault::NotWhole | NumberFault::Empty) => Err(JobFault::BadLine(line)),
    }
}

#[tactic(auto, unfolding(crate::specs::Sizes::corner_of))]
fn corner(line: u64, words: Corner<'_>) -> Result<Place, JobFault>
    ensures { result ≡ corner_of line (words.entry.x.now, words.entry.y.now, words.entry.z.now) }
{
    let bad = JobFault::BadLine(line);
    let x = coordinate(words.x).ok_or(bad)?;
    let y = coordinate(words.y).ok_or(bad)?;
    let z = coordinate(words.z).ok_or(bad)?;
    Place::new(x, y, z).ok_or(bad)
}

/// The default that the first line tells.
#[tactic(auto, unfolding(crate::specs::Sizes::default_of))]
fn default(line: u64, bytes: &[u8]) -> Result<u32, JobFault>
    ensures value { result ≡ default_of line bytes.now }
    ensures range { IfOk result (λ size. is_size size ≡ true) }
{
    let Some((keyword, word)) = two_words(bytes) else {
        return Err(JobFault::BadLine(line));
    };
    if keyword != b"default".as_slice() {
        return Err(JobFault::BadLine(line));
    }
    size(line, word)
}

/// The box that a line tells.
#[tactic(auto, unfolding(crate::specs::Sizes::box_of))]
fn boxed(line: u64, bytes: &[u8]) -> Result<SizeBox, JobFault>
    ensures { result ≡ box_of line bytes.now }
{
    let Some(words) = eight_words(bytes) else {
        return Err(JobFault::BadLine(line));
    };
    if words.keyword != b"box".as_slice() {
        return Err(JobFault::BadLine(line));
    }
    let low = corner(line, words.low)?;
    let high = corner(line, words.high)?;
    let size = size(line, words.size)?;
    Ok(SizeBox::new(low, high, size))
}

/// The fault of a line behind which no box may be.
fn past_the_last(line: u64, bytes: &[u8]) -> JobFault
    ensures { result ≡ (if begins_with_box (words_of bytes.now) then TooManyBoxes line else BadLine line) }
{
    if begins_with_box(bytes) {
        JobFault::TooManyBoxes(line)
    } else {
        JobFault::BadLine(line)
    }
}

/// The box that a line tells that has so many lines before it, behind the first.
fn further(before: usize, line: u64, bytes: &[u8]) -> Result<SizeBox, JobFault>
    ensures value { result ≡ further_of (before, (line, bytes.now)) }
    ensures few { IfOk result (λ _. before < 10000) }
{
    if before >= 10_000 {
        return Err(past_the_last(line, bytes));
    }
    boxed(line, bytes)
}

/// The field of this default with the boxes of the lines that are left.
#[tactic(auto, unfolding(crate::specs::Sizes::field_behind))]
fn read_behind(alloc: Global, default: u32, lines: &mut Lines<'_>) -> Result<SizeField, JobFault>
    requires { is_size default ≡ true }
    ensures { Gives (λ field. field) result (field_behind default lines.old.lines) }
{
    let mut field = SizeField::uniform(alloc, default);
    read_boxes(lines, &mut field)?;
    field.index_boxes(alloc)?;
    Ok(field)
}

/// Puts the boxes of the lines that are left into a field that has none.
fn read_boxes(lines: &mut Lines<'_>, field: &mut SizeField) -> Result<(), JobFault>
    requires { field.old.boxes ≡ [] }
    ensures boxes { Gives (λ _. field.new.boxes) result (each further_of (enumerate_from 0 lines.old.lines)) }
    ensures default { field.new.default ≡ field.old.default }
{
    let mut before: usize = 0;
    while let Some(line) = lines.next_line() {
        field.push_box(further(before, line.number, line.bytes)?)?;
        before += 1;
    }
    Ok(())
}

/// Reads a size file: the sizes that edges are to have, by place. Its boxes are indexed.
#[tactic(auto, unfolding(crate::specs::Sizes::field_of, crate::specs::Sizes::field_in_lines))]
pub fn read_size(alloc: Global, bytes: &[u8]) -> Result<SizeField, JobFault>
    ensures { Gives (λ field. field) result (field_of bytes.now) }
{
    let mut lines = Lines::new(bytes);
    let Some(first) = lines.next_line() else {
        return Err(JobFault::BadLine(1));
    };
    let default = default(first.number, first.bytes)?;
    read_behind(alloc, default, &mut lines)
}
