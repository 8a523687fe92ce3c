// Fields from the front of bytes. `end` is how many bytes there are from a letter's first one to the
// end of those given.
ghost use Rattle.std.specs.Prelude.{◌≡◌, ◌≤◌, ◌-◌, length, unsigned_abs, FitsSigned, IfOk};
ghost use Rattle.std.specs.Int.{w32};
ghost use Rattle.ma_geom.specs.Coordinates.{limit};
ghost use Rattle.letters.specs.Entries.{corner_count};
ghost use Rattle.letters.specs.Fields.{between, coordinate, is_coordinate, place, signed};
ghost use Rattle.letters.specs.Grammar.{number};
ghost use Rattle.letters.specs.Letters.{Gives};

use crate::fault::LetterFault;
use byteorder::{BigEndian, ByteOrder};
use ma_geom::Place;

/// The place of a letter's byte, from 0, from which these bytes go to its end.
pub(crate) fn place_of(end: usize, bytes: &[u8]) -> u64
    ensures { result ≡ end - length bytes.now }
{
    end.saturating_sub(bytes.len()) as u64
}

pub(crate) fn byte_at(bytes: &[u8]) -> Result<(u8, &[u8]), LetterFault>
    ensures { Gives (λ x. (x.0, x.1.now)) result ((number 1).reading 0 bytes.now) }
{
    match bytes {
        [first, rest @ ..] => Ok((*first, rest)),
        [] => Err(LetterFault::Short),
    }
}

pub(crate) fn word_at(bytes: &[u8]) -> Result<(u32, &[u8]), LetterFault>
    ensures { Gives (λ x. (x.0, x.1.now)) result ((number 4).reading 0 bytes.now) }
{
    if bytes.len() < 4 {
        return Err(LetterFault::Short);
    }
    Ok((BigEndian::read_u32(bytes), &bytes[4..]))
}

pub(crate) fn long_at(bytes: &[u8]) -> Result<(u64, &[u8]), LetterFault>
    ensures { Gives (λ x. (x.0, x.1.now)) result ((number 8).reading 0 bytes.now) }
{
    if bytes.len() < 8 {
        return Err(LetterFault::Short);
    }
    Ok((BigEndian::read_u64(bytes), &bytes[8..]))
}

pub(crate) fn signed_at(bytes: &[u8]) -> Result<(i32, &[u8]), LetterFault>
    ensures gives { Gives (λ x. (x.0, x.1.now)) result (signed.reading 0 bytes.now) }
    ensures fits { IfOk result (λ x. FitsSigned w32 x.0) }
{
    if bytes.len() < 4 {
        return Err(LetterFault::Short);
    }
    Ok((BigEndian::read_i32(bytes), &bytes[4..]))
}

fn is_coordinate(c: i32) -> bool
    ensures { result ≡ is_coordinate c }
{
    c.unsigned_abs() <= 1 << 30
}

fn coordinate_at(end: usize, bytes: &[u8]) -> Result<(i32, &[u8]), LetterFault>
    ensures gives { Gives (λ x. (x.0, x.1.now)) result (coordinate.reading end bytes.now) }
    ensures range { IfOk result (λ x. unsigned_abs x.0 ≤ limit) }
{
    let (c, rest) = signed_at(bytes)?;
    if is_coordinate(c) {
        Ok((c, rest))
    } else {
        Err(LetterFault::BadField(place_of(end, bytes)))
    }
}

pub(crate) fn place_at(end: usize, bytes: &[u8]) -> Result<(Place, &[u8]), LetterFault>
    ensures { Gives (λ x. (x.0, x.1.now)) result (place.reading end bytes.now) }
{
    let (x, rest) = coordinate_at(end, bytes)?;
    let (y, rest) = coordinate_at(end, rest)?;
    let (z, rest) = coordinate_at(end, rest)?;
    match Place::new(x, y, z) {
        Some(place) => Ok((place, rest)),
        None => unreachable!(),
    }
}

/// A byte from `low` to `high`.
pub(crate) fn between_at(
    low: u8,
    high: u8,
    end: usize,
    bytes: &[u8],
) -> Result<(u8, &[u8]), LetterFault>
    ensures gives { Gives (λ x. (x.0, x.1.now)) result ((between low high).reading end bytes.now) }
    ensures least { IfOk result (λ x. low ≤ x.0) }
    ensures most { IfOk result (λ x. x.0 ≤ high) }
{
    let (n, rest) = byte_at(bytes)?;
    if low <= n && n <= high {
        Ok((n, rest))
    } else {
        Err(LetterFault::BadField(place_of(end, bytes)))
    }
}

/// How many corners a cell has, by its dimension.
pub(crate) fn corner_count_at(end: usize, bytes: &[u8]) -> Result<(u8, &[u8]), LetterFault>
    ensures gives { Gives (λ x. (x.0, x.1.now)) result (corner_count.reading end bytes.now) }
    ensures least { IfOk result (λ x. 1 ≤ x.0) }
    ensures most { IfOk result (λ x. x.0 ≤ 3) }
{
    let (dimension, rest) = byte_at(bytes)?;
    if dimension < 3 {
        Ok((dimension + 1, rest))
    } else {
        Err(LetterFault::BadField(place_of(end, bytes)))
    }
}
