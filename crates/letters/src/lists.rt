// Lists of entries, which stand one behind the other.
ghost use Rattle.std.specs.Prelude.{◌≡◌, ◌++◌, Bool, true, List, length, IfOk, OnOk};
ghost use Rattle.std.specs.List.{flat_map, list_all};
ghost use Rattle.letters.specs.Grammar.{Grammar, are_behind, comes_behind, entries_at, last_of, number};
ghost use Rattle.letters.specs.Bodies.{list_of};
ghost use Rattle.letters.specs.Letters.{Gives};

use crate::fault::LetterFault;
use crate::fields::{long_at, place_of};
use crate::spelling::put_long;
use ma_geom::Memory;
use std::alloc::Global;

/// What stands in the lists of letters. Where an allocator is passed that isn't used, no memory is taken.
pub(crate) trait Entry: Drop + Sized {
    ghost grammar: { Grammar Self };

    /// Whether one stands before another in a list.
    ghost before: { Self → Self → Bool };

    fn read(alloc: Global, end: usize, bytes: &[u8]) -> Result<(Self, &[u8]), LetterFault>
        ensures { Gives (λ x. (x.0, x.1.now)) result (grammar.reading end bytes.now) };

    fn put(&self, out: &mut Vec<u8>) -> Result<(), Memory>
        ensures text { OnOk result (out.new.items ≡ out.old.items ++ grammar.spelling self.now) }
        ensures fits { OnOk result (grammar.fits self.now ≡ true) };

    fn comes_before(&self, next: &Self) -> bool
        ensures { result ≡ before self.now next.now };
}

/// Whether an entry stands behind all of a list.
fn is_behind<T: Entry>(items: &[T], item: &T) -> bool
    ensures { result ≡ comes_behind T.before (last_of items.now) item.now }
{
    match items {
        [.., last] => last.comes_before(item),
        [] => true,
    }
}

/// As many entries, each behind the one before it.
pub(crate) fn entries<T: Entry>(
    alloc: Global,
    count: u64,
    end: usize,
    bytes: &[u8],
) -> Result<(Vec<T>, &[u8]), LetterFault>
    ensures gives { Gives (λ x. (x.0.items, x.1.now)) result (entries_at T.before T.grammar end bytes.now None count) }
    ensures behind { IfOk result (λ x. are_behind T.before None x.0.items ≡ true) }
    ensures count { IfOk result (λ x. length x.0.items ≡ count) }
{
    let mut items = Vec::new(alloc);
    let mut rest = bytes;
    for _ in 0..count {
        let (item, after) = T::read(alloc, end, rest)?;
        if !is_behind(&items, &item) {
            return Err(LetterFault::BadField(place_of(end, rest)));
        }
        items.push(item)?;
        rest = after;
    }
    Ok((items, rest))
}

/// A list, with its length before it.
pub(crate) fn list_at<T: Entry>(
    alloc: Global,
    end: usize,
    bytes: &[u8],
) -> Result<(Vec<T>, &[u8]), LetterFault>
    ensures gives { Gives (λ x. (x.0.items, x.1.now)) result ((list_of T.before T.grammar).reading end bytes.now) }
    ensures behind { IfOk result (λ x. are_behind T.before None x.0.items ≡ true) }
{
    let (count, rest) = long_at(bytes)?;
    entries(alloc, count, end, rest)
}

/// Entries one after another.
pub(crate) fn put_entries<T: Entry>(out: &mut Vec<u8>, items: &[T]) -> Result<(), Memory>
    ensures text { OnOk result (out.new.items ≡ out.old.items ++ flat_map T.grammar.spelling items.now) }
    ensures fits { OnOk result (list_all T.grammar.fits items.now ≡ true) }
{
    for item in items {
        item.put(out)?;
    }
    Ok(())
}

/// A list, with its length before it.
pub(crate) fn put_list<T: Entry>(out: &mut Vec<u8>, items: &[T]) -> Result<(), Memory>
    requires { are_behind T.before None items.now ≡ true }
    ensures text { OnOk result (out.new.items ≡ out.old.items ++ (list_of T.before T.grammar).spelling items.now) }
    ensures fits { OnOk result ((list_of T.before T.grammar).fits items.now ≡ true) }
{
    put_long(out, items.len() as u64)?;
    put_entries(out, items)
}
