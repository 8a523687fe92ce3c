// Sets that are kept as strictly ascending lists.
ghost use Rattle.std.specs.Prelude.{◌≡◌, ◌↔◌, ◌==◌, ◌++◌, length, not, filter, IfOk, IsTrue, [], vec_len};
ghost use Rattle.std.specs.Fn.{CalledAt};
ghost use Rattle.std.specs.FinMap.{IsAntisymmetric};
ghost use Rattle.std.specs.List.Sorted.{IsStrictlySortedBy};
ghost use Rattle.std.specs.List.{list_all};
ghost use Rattle.std.specs.List.Retain.{IsFiltered};
ghost use Rattle.ma_cells.specs.Ascending.{are_distinct, ascending_of, has};

use ma_geom::Memory;
use std::alloc::Global;
use std::cmp::Ordering;
use std::marker::Model;

/// A set that is kept as a strictly ascending list, and that contracts see as this list.
#[derive(Debug, Drop)]
pub struct Ascending<T: Ord> {
    items: Vec<T>,
}

impl<T: Ord> Model for Ascending<T> {
    ghost use Rattle.std.specs.Prelude.{List};
    ghost use Rattle.std.specs.List.Sorted.{IsStrictlySortedBy};

    ghost Value = { List T };

    ghost view = { λ a. a.items.items };

    ghost invariant = { λ a. IsStrictlySortedBy T.cmp a.items.items };
}

impl<T: Ord> Ascending<T> {
    /// The empty set, which takes no memory.
    pub fn new(alloc: Global) -> Ascending<T>
        ensures { result ≡ [] }
    {
        Ascending {
            items: Vec::new(alloc),
        }
    }

    /// A list that ascends already, as a set. Takes no memory.
    pub fn from_vec(items: Vec<T>) -> Ascending<T>
        requires { IsStrictlySortedBy T.cmp items.items }
        ensures { result ≡ items.items }
    {
        Ascending { items }
    }

    /// The list. Takes no memory.
    pub fn into_vec(self) -> Vec<T>
        ensures items { result.items ≡ self }
        ensures rises { IsStrictlySortedBy T.cmp result.items }
    {
        let Ascending { items } = self;
        items
    }

    pub fn as_slice(&self) -> &[T]
        ensures items { result.now ≡ self.now }
        ensures rises { IsStrictlySortedBy T.cmp result.now }
    {
        self.items.as_slice()
    }

    pub fn len(&self) -> usize
        ensures { result ≡ length self.now }
    {
        self.items.len()
    }

    pub fn is_empty(&self) -> bool
        ensures { IsTrue result ↔ (length self.now ≡ 0) }
    {
        self.items.is_empty()
    }

    /// Whether an item is in the set, in log n steps. Takes no memory.
    pub fn contains(&self, item: &T) -> bool
        ensures { result ≡ has T.cmp item.now self.now }
    {
        self.as_slice().binary_search(item).is_ok()
    }
}

impl<T: Ord + Drop> Ascending<T> {
    /// The set of these items, in n log n steps. It sorts in place and takes no memory.
    pub fn gather(mut items: Vec<T>) -> Ascending<T>
        ensures rises { IsStrictlySortedBy T.cmp result }
        ensures is { IsAntisymmetric T.cmp → result ≡ ascending_of T.cmp items.items }
        // It has as many items as were given just where these differ.
        ensures count { IsAntisymmetric T.cmp → (length result == vec_len items) ≡ are_distinct T.cmp items.items }
    {
        items.sort_unstable();
        items.dedup();
        Ascending { items }
    }

    /// Drops the items that do not pass, in one walk that keeps the order. Takes no memory.
    pub fn retain<F: FnMut(&T) -> bool>(&mut self, keep: F)
        requires { F.IsAlwaysCallable keep }
        ensures filtered { IsFiltered (CalledAt F.FnMut) keep self.old self.new }
    {
        self.items.retain(keep);
    }
}

impl<T: Ord + Copy> Ascending<T> {
    /// The items of either set, in one walk over both. Of two items that tie it has the other set's.
    pub fn union(&self, alloc: Global, other: &Ascending<T>) -> Result<Ascending<T>, Memory>
        ensures { IfOk result (λ both. both ≡ ascending_of T.cmp (self.now ++ other.now)) }
    {
        let items = merge(alloc, self.as_slice(), other.as_slice())?;
        Ok(Ascending { items })
    }

    /// The items that the other set lacks, in one walk over both.
    pub fn difference(&self, alloc: Global, other: &Ascending<T>) -> Result<Ascending<T>, Memory>
        ensures { IfOk result (λ rest. rest ≡ filter (λ item. not (has T.cmp item other.now)) self.now) }
    {
        let items = subtract(alloc, self.as_slice(), other.as_slice())?;
        Ok(Ascending { items })
    }
}

/// The set of the items of two sets.
fn merge<T: Ord + Copy>(alloc: Global, mut first: &[T], mut second: &[T]) -> Result<Vec<T>, Memory>
    requires first { IsStrictlySortedBy T.cmp first.now }
    requires second { IsStrictlySortedBy T.cmp second.now }
    ensures { IfOk result (λ both. both.items ≡ ascending_of T.cmp (first.now ++ second.now)) }
{
    let mut both = Vec::new(alloc);
    while let [x, xs @ ..] = first {
        let [y, ys @ ..] = second else { break };
        match x.cmp(y) {
            Ordering::Less => {
                both.push(*x)?;
                first = xs;
            }
            Ordering::Equal => {
                both.push(*y)?;
                (first, second) = (xs, ys);
            }
            Ordering::Greater => {
                both.push(*y)?;
                second = ys;
            }
        }
    }
    both.extend_from_slice(first)?;
    both.extend_from_slice(second)?;
    Ok(both)
}

/// The items of the first set that the second lacks.
fn subtract<T: Ord + Copy>(
    alloc: Global,
    mut first: &[T],
    mut second: &[T],
) -> Result<Vec<T>, Memory>
    requires first { IsStrictlySortedBy T.cmp first.now }
    requires second { IsStrictlySortedBy T.cmp second.now }
    ensures { IfOk result (λ rest. rest.items ≡ filter (λ item. not (has T.cmp item second.now)) first.now) }
{
    let mut rest = Vec::new(alloc);
    while let [x, xs @ ..] = first {
        let [y, ys @ ..] = second else { break };
        match x.cmp(y) {
            Ordering::Less => {
                rest.push(*x)?;
                first = xs;
            }
            Ordering::Equal => first = xs,
            Ordering::Greater => second = ys,
        }
    }
    rest.extend_from_slice(first)?;
    Ok(rest)
}

fn has<T: Ord>(items: &[T], item: &T) -> bool
    ensures { result ≡ has T.cmp item.now items.now }
{
    items.contains(item)
}

/// Whether each of the wanted is among the items.
pub(crate) fn has_all<T: Ord>(items: &[T], wanted: &[T]) -> bool
    ensures { result ≡ list_all (λ item. has T.cmp item items.now) wanted.now }
{
    wanted.iter().all(|item| has(items, item))
}
