// The first two items with one key, in n log n steps.
ghost use Rattle.std.specs.Prelude.{◌≡◌, map, Some, IfSome};
ghost use Rattle.std.specs.FinMap.{IsAntisymmetric};
ghost use Rattle.std.specs.List.Sorted.{IsStrictlySortedBy};
ghost use Rattle.std.specs.Ordering.{nat_cmp};
ghost use Rattle.mesh_check.specs.Pairs.{first_pair};
ghost use Rattle.mesh_check.specs.steps.Ties.{lower, lowest_tie, tie};

use ma_cells::Ascending;

type Pair = (u64, u64);

/// The numbers of two items, if they have one key.
fn tie<K: Ord>(a: &(K, u64), b: &(K, u64)) -> Option<Pair>
    ensures { result ≡ tie K.cmp a.now b.now }
{
    if a.0 == b.0 { Some((a.1, b.1)) } else { None }
}

/// The pair with the lower first number.
fn lower(least: Option<Pair>, next: Option<Pair>) -> Option<Pair>
    ensures { result ≡ lower least next }
{
    match (least, next) {
        (None, next) => next,
        (Some(pair), None) => Some(pair),
        (Some(pair), Some(next)) => Some(if next.0 < pair.0 { next } else { pair }),
    }
}

/// Of all neighbours with one key, those with the lowest first number.
fn lowest_tie<K: Ord>(items: &[(K, u64)]) -> Option<Pair>
    ensures { result ≡ lowest_tie K.cmp items.now }
{
    let mut lowest = None;
    if let [first, rest @ ..] = items {
        let mut last = first;
        for item in rest {
            lowest = lower(lowest, tie(last, item));
            last = item;
        }
    }
    lowest
}

/// The number of the first item whose key a later one has too, and that of the first such later one.
/// The numbers of the items are to rise. Sorts in place and takes no memory.
pub fn first_pair<K: Ord + Drop>(items: Vec<(K, u64)>) -> Option<Pair>
    requires { IsStrictlySortedBy nat_cmp (map (λ item. item.1) items.items) }
    ensures { IsAntisymmetric K.cmp → result ≡ first_pair K.cmp items.items }
{
    lowest_tie(Ascending::gather(items).as_slice())
}
