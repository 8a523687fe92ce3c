// Items in ascending order, each put in its place.
ghost use Rattle.std.specs.Prelude.{◌≡◌, ◌<◌, ◌≤◌, length, insert, IfSome, IfNone};
ghost use Rattle.arrayvec.specs.ArrayVec.{array_vec_len};
ghost use Rattle.ma_cells.specs.Ascending.{put};

use arrayvec::ArrayVec;
use std::cmp::Ordering;

/// Where an item goes among ascending items. None where an item ties with it.
fn slot<T: Ord>(items: &[T], item: &T) -> Option<usize>
    ensures bound { IfSome result (λ i. i ≤ length items.now) }
    ensures place { IfSome result (λ i. put T.cmp item.now items.now ≡ insert items.now i item.now) }
    ensures tied { IfNone result (put T.cmp item.now items.now ≡ items.now) }
{
    match items {
        [] => Some(0),
        [first, rest @ ..] => match item.cmp(first) {
            Ordering::Less => Some(0),
            Ordering::Equal => None,
            Ordering::Greater => match slot(rest, item) {
                Some(i) => Some(i + 1),
                None => None,
            },
        },
    }
}

/// Puts an item in its place among ascending items, unless an item ties with it.
pub(crate) fn put<T: Ord + Drop, const CAP: usize>(items: &mut ArrayVec<T, CAP>, item: T)
    requires { array_vec_len items.old < CAP }
    ensures { items.new.items ≡ put T.cmp item items.old.items }
{
    if let Some(i) = slot(items.as_slice(), &item) {
        items.insert(i, item);
    }
}
