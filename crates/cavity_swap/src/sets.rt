// The cavity of a swap as a set.
ghost use Rattle.std.specs.Prelude.{◌≡◌, ◌<◌, ◌≤◌, true, false, length, MatchOption};
ghost use Rattle.std.specs.List.Sorted.{IsStrictlySortedBy};
ghost use Rattle.ma_cells.specs.Ascending.{ascending_of, put};
ghost use Rattle.ma_cells.specs.Tetrahedron.{tet_cmp};

use arrayvec::ArrayVec;
use ma_cells::Tet;

/// Puts one more into a set, unless it is there already. Whether there was room.
fn put(cavity: &mut ArrayVec<Tet, 7>, tet: &Tet) -> bool
    requires { IsStrictlySortedBy tet_cmp cavity.old.items }
    ensures put { result ≡ true → cavity.new.items ≡ put tet_cmp tet.now cavity.old.items }
    ensures full { result ≡ false → 7 < length (put tet_cmp tet.now cavity.old.items) }
{
    match cavity.as_slice().binary_search(tet) {
        Ok(_) => true,
        Err(_) if cavity.is_full() => false,
        Err(place) => {
            cavity.insert(place, *tet);
            true
        }
    }
}

/// The set of these tetrahedra, if they are seven at most.
pub(crate) fn cavity_of(star: &[Tet]) -> Option<ArrayVec<Tet, 7>>
    ensures { MatchOption result (7 < length (ascending_of tet_cmp star.now)) (λ cavity. cavity.items ≡ ascending_of tet_cmp star.now) }
{
    let mut cavity = ArrayVec::new();
    for tet in star {
        if !put(&mut cavity, tet) {
            return None;
        }
    }
    Some(cavity)
}
