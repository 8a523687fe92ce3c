// Whether a swap is legal.
ghost use Rattle.std.specs.Prelude.{◌≡◌, ◌+◌, ◌++◌, ◌≤◌, ◌∷◌, [], ◌&&◌, Ok, nat_lt, filter, length};
ghost use Rattle.std.specs.List.{list_all};
ghost use Rattle.std.specs.Ordering.{int_eq};
ghost use Rattle.arrayvec.specs.ArrayVec.{array_vec_len};
ghost use Rattle.ma_geom.specs.Coordinates.{place_cmp};
ghost use Rattle.ma_cells.specs.Ascending.{ascending_of, has};
ghost use Rattle.ma_cells.specs.Tetrahedron.{tet_cmp};
ghost use Rattle.ma_cells.specs.Worst.{worst};
ghost use Rattle.cavity_rank.specs.Verdicts.{first_failing, verdict_of};
ghost use Rattle.cavity_swap.specs.Judging.{has_one_region, is_bad, is_bare, judged_pair, judged_swap, outer_faces_are_seen, shared_by};
ghost use Rattle.cavity_swap.specs.Rings.{IsRingOf};
ghost use Rattle.cavity_swap.specs.Swapping.{swapped};

use crate::filling::new_worst;
use crate::places::has;
use crate::rings::Ring;
use crate::seen::{is_bare, outer_faces_are_seen};
use crate::sets::cavity_of;
use arrayvec::ArrayVec;
use cavity_collapse::worst;
use cavity_rank::Verdict;
use ma_cells::{Mark, Tet};
use ma_geom::{Memory, Place};

fn same_region(tet: &Tet, first: &Tet) -> bool
    ensures { result ≡ (int_eq tet.now.phys first.now.phys && int_eq tet.now.elem first.now.elem) }
{
    tet.phys() == first.phys() && tet.elem() == first.elem()
}

fn have_region_of(first: &Tet, rest: &[Tet]) -> bool
    ensures { result ≡ list_all (λ tet. int_eq tet.phys first.now.phys && int_eq tet.elem first.now.elem) rest.now }
{
    rest.iter().all(|tet| same_region(tet, first))
}

pub(crate) fn has_one_region(cavity: &[Tet]) -> bool
    ensures { result ≡ has_one_region cavity.now }
{
    match cavity {
        [] => true,
        [first, rest @ ..] => have_region_of(first, rest),
    }
}

/// The number of the first test that fails, of those without quality.
fn failing(cavity: &[Tet], marks: &[Mark], at: &[Place], v: Place) -> Option<u8>
    ensures { result ≡ first_failing 1 (has_one_region cavity.now ∷ is_bare marks.now at.now cavity.now ∷ outer_faces_are_seen cavity.now v ∷ []) }
{
    if !has_one_region(cavity) {
        Some(1)
    } else if !is_bare(marks, at, cavity) {
        Some(2)
    } else if !outer_faces_are_seen(cavity, v) {
        Some(3)
    } else {
        None
    }
}

fn by_quality(cavity: &[Tet], v: Place, old: u32) -> Verdict
    ensures { result ≡ verdict_of (worst (swapped v cavity.now)) (first_failing 4 (is_bad old ∷ nat_lt old (worst (swapped v cavity.now)) ∷ [])) }
{
    if old >= 1 << 28 {
        return Verdict::Illegal(4);
    }
    let new = new_worst(cavity, v);
    if old < new {
        Verdict::Legal { worst: new }
    } else {
        Verdict::Illegal(5)
    }
}

/// The verdict on a swap of the edge or the face `at`, by its corners in ascending order, to `v`,
/// with the tetrahedra around it, each listed once, and their least quality. Takes no memory.
pub fn judge_with(cavity: &[Tet], marks: &[Mark], at: &[Place], v: Place, old: u32) -> Verdict
    requires { old ≡ worst cavity.now }
    ensures { result ≡ judged_swap cavity.now marks.now at.now v }
{
    match failing(cavity, marks, at, v) {
        Some(number) => Verdict::Illegal(number),
        None => by_quality(cavity, v, old),
    }
}

fn judge(cavity: &[Tet], marks: &[Mark], at: &[Place], v: Place) -> Verdict
    ensures { result ≡ judged_swap cavity.now marks.now at.now v }
{
    judge_with(cavity, marks, at, v, worst(cavity))
}

/// The verdict on a swap of the edge that `ring` is around to `v`, one of its corners: the number of
/// the first of five tests that fails, or the least quality of the new tetrahedra. `ring` is to be
/// the ring of `star`, and `marks` to have all marks on its faces and on the edge; others change
/// nothing. Answers always, and takes no memory.
///
/// The tests are: 1, the tetrahedra have one region; 2, no mark is on the edge, nor on a face between
/// two of them; 3, `v` lies on the side of its tetrahedron of each other face that lacks `v`; 4, the
/// least quality is below 2^28; 5, the least quality of the new tetrahedra is greater. After the
/// swaps of MeshAdapt (Li, Shephard and Beall 2005).
pub fn judge_ring(star: &[Tet], ring: &Ring, v: Place, marks: &[Mark]) -> Result<Verdict, Memory>
    requires { IsRingOf star.now ring.now }
    ensures { result ≡ Ok (judged_swap (ascending_of tet_cmp star.now) marks.now ring.now.ends v) }
{
    match cavity_of(star) {
        Some(cavity) => Ok(judge(cavity.as_slice(), marks, &ring.ends(), v)),
        None => unreachable!(),
    }
}

fn push_shared(shared: &mut ArrayVec<Place, 4>, corners: &[Place], other: [Place; 4])
    requires { array_vec_len shared.old + length corners.now ≤ 4 }
    ensures { shared.new.items ≡ shared.old.items ++ filter (λ p. has place_cmp p other) corners.now }
{
    match corners {
        [] => {}
        [first, rest @ ..] => {
            if has(&other, *first) {
                shared.push(*first);
            }
            push_shared(shared, rest, other);
        }
    }
}

fn shared_by(pair: &[Tet]) -> ArrayVec<Place, 4>
    ensures { result.items ≡ shared_by pair.now }
{
    let mut shared = ArrayVec::new();
    if let [s, t] = pair {
        push_shared(&mut shared, &s.corners(), t.corners());
    }
    shared
}

/// The verdict on a swap of the face that two tetrahedra share to `v`, one of their two other
/// corners, by the tests of `judge_ring`, with the face in place of the edge. They are to share three
/// corners. Answers always, and takes no memory.
pub fn judge_pair(pair: &[Tet; 2], v: Place, marks: &[Mark]) -> Result<Verdict, Memory>
    ensures { result ≡ Ok (judged_pair pair.now marks.now v) }
{
    match cavity_of(pair) {
        Some(cavity) => Ok(judge(cavity.as_slice(), marks, shared_by(pair).as_slice(), v)),
        None => unreachable!(),
    }
}
