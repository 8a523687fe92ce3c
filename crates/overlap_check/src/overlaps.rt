// The first overlap, found over a grid of cubes that the boxes around tetrahedra touch.
ghost use Rattle.std.specs.Prelude.{◌≡◌, ◌+◌, ◌^◌, ◌≤◌, ◌<◌, ℕ, IfOk, IfSome, false, length, slice_index_or, true};
ghost use Rattle.std.specs.List.{All, position};
ghost use Rattle.overlap_check.specs.Overlap.{first_overlap_of, overlap};
ghost use Rattle.overlap_check.specs.declared.cubes.Touch.{Touch};
ghost use Rattle.overlap_check.specs.steps.Boxes.{AreBoxes};
ghost use Rattle.overlap_check.specs.steps.Cubes.{AreNoPartners, AreNotBefore, home_of};
ghost use Rattle.overlap_check.specs.steps.Pairs.{IsStart, are_overlapping, pair_from};

use crate::boxes::{BoundingBox, boxes_around};
use crate::cubes::{Cubes, Touch, touches};
use crate::pairs::separated;
use ma_cells::Tet;
use ma_geom::Memory;
use std::alloc::Global;

/// Whether the tetrahedra of two touches of a cube overlap, the first comes first, and the cube is
/// the home of their boxes: so a pair that touches several cubes is looked at in one.
fn overlap(tets: &[Tet], boxes: &[BoundingBox], cubes: &Cubes, touch: &Touch, other: &Touch) -> bool
    requires boxes { AreBoxes tets.now boxes.now }
    requires touch { touch.now.tet < length tets.now }
    requires other { other.now.tet < length tets.now }
    ensures found { result ≡ true → are_overlapping tets.now touch.now.tet other.now.tet ≡ true }
    ensures missed { result ≡ false → home_of cubes.now.shift boxes.now touch.now.tet other.now.tet ≡ touch.now.cube → are_overlapping tets.now touch.now.tet other.now.tet ≡ false }
{
    let (i, j) = (touch.tet as usize, other.tet as usize);
    i < j
        && boxes[i].meets(&boxes[j])
        && cubes.home(&boxes[i], &boxes[j]) == touch.cube
        && !separated(&tets[i], &tets[j])
}

/// Whether the tetrahedron of a touch overlaps one of those that come next in its cube.
fn overlaps_later(
    tets: &[Tet],
    boxes: &[BoundingBox],
    cubes: &Cubes,
    touch: &Touch,
    later: &[Touch],
) -> bool
    requires boxes { AreBoxes tets.now boxes.now }
    requires touch { touch.now.tet < length tets.now }
    requires later { All (λ t. t.tet < length tets.now) later.now }
    ensures found { result ≡ true → (j : ℕ) × (are_overlapping tets.now touch.now.tet j ≡ true) }
    ensures missed { result ≡ false → AreNoPartners cubes.now.shift tets.now boxes.now touch.now later.now (length later.now) }
{
    for other in later {
        if other.cube != touch.cube {
            return false;
        }
        if overlap(tets, boxes, cubes, touch, other) {
            return true;
        }
    }
    false
}

/// The place of the first tetrahedron that overlaps a later one, or the length of the list.
fn least_start(tets: &[Tet], boxes: &[BoundingBox], cubes: &Cubes, touches: &[Touch]) -> usize
    requires boxes { AreBoxes tets.now boxes.now }
    requires touches { All (λ t. t.tet < length tets.now) touches.now }
    ensures start { IsStart tets.now result }
    ensures least { AreNotBefore cubes.now.shift tets.now boxes.now touches.now (length touches.now) result }
{
    let mut least = tets.len();
    for (i, touch) in touches.iter().enumerate() {
        let start = touch.tet as usize;
        if start < least && overlaps_later(tets, boxes, cubes, touch, &touches[i + 1..]) {
            least = start;
        }
    }
    least
}

/// The place of the first tetrahedron that overlaps a later one, or the length of the list.
fn first_start(alloc: Global, tets: &[Tet]) -> Result<usize, Memory>
    ensures within { IfOk result (λ k. k ≤ length tets.now) }
    ensures start { IfOk result (λ k. IsStart tets.now k) }
    ensures least { IfOk result (λ k. (i j : ℕ) → are_overlapping tets.now i j ≡ true → k ≤ i) }
{
    let boxes = boxes_around(alloc, tets)?;
    let cubes = Cubes::for_boxes(&boxes);
    let touches = touches(alloc, &cubes, &boxes)?;
    Ok(least_start(tets, &boxes, &cubes, &touches))
}

/// The place of the first of the later tetrahedra that this one overlaps.
fn partner(tet: &Tet, later: &[Tet]) -> Option<usize>
    ensures value { result ≡ position (overlap tet.now) later.now }
    ensures bound { IfSome result (λ k. k < length later.now) }
{
    later.iter().position(|other| !separated(tet, other))
}

/// The place `first` of the tetrahedron in front, with that of the first later one that it overlaps.
fn pair_from(tets: &[Tet], first: usize) -> Option<(usize, usize)>
    requires { first + length tets.now < 2 ^ 64 }
    ensures { result ≡ pair_from first tets.now }
{
    match tets {
        [tet, later @ ..] => match partner(tet, later) {
            Some(k) => Some((first, first + 1 + k)),
            None => None,
        },
        [] => None,
    }
}

/// The lexicographically least pair of places, counted from 0, whose tetrahedra overlap. None where
/// none do.
///
/// It lists which cubes of a grid the box around each tetrahedron touches, sorts this list, and
/// compares the tetrahedra that touch one cube. The cubes are as small as they can be where a box
/// touches four on average. So it takes n log n steps where no cube is touched by many boxes, n * n
/// where one is touched by most, and always linear memory. The tetrahedra themselves are looked at
/// only where their boxes share an inner point. At last it goes over the list once more, for the
/// partner of the first that overlaps a later one.
pub fn first_overlap(alloc: Global, tets: &[Tet]) -> Result<Option<(usize, usize)>, Memory>
    ensures { IfOk result (λ pair. pair ≡ first_overlap_of tets.now) }
{
    let first = first_start(alloc, tets)?;
    Ok(pair_from(&tets[first..], first))
}
