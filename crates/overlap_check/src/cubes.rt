// A grid of cubes, and the boxes that touch each cube.
ghost use Rattle.std.specs.Prelude.{◌≡◌, ◌≤◌, ◌<◌, ◌+◌, ◌/◌, ◌^◌, IfOk, OnOk, [], length};
ghost use Rattle.overlap_check.specs.steps.Cubes.{Adds, AreInOrder, IsInBlock, IsTouchBefore, Touches, first_touched, height, home, last_touched};

use crate::boxes::{BoundingBox, Span};
use ma_geom::Memory;
use std::alloc::Global;
use std::ops::Range;

/// The greatest side of cubes is two to the power of this. Places span so much along an axis.
const GREATEST_SHIFT: u32 = 31;

/// How many cubes a box may touch on average.
const TOUCHES_PER_BOX: usize = 4;

/// A cube of the grid, by its numbers along the axes.
#[derive(Clone, Copy, Debug, PartialEq, Eq, PartialOrd, Ord)]
pub(crate) struct Cube {
    pub(crate) x: u32,
    pub(crate) y: u32,
    pub(crate) z: u32,
}

/// A cube that a box touches, with the place of the tetrahedron in its list.
#[derive(Clone, Copy, Debug, PartialEq, Eq, PartialOrd, Ord)]
pub(crate) struct Touch {
    pub(crate) cube: Cube,
    pub(crate) tet: u32,
}

/// The cubes of a grid, whose side is two to the power of `shift`.
#[derive(Clone, Copy, Debug)]
pub(crate) struct Cubes {
    pub(crate) shift: u32,
    ghost at_least_two: { 1 ≤ shift },
    ghost stored: { shift < 32 },
}

impl Cubes {
    /// The number along an axis of the cube that has a coordinate.
    fn number(&self, c: i32) -> u32
        ensures { result ≡ height c / 2 ^ self.now.shift }
    {
        c.abs_diff(i32::MIN) >> self.shift
    }

    /// The numbers of the cubes that a span touches along an axis. One that has its greatest number
    /// alone is left out, since boxes that share an inner point share one below that.
    fn touched(&self, span: &Span) -> Range<u32>
        ensures start { result.start ≡ first_touched self.now.shift span.now }
        ensures end { result.end ≡ last_touched self.now.shift span.now + 1 }
    {
        let low = span.low.abs_diff(i32::MIN);
        let last = span.high.abs_diff(i32::MIN).saturating_sub(1);
        (low >> self.shift)..(low.max(last) >> self.shift) + 1
    }

    /// The cube that has the greater of the low ends of two boxes, along each axis.
    pub(crate) fn home(&self, a: &BoundingBox, b: &BoundingBox) -> Cube
        ensures { result ≡ home self.now.shift a.now b.now }
    {
        Cube {
            x: self.number(a.x.low.max(b.x.low)),
            y: self.number(a.y.low.max(b.y.low)),
            z: self.number(a.z.low.max(b.z.low)),
        }
    }

    /// How many cubes a box touches, or the greatest number if they are more.
    fn count(&self, around: &BoundingBox) -> usize {
        let x = self.touched(&around.x).len();
        let y = self.touched(&around.y).len();
        let z = self.touched(&around.z).len();
        x.saturating_mul(y).saturating_mul(z)
    }

    /// How many cubes all boxes touch, if these are at most `most`.
    fn count_all(&self, boxes: &[BoundingBox], most: usize) -> Option<usize> {
        let mut left = most;
        for around in boxes {
            left = left.checked_sub(self.count(around))?;
        }
        Some(most - left)
    }

    /// The smallest cubes of which the boxes touch at most `TOUCHES_PER_BOX` each on average, or the
    /// greatest ones, of which a box touches eight at most.
    pub(crate) fn for_boxes(boxes: &[BoundingBox]) -> Cubes {
        let most = boxes.len().saturating_mul(TOUCHES_PER_BOX);
        for shift in 1..GREATEST_SHIFT {
            let cubes = Cubes { shift };
            if cubes.count_all(boxes, most).is_some() {
                return cubes;
            }
        }
        Cubes {
            shift: GREATEST_SHIFT,
        }
    }
}

/// Appends the cubes of one row that a box touches.
fn push_row(
    touches: &mut Vec<Touch>,
    x: u32,
    y: u32,
    zs: &Range<u32>,
    tet: u32,
) -> Result<(), Memory>
    ensures { OnOk result (Adds touches.old.items touches.new.items (IsInBlock x (x + 1) y (y + 1) zs.now.start zs.now.end tet)) }
{
    for z in zs.start..zs.end {
        let cube = Cube { x, y, z };
        touches.push(Touch { cube, tet })?;
    }
    Ok(())
}

/// Appends the cubes of one slab that a box touches.
fn push_slab(
    touches: &mut Vec<Touch>,
    x: u32,
    ys: &Range<u32>,
    zs: &Range<u32>,
    tet: u32,
) -> Result<(), Memory>
    ensures { OnOk result (Adds touches.old.items touches.new.items (IsInBlock x (x + 1) ys.now.start ys.now.end zs.now.start zs.now.end tet)) }
{
    for y in ys.start..ys.end {
        push_row(touches, x, y, zs, tet)?;
    }
    Ok(())
}

/// Appends the cubes that a box touches.
fn push_touched(
    touches: &mut Vec<Touch>,
    cubes: &Cubes,
    around: &BoundingBox,
    tet: u32,
) -> Result<(), Memory>
    ensures { OnOk result (Adds touches.old.items touches.new.items (λ t. Touches cubes.now.shift around.now t.cube × (t.tet ≡ tet))) }
{
    let ys = cubes.touched(&around.y);
    let zs = cubes.touched(&around.z);
    let xs = cubes.touched(&around.x);
    for x in xs.start..xs.end {
        push_slab(touches, x, &ys, &zs, tet)?;
    }
    Ok(())
}

/// The cubes that the boxes touch, in order.
///
/// More boxes than 32 bits count are taken for want of memory: they would fill hundreds of gigabytes.
pub(crate) fn touches(
    alloc: Global,
    cubes: &Cubes,
    boxes: &[BoundingBox],
) -> Result<Vec<Touch>, Memory>
    ensures touches { IfOk result (λ ts. Adds [] ts.items (IsTouchBefore cubes.now.shift (length boxes.now) boxes.now)) }
    ensures order { IfOk result (λ ts. AreInOrder ts.items) }
{
    if boxes.len() > u32::MAX as usize {
        return Err(Memory);
    }
    let count = cubes.count_all(boxes, usize::MAX).unwrap_or(boxes.len());
    let mut touches = Vec::with_capacity(alloc, count)?;
    for (place, around) in boxes.iter().enumerate() {
        push_touched(&mut touches, cubes, around, place as u32)?;
    }
    touches.sort_unstable();
    Ok(touches)
}
