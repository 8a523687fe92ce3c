// An axis cut into slabs, and for each slab a row of bits that tells which boxes meet it.
ghost use Rattle.std.specs.Prelude.{◌≡◌, ◌+◌, ◌/◌, ◌<◌, ◌≤◌, ℕ, ℤ, IfOk, length, slice_index, slice_index_or, true, unsigned_abs};
ghost use Rattle.ma_geom.specs.Coordinates.{limit};
ghost use Rattle.size_marks.specs.Field.{is_in_extent};
ghost use Rattle.size_marks.specs.steps.Slabs.{coordinate, IsInSlab, IsIndexAlong, HasSlab, IsMarked, MarksFirst};

use crate::field::SizeBox;
use ma_geom::{Memory, Place};
use std::alloc::Global;
use std::marker::Model;

/// An axis of space.
#[derive(Clone, Copy, Debug, PartialEq, Eq)]
pub enum Axis {
    X,
    Y,
    Z,
}

/// The coordinate of a place along an axis.
pub fn coordinate(p: Place, axis: Axis) -> i32
    ensures value { result ≡ coordinate axis p }
    ensures range { unsigned_abs result ≤ limit }
{
    match axis {
        Axis::X => p.x(),
        Axis::Y => p.y(),
        Axis::Z => p.z(),
    }
}

/// A bit for each box, in words of 64.
#[derive(Debug, Drop)]
pub struct Row {
    words: Vec<u64>,
}

impl Model for Row {
    ghost use Rattle.std.specs.Prelude.{List, ℕ};

    ghost Value = { List ℕ };

    ghost view = { λ r. r.words.items };
}

impl Row {
    /// Room for this many boxes, none of which is marked.
    fn unmarked(alloc: Global, boxes: usize) -> Result<Row, Memory>
        ensures { IfOk result (λ row. length row ≡ boxes / 64 + 1) }
    {
        Ok(Row {
            words: vec![in alloc; 0; boxes / 64 + 1]?,
        })
    }

    fn mark(&mut self, k: usize)
        requires { k / 64 < length self.old }
        ensures long { length self.new ≡ length self.old }
        ensures kept { (i : ℕ) → IsMarked self.old i → IsMarked self.new i }
        ensures marked { IsMarked self.new k }
    {
        self.words[k / 64] |= 1 << (k % 64);
    }

    /// The words, each with the bits of 64 boxes, from the lowest on.
    pub fn words(&self) -> &[u64]
        ensures { result.now ≡ self.now }
    {
        self.words.as_slice()
    }
}

/// Whether the extent from `low` to `high` has a coordinate of a slab, where the cuts ascend. Where
/// they do not, it may be told of more extents, which costs time and is no fault.
fn reaches(cuts: &[i32], slab: usize, low: i32, high: i32) -> bool
    requires { slab ≤ length cuts.now }
    ensures { (c : ℤ) → IsInSlab cuts.now slab c → is_in_extent low high c ≡ true → result ≡ true }
{
    if slab > 0 && cuts[slab - 1] > high {
        return false;
    }
    if slab < cuts.len() && cuts[slab] <= low {
        return false;
    }
    true
}

fn meets(boxed: &SizeBox, axis: Axis, cuts: &[i32], slab: usize) -> bool
    requires { slab ≤ length cuts.now }
    ensures { (c : ℤ) → IsInSlab cuts.now slab c → is_in_extent (coordinate axis boxed.now.low) (coordinate axis boxed.now.high) c ≡ true → result ≡ true }
{
    let (low, high) = (
        coordinate(boxed.low(), axis),
        coordinate(boxed.high(), axis),
    );
    reaches(cuts, slab, low, high)
}

/// The row of a slab.
fn row_of(
    alloc: Global,
    boxes: &[SizeBox],
    axis: Axis,
    cuts: &[i32],
    slab: usize,
) -> Result<Row, Memory>
    requires { slab ≤ length cuts.now }
    ensures { IfOk result (λ row. MarksFirst boxes.now axis cuts.now slab row (length boxes.now)) }
{
    let mut row = Row::unmarked(alloc, boxes.len())?;
    for (k, boxed) in boxes.iter().enumerate() {
        if meets(boxed, axis, cuts, slab) {
            row.mark(k);
        }
    }
    Ok(row)
}

/// The least and the greatest coordinates of the boxes along an axis, the latter with one added,
/// in ascending order: between two neighbours all boxes either have all coordinates or none.
fn ends(alloc: Global, boxes: &[SizeBox], axis: Axis) -> Result<Vec<i32>, Memory> {
    let mut ends = Vec::new(alloc);
    for boxed in boxes {
        ends.push(coordinate(boxed.low(), axis))?;
        ends.push(coordinate(boxed.high(), axis) + 1)?;
    }
    ends.sort_unstable();
    Ok(ends)
}

/// So many of these ends that at most 1,024 slabs lie between them, each with about as many ends
/// within it as any other.
fn cuts_of(alloc: Global, ends: &[i32]) -> Result<Vec<i32>, Memory> {
    let step = ends.len() / 1024 + 1;
    let mut cuts = Vec::new(alloc);
    for (k, end) in ends.iter().enumerate() {
        if k % step == 0 {
            cuts.push(*end)?;
        }
    }
    Ok(cuts)
}

/// An axis cut into slabs, with a row for each slab.
#[derive(Debug, Drop)]
pub struct Slabs {
    cuts: Vec<i32>,
    rows: Vec<Row>,
}

impl Slabs {
    pub fn along(alloc: Global, boxes: &[SizeBox], axis: Axis) -> Result<Slabs, Memory>
        ensures { IfOk result (λ slabs. IsIndexAlong boxes.now axis slabs.cuts.items slabs.rows.items) }
    {
        let ends = ends(alloc, boxes, axis)?;
        let cuts = cuts_of(alloc, &ends)?;
        let mut rows = Vec::new(alloc);
        for slab in 0..cuts.len() + 1 {
            rows.push(row_of(alloc, boxes, axis, &cuts, slab)?)?;
        }
        Ok(Slabs { cuts, rows })
    }

    /// The row of the slab in which a place lies along the axis.
    pub fn row_at(&self, axis: Axis, p: Place) -> &Row
        requires { length self.now.rows.items ≡ length self.now.cuts.items + 1 }
        ensures { HasSlab self.now.cuts.items self.now.rows.items (coordinate axis p) result.now }
    {
        let slab = slab_of(&self.cuts, coordinate(p, axis));
        &self.rows[slab]
    }
}

/// The number of a slab that has this coordinate. Where the cuts ascend it is the only one.
fn slab_of(cuts: &[i32], c: i32) -> usize
    ensures { IsInSlab cuts.now result c }
{
    let (mut low, mut high) = (0, cuts.len());
    while low < high {
        let middle = low + (high - low) / 2;
        if cuts[middle] <= c {
            low = middle + 1;
        } else {
            high = middle;
        }
    }
    low
}
