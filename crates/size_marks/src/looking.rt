// Which box decides the size at a place: by an index of the boxes, or box by box.
ghost use Rattle.std.specs.Prelude.{◌≡◌, ◌<◌, ◌≤◌, ℕ, IfOk, slice_index, true};
ghost use Rattle.size_marks.specs.Field.{is_size, size_at};
ghost use Rattle.size_marks.specs.steps.Slabs.{common_word, DecidesSize, IsIndexed, IsSizeIfHolds, MasksHolders};

use crate::field::SizeBox;
use crate::slabs::{Axis, Slabs};
use ma_geom::{Memory, Place};
use std::alloc::Global;

/// Which boxes meet which slabs, along each axis.
#[derive(Debug, Drop)]
pub struct BoxIndex {
    x: Slabs,
    y: Slabs,
    z: Slabs,
}

impl BoxIndex {
    pub fn of(alloc: Global, boxes: &[SizeBox]) -> Result<BoxIndex, Memory>
        ensures { IfOk result (λ index. IsIndexed boxes.now index) }
    {
        Ok(BoxIndex {
            x: Slabs::along(alloc, boxes, Axis::X)?,
            y: Slabs::along(alloc, boxes, Axis::Y)?,
            z: Slabs::along(alloc, boxes, Axis::Z)?,
        })
    }
}

/// The size of a box, if there is one of this number and it holds the place.
fn size_if_holds(boxes: &[SizeBox], number: usize, p: Place) -> Option<u32>
    ensures { IsSizeIfHolds boxes.now number p result }
{
    match boxes.get(number) {
        Some(boxed) if boxed.holds(p) => Some(boxed.size()),
        _ => None,
    }
}

/// The size of the last of these boxes that holds the place. Only boxes whose bit in the mask is
/// set hold it, so none behind the first 64 does.
fn size_in_block(boxes: &[SizeBox], mask: u64, p: Place) -> Option<u32>
    requires { MasksHolders boxes.now mask p }
    ensures { DecidesSize boxes.now p result }
{
    let mut left = mask;
    while left != 0 {
        let last = 63 - left.leading_zeros() as usize;
        if let Some(size) = size_if_holds(boxes, last, p) {
            return Some(size);
        }
        left &= (1 << last) - 1;
    }
    None
}

/// A word of a row, 0 behind its end.
fn word(row: &[u64], block: usize) -> u64
    ensures { result ≡ slice_index row.now block }
{
    match row.get(block) {
        Some(word) => *word,
        None => 0,
    }
}

/// The bits of a block that are set in all three rows.
fn mask_of(x: &[u64], y: &[u64], z: &[u64], block: usize) -> u64
    ensures { result ≡ common_word x.now y.now z.now block }
{
    word(x, block) & word(y, block) & word(z, block)
}

/// The last block up to this one of which a bit is set in all three rows, or else the first one.
fn last_met(x: &[u64], y: &[u64], z: &[u64], last: usize) -> usize
    ensures within { result ≤ last }
    ensures behind { (k : ℕ) → result < k → k ≤ last → common_word x.now y.now z.now k ≡ 0 }
{
    let mut block = last;
    while block > 0 && mask_of(x, y, z, block) == 0 {
        block -= 1;
    }
    block
}

/// The size of the last box that holds the place, else the default, by an index of the boxes.
pub fn size_by_index(default: u32, boxes: &[SizeBox], index: &BoxIndex, p: Place) -> u32
    requires sized { is_size default ≡ true }
    requires indexed { IsIndexed boxes.now index.now }
    ensures range { is_size result ≡ true }
    ensures value { result ≡ size_at (record { default = default; boxes = boxes.now }) p }
{
    let x = index.x.row_at(Axis::X, p).words();
    let y = index.y.row_at(Axis::Y, p).words();
    let z = index.z.row_at(Axis::Z, p).words();
    let mut before = boxes;
    while !before.is_empty() {
        let number = last_met(x, y, z, (before.len() - 1) / 64);
        let (front, back) = before.split_at(64 * number);
        if let Some(size) = size_in_block(back, mask_of(x, y, z, number), p) {
            return size;
        }
        before = front;
    }
    default
}
